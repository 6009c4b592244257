//! What generic code learns of each device of the outside, and each once at a type of its own.
ghost use Rattle.std.specs.Prelude.{◌≡◌, ◌∷◌, [], Ok, true, false, take};
ghost use Rattle.std.specs.Prelude.{IsTrue, IsSome, IsSomeAnd, IfSome, IfOk, OnErr};
ghost use Rattle.portal_base.specs.Counted.{next_count};
ghost use Rattle.portal_base.specs.Outside.{Gives, Takes, Rose, HoldsNothingAt, TakesOne};

use portal_base::counted::CountTicker;
use portal_base::lent::Lent;
use portal_base::memory::{MemoryFetcher, MemoryLink, MemoryListener, MemorySource};
use portal_base::outside::{Failed, FetchFault, Fetcher, Link, Listener, Source, Ticker};
use portal_base::seq::Seq;
use portal_base::text::Text;
use std::alloc::{AllocError, Global};

fn bytes(alloc: Global, text: &str) -> Result<Seq<u8>, AllocError>
    ensures { IfOk result (λ bytes. bytes ≡ text.now) }
{
    Ok(Seq::from(text.as_bytes().to_vec(alloc)?))
}

fn numbers(alloc: Global, items: &[u64]) -> Result<Seq<u64>, AllocError> {
    Ok(Seq::from(items.to_vec(alloc)?))
}

// One read and one write, of which neither touches the other's bytes.
fn exchange<K: Link>(link: &mut K, into: &mut [u8], piece: &[u8]) -> Result<(usize, usize), Failed>
    ensures read { IfOk result (λ counts.
        Gives (K.to_come link.old) (take counts.0 into.new) (K.to_come link.new)) }
    ensures written { IfOk result (λ counts.
        Takes (K.taken link.old) (take counts.1 piece.now) (K.taken link.new)) }
    ensures failed { OnErr result (Rose (K.faults link.old) (K.faults link.new)) }
{
    let read = link.read(into)?;
    let written = link.write(piece)?;
    Ok((read, written))
}

#[test]
fn a_link_counts_reads_and_writes_together(rt: HostRuntime) -> Result<(), AllocError> {
    let alloc = rt.alloc();
    let failing = numbers(alloc, &[2, 5])?;
    let mut link = MemoryLink::new(alloc, bytes(alloc, "abcde")?, 5, failing)?;
    let mut into = [0; 2];
    assert_eq!(rt; exchange(&mut link, &mut into, b"xy"), Err(Failed));
    assert_eq!(rt; exchange(&mut link, &mut into, b"xyz"), Ok((2, 3)));
    assert_eq!(rt; &into, b"cd");
    assert_eq!(rt; exchange(&mut link, &mut into, b"vw"), Err(Failed));
    assert_eq!(rt; exchange(&mut link, &mut into, b"uvw"), Ok((1, 2)));
    assert_eq!(rt; exchange(&mut link, &mut into, b"t"), Err(Failed));
    assert_eq!(rt; link.taken(), b"xyzuv".as_slice());
    Ok(())
}

// Whether something is held at the location, however long it is.
fn is_there<F: Fetcher>(alloc: Global, fetcher: &mut F, location: &str) -> Result<bool, FetchFault>
    ensures there { result ≡ Ok true →
        IfSome (F.held fetcher.old) (λ held. IsSome (held location.now)) }
    ensures missing { result ≡ Ok false → HoldsNothingAt (F.held fetcher.old) location.now }
    ensures held { F.held fetcher.new ≡ F.held fetcher.old }
{
    match fetcher.fetch(alloc, location, 2) {
        Ok(_) => Ok(true),
        Err(FetchFault::TooLong) => Ok(true),
        Err(FetchFault::Missing) => Ok(false),
        Err(fault) => Err(fault),
    }
}

#[test]
fn a_fetcher_tells_what_it_holds(rt: HostRuntime) -> Result<(), AllocError> {
    let alloc = rt.alloc();
    let first = (Text::from_str(alloc, "a.nt")?, bytes(alloc, "ab")?);
    let second = (Text::from_str(alloc, "b.nt")?, bytes(alloc, "abc")?);
    let held = Seq::from(vec![in alloc; first, second]?);
    let mut fetcher = MemoryFetcher::new(held, numbers(alloc, &[4])?);
    let fetched = fetcher.fetch(alloc, "a.nt", 2);
    assert!(rt; fetched.is_ok_and(|fetched| fetched.as_slice() == b"ab".as_slice()));
    assert!(rt; matches!(fetcher.fetch(alloc, "b.nt", 2), Err(FetchFault::TooLong)));
    assert!(rt; matches!(fetcher.fetch(alloc, "c.nt", 2), Err(FetchFault::Missing)));
    assert!(rt; matches!(fetcher.fetch(alloc, "a.nt", 2), Err(FetchFault::Failed)));
    assert!(rt; matches!(is_there(alloc, &mut fetcher, "b.nt"), Ok(true)));
    assert!(rt; matches!(is_there(alloc, &mut fetcher, "c.nt"), Ok(false)));
    Ok(())
}

// Serves the next link by nothing at all, and says whether there was one.
fn serve_next<L: Listener>(listener: &mut L) -> Result<bool, Failed>
    requires { L.is_out listener.old ≡ false }
    ensures out { L.is_out listener.new ≡ false }
    ensures served { result ≡ Ok true → L.count listener.new ≡ next_count (L.count listener.old) }
    ensures order { result ≡ Ok true → IfSome (L.to_come listener.old) (λ links.
        IsSomeAnd (L.to_come listener.new) (λ rest. (link : L.Peer) × (links ≡ link ∷ rest)
        × TakesOne (L.taken_back listener.old) link (L.taken_back listener.new))) }
    ensures end { result ≡ Ok false → IsTrue (L.is_at_end listener.new) }
    ensures all { result ≡ Ok false → IfSome (L.to_come listener.new) (λ links. links ≡ []) }
    ensures failed { OnErr result (Rose (L.faults listener.old) (L.faults listener.new)) }
{
    match listener.accept()? {
        Some(link) => {
            listener.finish(link);
            Ok(true)
        }
        None => Ok(false),
    }
}

#[test]
fn a_listener_gives_its_links_in_order(rt: HostRuntime) -> Result<(), AllocError> {
    let alloc = rt.alloc();
    let first = MemoryLink::new(alloc, bytes(alloc, "a")?, 1, Seq::new(alloc))?;
    let second = MemoryLink::new(alloc, bytes(alloc, "b")?, 1, Seq::new(alloc))?;
    let links = Seq::from(vec![in alloc; first, second]?);
    let mut listener = MemoryListener::new(alloc, links, numbers(alloc, &[2])?)?;
    assert_eq!(rt; serve_next(&mut listener), Ok(true));
    assert_eq!(rt; serve_next(&mut listener), Err(Failed));
    assert_eq!(rt; serve_next(&mut listener), Ok(true));
    assert_eq!(rt; serve_next(&mut listener), Ok(false));
    assert_eq!(rt; serve_next(&mut listener), Ok(false));
    assert_eq!(rt; listener.taken_back().len(), 2);
    Ok(())
}

// Whether the ticker ends within this count of rounds.
fn ends_within<T: Ticker>(ticker: &mut T, rounds: u8) -> bool
    ensures ended { IsTrue result → T.has_ended ticker.new ≡ true }
{
    for _ in 0..rounds {
        if !ticker.tick() {
            return true;
        }
    }
    false
}

#[test]
fn a_ticker_ends(rt: HostRuntime) {
    assert!(rt; !ends_within(&mut CountTicker::new(3), 3));
    let mut ticker = CountTicker::new(3);
    assert!(rt; ends_within(&mut ticker, 4));
    assert!(rt; ends_within(&mut ticker, 1));
}

// One byte, read by what knows a source alone.
fn read_byte<S: Source>(source: &mut S, into: &mut [u8; 1]) -> Result<usize, Failed>
    ensures bytes { IfOk result (λ count.
        Gives (S.to_come source.old) (take count into.new) (S.to_come source.new)) }
    ensures failed { OnErr result (Rose (S.faults source.old) (S.faults source.new)) }
    ensures loan { S.loan source.new ≡ S.loan source.old }
{
    source.read(into)
}

// The lender is as the reads through the loan left it.
fn read_by_loan<S: Source>(source: &mut S, into: &mut [u8; 1]) -> Result<usize, Failed>
    ensures bytes { IfOk result (λ count.
        Gives (S.to_come source.old) (take count into.new) (S.to_come source.new)) }
    ensures failed { OnErr result (Rose (S.faults source.old) (S.faults source.new)) }
{
    let mut lent = Lent::new(source);
    read_byte(&mut lent, into)
}

#[test]
fn a_loan_reads_on_at_its_lender(rt: HostRuntime) -> Result<(), AllocError> {
    let alloc = rt.alloc();
    let mut source = MemorySource::new(bytes(alloc, "ab")?, numbers(alloc, &[2])?);
    let mut into = [0];
    assert_eq!(rt; read_by_loan(&mut source, &mut into), Ok(1));
    assert_eq!(rt; into[0], b'a');
    assert_eq!(rt; read_by_loan(&mut source, &mut into), Err(Failed));
    assert_eq!(rt; source.read(&mut into), Ok(1));
    assert_eq!(rt; into[0], b'b');
    Ok(())
}
