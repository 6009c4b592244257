//! Traits for the devices outside the portal: sources, sinks, links, fetchers, listeners, tickers, clocks and nonces.
//!
//! The ghost members of a trait are what is observable of a device. Content is an `Option`: it is none for a device
//! whose content is not observable, and then no clause claims anything of it. The count of faults is always observable.
ghost use Rattle.std.specs.Prelude.{◌≡◌, ◌↔◌, ◌<◌, ◌≤◌, ℕ, ℤ, Bool, true, false, not, if◌then◌else◌, List, [], Option};
ghost use Rattle.std.specs.Prelude.{None, Ok, length, take, IsTrue, IsNone, IfSome, IfOk, OnOk, OnErr, IsErrOf};
ghost use Rattle.portal_base.specs.Counted.{next_count};
ghost use Rattle.portal_base.specs.Outside.{Gives, Takes, Draws, Rose, IsAtEnd, HoldsAt, HoldsNothingAt, HoldsMoreAt};
ghost use Rattle.portal_base.specs.Outside.{GivesOne, TakesOne, is_some_link};

use crate::moment::Moment;
use crate::nonce::Nonce;
use std::alloc::Global;
use thiserror::Error;

/// A device failed. Its count of faults rose, or is at the maximum of a `u64`.
#[derive(Clone, Copy, Debug, PartialEq, Eq)]
pub struct Failed;

/// A source of bytes.
pub trait Source {
    /// The bytes still to come, where they are observable.
    ghost to_come: { Self → Option (List ℕ) };

    /// The number of faults so far, up to the maximum of a `u64`.
    ghost faults: { Self → ℕ };

    /// The name of the loan, if the source is borrowed. Reads keep it, so the lender is as the last read left it.
    ghost loan: { Self → Option ℕ } = { λ _. None };

    /// Reads the next bytes into the start of `into`, and returns their number. A read into a nonempty slice returns 0
    /// only at the end.
    fn read(&mut self, into: &mut [u8]) -> Result<usize, Failed>
        ensures within { IfOk result (λ count. count ≤ length into.new) }
        ensures bytes { IfOk result
            (λ count. Gives (to_come self.old) (take count into.new) (to_come self.new)) }
        ensures end { 0 < length into.new → result ≡ Ok 0 → IsAtEnd (to_come self.old) }
        ensures kept { OnErr result (to_come self.new ≡ to_come self.old) }
        ensures loan { loan self.new ≡ loan self.old }
        ensures failed { OnErr result (Rose (faults self.old) (faults self.new)) }
        ensures counts { faults self.old ≤ faults self.new };
}

/// A sink of bytes.
pub trait Sink {
    /// The bytes taken so far, where they are observable.
    ghost taken: { Self → Option (List ℕ) };

    /// The number of faults so far, up to the maximum of a `u64`.
    ghost faults: { Self → ℕ };

    /// Takes bytes from the start of `piece`, and returns their number: at least 1, unless the piece is empty.
    fn write(&mut self, piece: &[u8]) -> Result<usize, Failed>
        ensures within { IfOk result (λ count. count ≤ length piece.now) }
        ensures some { 0 < length piece.now → IfOk result (λ count. 0 < count) }
        ensures bytes { IfOk result
            (λ count. Takes (taken self.old) (take count piece.now) (taken self.new)) }
        ensures kept { OnErr result (taken self.new ≡ taken self.old) }
        ensures failed { OnErr result (Rose (faults self.old) (faults self.new)) }
        ensures counts { faults self.old ≤ faults self.new };
}

/// A connection: a source and a sink of bytes. Reads do not change the bytes taken, nor writes the bytes to come.
pub trait Link {
    /// The bytes still to come, where they are observable.
    ghost to_come: { Self → Option (List ℕ) };

    /// The bytes taken so far, where they are observable.
    ghost taken: { Self → Option (List ℕ) };

    /// The number of faults so far, up to the maximum of a `u64`.
    ghost faults: { Self → ℕ };

    /// Reads the next bytes into the start of `into`, and returns their number. A read into a nonempty slice returns 0
    /// only at the end.
    fn read(&mut self, into: &mut [u8]) -> Result<usize, Failed>
        ensures within { IfOk result (λ count. count ≤ length into.new) }
        ensures bytes { IfOk result
            (λ count. Gives (to_come self.old) (take count into.new) (to_come self.new)) }
        ensures end { 0 < length into.new → result ≡ Ok 0 → IsAtEnd (to_come self.old) }
        ensures kept { OnErr result (to_come self.new ≡ to_come self.old) }
        ensures taken { taken self.new ≡ taken self.old }
        ensures failed { OnErr result (Rose (faults self.old) (faults self.new)) }
        ensures counts { faults self.old ≤ faults self.new };

    /// Takes bytes from the start of `piece`, and returns their number: at least 1, unless the piece is empty.
    fn write(&mut self, piece: &[u8]) -> Result<usize, Failed>
        ensures within { IfOk result (λ count. count ≤ length piece.now) }
        ensures some { 0 < length piece.now → IfOk result (λ count. 0 < count) }
        ensures bytes { IfOk result
            (λ count. Takes (taken self.old) (take count piece.now) (taken self.new)) }
        ensures kept { OnErr result (taken self.new ≡ taken self.old) }
        ensures to_come { to_come self.new ≡ to_come self.old }
        ensures failed { OnErr result (Rose (faults self.old) (faults self.new)) }
        ensures counts { faults self.old ≤ faults self.new };
}

/// Why nothing was fetched.
#[derive(Debug, Drop, Error)]
pub enum FetchFault {
    /// The fetcher failed. Its count of faults rose, or is at the maximum of a `u64`.
    #[error("the fetch failed")]
    Failed,
    /// The fetcher has no bytes at the location.
    #[error("nothing is held there")]
    Missing,
    /// The bytes at the location are more than the limit.
    #[error("it is too long")]
    TooLong,
    #[error("out of memory")]
    OutOfMemory,
}

/// A fetcher of the bytes at a location.
pub trait Fetcher {
    /// The bytes at each location, where they are observable.
    ghost held: { Self → Option (List ℕ → Option (List ℕ)) };

    /// The number of faults so far, up to the maximum of a `u64`.
    ghost faults: { Self → ℕ };

    /// The bytes at the location, if they are at most `limit`. Otherwise the error is `TooLong`, or `Missing` if there
    /// are none; both are claimed where the contents are observable. The contents do not change.
    fn fetch(&mut self, alloc: Global, location: &str, limit: usize) -> Result<Vec<u8>, FetchFault>
        ensures bytes { IfOk result (λ bytes. HoldsAt (held self.old) location.now bytes.items) }
        ensures within { IfOk result (λ bytes. length bytes.items ≤ limit) }
        ensures missing { IsErrOf result FetchFault.Missing → HoldsNothingAt (held self.old) location.now }
        ensures long { IsErrOf result FetchFault.TooLong → HoldsMoreAt (held self.old) location.now limit }
        ensures failed { IsErrOf result FetchFault.Failed → Rose (faults self.old) (faults self.new) }
        ensures counts { faults self.old ≤ faults self.new }
        ensures held { held self.new ≡ held self.old };
}

/// A listener, which gives one link at a time: a link is given back before the next is accepted. While it is out, it is
/// neither to come nor taken back.
pub trait Listener {
    type Peer: Link;

    /// Whether a link is out.
    ghost is_out: { Self → Bool };

    /// Whether no link is still to come. One may be out.
    ghost is_at_end: { Self → Bool };

    /// The number of links taken back, up to the maximum of a `u64`.
    ghost count: { Self → ℕ };

    /// The links still to come, where they are observable.
    ghost to_come: { Self → Option (List Self.Peer) };

    /// The links taken back, in order, where they are observable.
    ghost taken_back: { Self → Option (List Self.Peer) };

    /// The number of faults so far, up to the maximum of a `u64`.
    ghost faults: { Self → ℕ };

    /// The next link, which is then out, or `None` exactly at the end. A failed call changes only the count of faults,
    /// and only a failed call changes it.
    fn accept(&mut self) -> Result<Option<Self::Peer>, Failed>
        requires { is_out self.old ≡ false }
        ensures end { IfOk result (λ peer. IsNone peer ↔ IsTrue (is_at_end self.old)) }
        ensures link { IfOk result (λ peer. IfSome peer (λ link.
            GivesOne (to_come self.old) link (to_come self.new))) }
        ensures out { is_out self.new ≡ is_some_link result }
        ensures kept { is_out self.new ≡ false → to_come self.new ≡ to_come self.old }
        ensures end_kept { is_out self.new ≡ false → is_at_end self.new ≡ is_at_end self.old }
        ensures taken_back { taken_back self.new ≡ taken_back self.old }
        ensures count { count self.new ≡ count self.old }
        ensures quiet { OnOk result (faults self.new ≡ faults self.old) }
        ensures failed { OnErr result (Rose (faults self.old) (faults self.new)) }
        ensures counts { faults self.old ≤ faults self.new };

    /// Takes the link back. It takes no memory and cannot fail.
    fn finish(&mut self, peer: Self::Peer)
        requires { is_out self.old ≡ true }
        ensures out { is_out self.new ≡ false }
        ensures taken_back { TakesOne (taken_back self.old) peer (taken_back self.new) }
        ensures count { count self.new ≡ next_count (count self.old) }
        ensures to_come { to_come self.new ≡ to_come self.old }
        ensures end { is_at_end self.new ≡ is_at_end self.old }
        ensures faults { faults self.new ≡ faults self.old };

    /// Where the links still to come are observable, the listener is at its end exactly if there is none.
    ghost ends: { (listener : Self) → IfSome (to_come listener)
        (λ links. IsTrue (is_at_end listener) ↔ (links ≡ [])) };
}

/// A ticker, which says when a round of work is due.
pub trait Ticker {
    /// How often `tick` returned true, up to the maximum of a `u64`.
    ghost count: { Self → ℕ };

    /// Whether `tick` returned false.
    ghost has_ended: { Self → Bool };

    /// Waits until a round is due, and returns true. At the end, and from then on, it returns false.
    fn tick(&mut self) -> bool
        ensures count { count self.new ≡ (if result then next_count (count self.old) else count self.old) }
        ensures end { has_ended self.new ≡ not result }
        ensures ended { has_ended self.old ≡ true → result ≡ false };
}

/// A clock.
pub trait Clock {
    /// The moments given so far, in seconds since 1970-01-01T00:00:00, where they are observable.
    ghost given: { Self → Option (List ℤ) };

    fn now(&mut self) -> Moment
        ensures { Draws (given self.old) result (given self.new) };
}

/// A source of nonces. Two nonces may be equal.
pub trait Nonces {
    /// The nonces given so far, where they are observable.
    ghost given: { Self → Option (List ℕ) };

    fn next(&mut self) -> Nonce
        ensures { Draws (given self.old) result.0 (given self.new) };
}

/// What serves one caller after another: the listener that gives their links, and the clock and the nonces for their
/// calls.
#[derive(Drop)]
pub struct Desk<L, C, N> {
    pub listener: L,
    pub clock: C,
    pub nonces: N,
}
