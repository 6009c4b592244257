//! Writing pieces to a link, one after another.
ghost use Rattle.std.specs.Prelude.{◌≡◌, ◌≤◌, ◌++◌, OnOk, OnErr};
ghost use Rattle.portal_base.specs.Outside.{Takes, TakesPrefix, Rose};

use portal_base::outside::{Failed, Link};
use portal_lines::write::{LinkWriter, Writer};

/// Writes the two pieces. After a fault the link has taken some bytes from their front.
#[tactic(auto, using(crate::proofs::PieceLemmas::takes_first, crate::proofs::PieceLemmas::takes_second, crate::proofs::PieceLemmas::takes_both))]
pub fn write_two<K: Link>(link: &mut K, first: &[u8], second: &[u8]) -> Result<(), Failed>
    ensures ok { OnOk result (Takes (K.taken link.old) (first.now ++ second.now) (K.taken link.new)) }
    ensures failed { OnErr result (TakesPrefix (K.taken link.old) (first.now ++ second.now) (K.taken link.new)) }
    ensures to_come { K.to_come link.new ≡ K.to_come link.old }
    ensures fault { OnErr result (Rose (K.faults link.old) (K.faults link.new)) }
    ensures counts { K.faults link.old ≤ K.faults link.new }
{
    LinkWriter::write_whole(link, first)?;
    LinkWriter::write_whole(link, second)?;
    Ok(())
}

/// Writes the four pieces. After a fault the link has taken some bytes from their front.
#[tactic(auto, using(crate::proofs::PieceLemmas::takes_first, crate::proofs::PieceLemmas::takes_second, crate::proofs::PieceLemmas::takes_both))]
pub fn write_four<K: Link>(
    link: &mut K,
    first: &[u8],
    second: &[u8],
    third: &[u8],
    fourth: &[u8],
) -> Result<(), Failed>
    ensures ok { OnOk result (Takes (K.taken link.old)
        ((first.now ++ second.now) ++ (third.now ++ fourth.now)) (K.taken link.new)) }
    ensures failed { OnErr result (TakesPrefix (K.taken link.old)
        ((first.now ++ second.now) ++ (third.now ++ fourth.now)) (K.taken link.new)) }
    ensures to_come { K.to_come link.new ≡ K.to_come link.old }
    ensures fault { OnErr result (Rose (K.faults link.old) (K.faults link.new)) }
    ensures counts { K.faults link.old ≤ K.faults link.new }
{
    write_two(link, first, second)?;
    write_two(link, third, fourth)?;
    Ok(())
}

/// Writes the five pieces. The link has then taken all of them, or, after a fault, some bytes from their front.
#[tactic(auto, using(crate::proofs::PieceLemmas::takes_first, crate::proofs::PieceLemmas::takes_second, crate::proofs::PieceLemmas::takes_both))]
pub fn write_five<K: Link>(
    link: &mut K,
    first: &[u8],
    second: &[u8],
    third: &[u8],
    fourth: &[u8],
    fifth: &[u8],
) -> Result<(), Failed>
    ensures ok { OnOk result (Takes (K.taken link.old)
        (((first.now ++ second.now) ++ (third.now ++ fourth.now)) ++ fifth.now) (K.taken link.new)) }
    ensures failed { OnErr result (TakesPrefix (K.taken link.old)
        (((first.now ++ second.now) ++ (third.now ++ fourth.now)) ++ fifth.now) (K.taken link.new)) }
    ensures to_come { K.to_come link.new ≡ K.to_come link.old }
    ensures fault { OnErr result (Rose (K.faults link.old) (K.faults link.new)) }
    ensures counts { K.faults link.old ≤ K.faults link.new }
{
    write_four(link, first, second, third, fourth)?;
    LinkWriter::write_whole(link, fifth)?;
    Ok(())
}
