//! Writing a whole piece to a sink, or to a link.
ghost use Rattle.std.specs.Prelude.{◌≡◌, ◌<◌, ◌≤◌, ℕ, List, Option, None, length, take, IfOk, OnOk, OnErr};
ghost use Rattle.portal_base.specs.Outside.{Takes, TakesPrefix, Rose};

use portal_base::outside::{Failed, Link, Sink};

/// A way to write to devices of the type `D`.
pub trait Writer<D> {
    /// The bytes taken so far, where they are observable.
    ghost taken: { D → Option (List ℕ) };

    /// The bytes still to come from the device, where they are observable. No write changes them.
    ghost to_come: { D → Option (List ℕ) };

    /// The number of faults so far, up to the maximum of a `u64`.
    ghost faults: { D → ℕ };

    /// Takes bytes from the start of `piece`, and returns their number: at least 1, unless the piece is empty.
    fn write(output: &mut D, piece: &[u8]) -> Result<usize, Failed>
        ensures within { IfOk result (λ count. count ≤ length piece.now) }
        ensures some { 0 < length piece.now → IfOk result (λ count. 0 < count) }
        ensures bytes { IfOk result
            (λ count. Takes (taken output.old) (take count piece.now) (taken output.new)) }
        ensures kept { OnErr result (taken output.new ≡ taken output.old) }
        ensures to_come { to_come output.new ≡ to_come output.old }
        ensures failed { OnErr result (Rose (faults output.old) (faults output.new)) }
        ensures counts { faults output.old ≤ faults output.new };

    /// Writes the whole piece. After a fault the device has taken some prefix of it.
    fn write_whole(output: &mut D, piece: &[u8]) -> Result<(), Failed>
        ensures ok { OnOk result (Takes (taken output.old) piece.now (taken output.new)) }
        ensures failed { OnErr result (TakesPrefix (taken output.old) piece.now (taken output.new)) }
        ensures to_come { to_come output.new ≡ to_come output.old }
        ensures fault { OnErr result (Rose (faults output.old) (faults output.new)) }
        ensures counts { faults output.old ≤ faults output.new }
    {
        let mut rest = piece;
        while !rest.is_empty() {
            let count = Self::write(output, rest)?;
            rest = &rest[count..];
        }
        Ok(())
    }
}

/// Writes to sinks, from which no bytes come.
pub struct SinkWriter;

impl<O: Sink> Writer<O> for SinkWriter {
    ghost taken = { O.taken };

    ghost to_come = { λ _. None };

    ghost faults = { O.faults };

    fn write(output: &mut O, piece: &[u8]) -> Result<usize, Failed> {
        output.write(piece)
    }
}

/// Writes to links.
pub struct LinkWriter;

impl<K: Link> Writer<K> for LinkWriter {
    ghost taken = { K.taken };

    ghost to_come = { K.to_come };

    ghost faults = { K.faults };

    fn write(output: &mut K, piece: &[u8]) -> Result<usize, Failed> {
        output.write(piece)
    }
}

/// Writes the whole piece. After a fault the sink has taken some prefix of it.
pub fn write_whole<O: Sink>(output: &mut O, piece: &[u8]) -> Result<(), Failed>
    ensures ok { OnOk result (Takes (O.taken output.old) piece.now (O.taken output.new)) }
    ensures failed { OnErr result (TakesPrefix (O.taken output.old) piece.now (O.taken output.new)) }
    ensures fault { OnErr result (Rose (O.faults output.old) (O.faults output.new)) }
    ensures counts { O.faults output.old ≤ O.faults output.new }
{
    SinkWriter::write_whole(output, piece)
}
