//! The buffers of the devices in memory.
ghost use Rattle.std.specs.Prelude.{◌≡◌, ◌++◌, ◌-◌, [], length, take, drop, min, IfOk};

use crate::seq::Seq;
use std::alloc::{AllocError, Global};
use std::marker::Model;

/// Bytes to be read from the start. A contract sees those still to come.
#[derive(Drop)]
pub struct InputBuffer {
    bytes: Seq<u8>,
    position: usize,
}

impl Model for InputBuffer {
    ghost use Rattle.std.specs.Prelude.{◌≤◌, ℕ, List, drop, length};

    ghost Value = { List ℕ };

    ghost view = { λ s. drop s.position s.bytes };

    ghost invariant = { λ s. s.position ≤ length s.bytes };
}

impl InputBuffer {
    pub fn new(bytes: Seq<u8>) -> InputBuffer
        ensures { result ≡ bytes }
    {
        InputBuffer { bytes, position: 0 }
    }

    /// Copies as many bytes as fit, and returns their number.
    pub fn give(&mut self, into: &mut [u8]) -> usize
        ensures count { result ≡ min (length into.old) (length self.old) }
        ensures bytes { into.new ≡ take result self.old ++ drop result into.old }
        ensures rest { self.new ≡ drop (length into.old) self.old }
    {
        let rest = &self.bytes.as_slice()[self.position..];
        let count = rest.len().min(into.len());
        into[..count].copy_from_slice(&rest[..count]);
        self.position += count;
        count
    }
}

/// Room for a fixed number of bytes. A contract sees the bytes taken and the number of bytes that still fit.
#[derive(Drop)]
pub struct OutputBuffer {
    bytes: Vec<u8>,
    count: usize,
}

impl Model for OutputBuffer {
    ghost use Rattle.std.specs.Prelude.{◌≤◌, ◌-◌, take, length};
    ghost use Rattle.portal_base.specs.Memory.{BufferState};

    ghost Value = { BufferState };

    ghost view = { λ b. record { taken = take b.count b.bytes.items; room = length b.bytes.items - b.count } };

    ghost invariant = { λ b. b.count ≤ length b.bytes.items };
}

impl OutputBuffer {
    pub fn new(alloc: Global, room: usize) -> Result<OutputBuffer, AllocError>
        ensures { IfOk result (λ output. output ≡ record { taken = []; room = room }) }
    {
        let bytes = vec![in alloc; 0; room]?;
        Ok(OutputBuffer { bytes, count: 0 })
    }

    /// The number of bytes that still fit.
    pub fn room(&self) -> usize
        ensures { result ≡ self.now.room }
    {
        self.bytes.len() - self.count
    }

    /// Takes as many bytes as fit, and returns their number.
    pub fn take(&mut self, piece: &[u8]) -> usize
        ensures count { result ≡ min self.old.room (length piece.now) }
        ensures taken { self.new.taken ≡ self.old.taken ++ take self.old.room piece.now }
        ensures room { self.new.room ≡ self.old.room - length piece.now }
    {
        let count = self.room().min(piece.len());
        let end = self.count + count;
        self.bytes[self.count..end].copy_from_slice(&piece[..count]);
        self.count = end;
        count
    }

    /// The bytes taken so far.
    pub fn taken(&self) -> &[u8]
        ensures { result.now ≡ self.now.taken }
    {
        &self.bytes[..self.count]
    }
}
