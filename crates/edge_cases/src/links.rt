//! Links of cases.
use cases::Buffer;
use portal_base::memory::MemoryLink;
use portal_base::outside::{Failed, Link};
use portal_base::seq::Seq;
use std::alloc::{AllocError, Global};

/// The mark for the filler in the bytes of a case.
const MARK: u8 = b'$';

/// The bytes, with that number of letters in place of each mark.
pub fn filled(alloc: Global, count: usize, bytes: &[u8]) -> Buffer {
    let mut full = Buffer::new(alloc);
    for byte in bytes {
        if *byte == MARK {
            full.push_times("a", count);
        } else {
            full.push_bytes(&[*byte]);
        }
    }
    full
}

/// A link in memory with these bytes and room for that many.
pub fn link_of(alloc: Global, bytes: &[u8], room: usize) -> Result<MemoryLink, AllocError> {
    let bytes = Seq::from(bytes.to_vec(alloc)?);
    MemoryLink::new(alloc, bytes, room, Seq::new(alloc))
}

/// The same, which fails at the call with this number.
pub fn failing_link(
    alloc: Global,
    bytes: &[u8],
    room: usize,
    failing: u64,
) -> Result<MemoryLink, AllocError> {
    let bytes = Seq::from(bytes.to_vec(alloc)?);
    let failing = Seq::from(vec![in alloc; failing]?);
    MemoryLink::new(alloc, bytes, room, failing)
}

/// A link that gives and takes one byte at a time.
#[derive(Drop)]
pub struct OneByOne {
    pub inner: MemoryLink,
}

impl Link for OneByOne {
    ghost use Rattle.std.specs.Prelude.{None};

    ghost to_come = { λ _. None };

    ghost taken = { λ _. None };

    ghost faults = { λ l. l.inner.plan.faults };

    fn read(&mut self, into: &mut [u8]) -> Result<usize, Failed> {
        if into.is_empty() {
            return Ok(0);
        }
        self.inner.read(&mut into[..1])
    }

    fn write(&mut self, piece: &[u8]) -> Result<usize, Failed> {
        if piece.is_empty() {
            return Ok(0);
        }
        self.inner.write(&piece[..1])
    }
}
