//! A source over a borrowed source.
ghost use Rattle.std.specs.Prelude.{◌≡◌};

use crate::outside::{Failed, Source};

/// A source that borrows another one and has its bytes and its count of faults. Reads keep the loan, so after a drop
/// the lender is as the last read left it.
#[derive(Drop)]
pub struct Lent<'a, S: Source> {
    source: &'a mut S,
}

impl<'a, S: Source> Lent<'a, S> {
    pub fn new(source: &'a mut S) -> Lent<'a, S>
        ensures loan { result.source.ghost_name ≡ source.entry.ghost_name }
        ensures same { result.source.now ≡ source.old }
    {
        Lent { source }
    }
}

impl<'a, S: Source> Source for Lent<'a, S> {
    ghost use Rattle.std.specs.Prelude.{Some};

    ghost to_come = { λ l. S.to_come l.source.now };

    ghost faults = { λ l. S.faults l.source.now };

    ghost loan = { λ l. Some l.source.ghost_name };

    fn read(&mut self, into: &mut [u8]) -> Result<usize, Failed> {
        self.source.read(into)
    }
}
