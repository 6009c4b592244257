//! Terms and triples that are borrowed.
ghost use Rattle.std.specs.Prelude.{◌≡◌};

use std::marker::Model;

/// A reference to a term or a triple, which contracts see as the term or the triple.
#[derive(Drop)]
pub struct Borrowed<'a, T> {
    value: &'a T,
}

impl<'a, T> Model for Borrowed<'a, T> {
    ghost Value = { T };

    ghost coded = { T.code };

    ghost view = { λ b. b.value.now };
}

impl<'a, T> Borrowed<'a, T> {
    pub fn new(value: &'a T) -> Borrowed<'a, T>
        ensures { result ≡ value.now }
    {
        Borrowed { value }
    }

    /// The term or the triple, for as long as it is borrowed.
    pub fn get(&self) -> &'a T
        ensures { result.now ≡ self.now }
    {
        self.value
    }
}
