//! Strings that contracts see as the lists of their bytes.
ghost use Rattle.std.specs.Prelude.{◌≡◌, ◌↔◌, [], IsTrue, IfOk, length, Some, nat_eq, refl};
ghost use Rattle.std.specs.Ordering.{nat_cmp};
ghost use Rattle.std.specs.Cmp.{partial_equiv_from_equiv};
ghost use Rattle.std.specs.Cmp.Lexicographic.{pointwise, slice_cmp, nat_list_eq_equiv, nat_list_cmp_total};
ghost use Rattle.std.specs.Cmp.Lexicographic.{texts_ties, texts_po};

use crate::copy::TryClone;
use std::alloc::{AllocError, Global};
use std::cmp::Ordering;
use std::marker::Model;

/// A UTF-8 string. It owns its bytes, or they are in the program. A contract sees it as the list of its bytes.
#[derive(Debug)]
pub struct Text {
    bytes: Bytes,
}

/// The bytes of a text.
#[derive(Debug, Drop)]
enum Bytes {
    /// On the heap.
    Owned(String),
    /// In the program.
    Static(&'static str),
}

impl Model for Text {
    ghost use Rattle.std.specs.Prelude.{ℕ, List};

    ghost Value = { List ℕ };

    ghost use Rattle.portal_base.specs.Text.{text_bytes};

    ghost view = { λ t. text_bytes t.bytes };
}

// Written by hand, so that the proof of a function that drops a text has one step and not a case for each variant.
impl Drop for Text {
    fn drop(self) {
        let Self { bytes: _bytes } = self;
    }
}

impl Text {
    /// The empty text. It takes no memory.
    pub fn new(_alloc: Global) -> Text
        ensures { result ≡ [] }
    {
        Text::from_static("")
    }

    /// A text whose bytes are in the program. Neither it nor a copy of it takes memory.
    pub fn from_static(text: &'static str) -> Text
        ensures { result ≡ text.now }
    {
        Text {
            bytes: Bytes::Static(text),
        }
    }

    /// A copy of `text`, or `AllocError` if memory runs out.
    pub fn from_str(alloc: Global, text: &str) -> Result<Text, AllocError>
        ensures { IfOk result (λ t. t ≡ text.now) }
    {
        let string = String::from_str(alloc, text)?;
        Ok(Text {
            bytes: Bytes::Owned(string),
        })
    }

    pub fn as_str(&self) -> &str
        ensures { result.now ≡ self.now }
    {
        match &self.bytes {
            Bytes::Owned(string) => string.as_str(),
            Bytes::Static(text) => text,
        }
    }

    pub fn as_bytes(&self) -> &[u8]
        ensures { result.now ≡ self.now }
    {
        self.as_str().as_bytes()
    }

    /// The number of bytes.
    pub fn len(&self) -> usize
        ensures { result ≡ length self.now }
    {
        self.as_str().len()
    }

    pub fn is_empty(&self) -> bool
        ensures { IsTrue result ↔ (self.now ≡ []) }
    {
        self.as_str().is_empty()
    }
}

impl TryClone for Text {
    fn try_clone(&self, alloc: Global) -> Result<Text, AllocError> {
        match &self.bytes {
            Bytes::Owned(string) => Text::from_str(alloc, string.as_str()),
            Bytes::Static(text) => Ok(Text::from_static(text)),
        }
    }
}

impl From<String> for Text {
    ghost use Rattle.std.specs.Prelude.{string_bytes};

    ghost from_gives = { λ s t. t ≡ string_bytes s };

    fn from(string: String) -> Text {
        Text {
            bytes: Bytes::Owned(string),
        }
    }
}

impl PartialEq for Text {
    ghost eq = { pointwise nat_eq };

    ghost laws = { partial_equiv_from_equiv nat_list_eq_equiv };

    fn eq(&self, other: &Text) -> bool {
        self.as_str() == other.as_str()
    }
}

impl Eq for Text {
    ghost laws = { nat_list_eq_equiv };
}

impl PartialOrd for Text {
    ghost partial_cmp = { λ x y. Some (slice_cmp nat_cmp x y) };

    ghost laws = { texts_po };

    fn partial_cmp(&self, other: &Text) -> Option<Ordering> {
        Some(self.cmp(other))
    }
}

impl Ord for Text {
    ghost cmp = { slice_cmp nat_cmp };

    ghost total = { nat_list_cmp_total };

    ghost matches_partial_cmp = { λ x y. refl };

    ghost matches_eq = { texts_ties };

    fn cmp(&self, other: &Text) -> Ordering {
        self.as_str().cmp(other.as_str())
    }
}
