//! The texts that a descriptor lists (Table Schema v1, "missingValues", "boolean").
ghost use Rattle.std.specs.Prelude.{◌≡◌, [], IfOk, length, slice_index_or};
ghost use Rattle.std.specs.Ordering.{nat_cmp};
ghost use Rattle.std.specs.Cmp.Lexicographic.{slice_cmp};
ghost use Rattle.table_schema.specs.Index.{AreBelow, IsIndex};
ghost use Rattle.table_schema.specs.Truth.{is_among};

use crate::index::indices_below;
use portal_base::seq::Seq;
use portal_base::text::Text;
use std::alloc::{AllocError, Global};
use std::cmp::Ordering;
use std::marker::Model;

/// A list of texts that are found by halving. A contract sees it as the list in its own order.
#[derive(Drop)]
pub struct ListedTexts {
    texts: Seq<Text>,
    /// The indices of the texts, in an order in which the texts ascend by their bytes.
    indices: Vec<usize>,
}

impl Model for ListedTexts {
    ghost use Rattle.std.specs.Prelude.{ℕ, List, []};
    ghost use Rattle.std.specs.Ordering.{nat_cmp};
    ghost use Rattle.std.specs.Cmp.Lexicographic.{slice_cmp};
    ghost use Rattle.table_schema.specs.Index.{IsIndex};

    ghost Value = { List (List ℕ) };

    ghost view = { λ listed. listed.texts };

    ghost invariant = { λ listed. IsIndex (slice_cmp nat_cmp) [] listed.texts listed.indices.items };
}

impl ListedTexts {
    /// A list of these texts.
    pub(crate) fn of_texts(alloc: Global, texts: Seq<Text>) -> Result<ListedTexts, AllocError>
        ensures { IfOk result (λ listed. listed ≡ texts) }
    {
        let mut indices = indices_below(alloc, texts.len())?;
        sort_indices(texts.as_slice(), indices.as_mut_slice());
        Ok(ListedTexts { texts, indices })
    }

    /// Whether the list has the text.
    pub fn has(&self, text: &str) -> bool
        ensures { result ≡ is_among self.now text.now }
    {
        let texts = self.texts.as_slice();
        self.indices
            .as_slice()
            .binary_search_by(|index| order_at(texts, *index, text))
            .is_ok()
    }

    /// The texts in their own order.
    pub fn as_slice(&self) -> &[Text]
        ensures { result.now ≡ self.now }
    {
        self.texts.as_slice()
    }
}

// Sorts the indices so that the texts ascend.
fn sort_indices(texts: &[Text], indices: &mut [usize])
    requires { AreBelow (length texts.now) indices.old }
    ensures { IsIndex (slice_cmp nat_cmp) [] texts.now indices.new }
{
    indices.sort_unstable_by(|one, other| order_at(texts, *one, text_at(texts, *other)));
}

// Compares the text at the index with another text. Past the end it is the empty text.
fn order_at(texts: &[Text], index: usize, text: &str) -> Ordering
    ensures { result ≡ slice_cmp nat_cmp (slice_index_or texts.now index []) text.now }
{
    text_at(texts, index).cmp(text)
}

// The text at the index, or the empty text past the end.
fn text_at(texts: &[Text], index: usize) -> &str
    ensures { result.now ≡ slice_index_or texts.now index [] }
{
    match texts.get(index) {
        Some(text) => text.as_str(),
        None => "",
    }
}
