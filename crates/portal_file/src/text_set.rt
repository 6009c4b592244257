//! Lists whose items are told apart by a text, compared through a set of these texts.
ghost use Rattle.std.specs.Prelude.{◌≡◌, ◌||◌, ℕ, List, not, false, IfOk, OnOk};
ghost use Rattle.std.specs.HashSet.{contains_text};
ghost use Rattle.std.specs.Str.{bytes_eq};
ghost use Rattle.portal_file.specs.Keyed.{are_distinct, is_key_among};

use std::alloc::{AllocError, Global};
use std::collections::HashSet;

/// An item with a text by which a list has it once.
pub(crate) trait Keyed {
    ghost key: { Self → List ℕ };

    fn key(&self) -> &str
        ensures { result.now ≡ key self.now };
}

/// Adds a text, and returns whether it is new.
fn add(alloc: Global, texts: &mut HashSet<String>, text: &str) -> Result<bool, AllocError>
    ensures new { IfOk result (λ new. new ≡ not (contains_text texts.old text.now)) }
    ensures texts { OnOk result ((q : List ℕ) → contains_text texts.new q
        ≡ bytes_eq text.now q || contains_text texts.old q) }
{
    let text = String::from_str(alloc, text)?;
    Ok(texts.insert(text)?)
}

/// The keys of the items.
pub(crate) fn keys_of<T: Keyed>(alloc: Global, items: &[T]) -> Result<HashSet<String>, AllocError>
    ensures { IfOk result (λ keys. (q : List ℕ) → contains_text keys q ≡ is_key_among T.key items.now q) }
{
    let mut keys = HashSet::new(alloc);
    let mut rest = items;
    while let Some((last, front)) = rest.split_last() {
        add(alloc, &mut keys, last.key())?;
        rest = front;
    }
    Ok(keys)
}

/// Whether no two of the items have the same key. It takes time in proportion to their number.
pub(crate) fn are_distinct<T: Keyed>(alloc: Global, items: &[T]) -> Result<bool, AllocError>
    ensures { IfOk result (λ distinct. distinct ≡ are_distinct T.key items.now) }
{
    let mut later = HashSet::new(alloc);
    let mut rest = items;
    while let Some((last, front)) = rest.split_last() {
        if !add(alloc, &mut later, last.key())? {
            return Ok(false);
        }
        rest = front;
    }
    Ok(true)
}
