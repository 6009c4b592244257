//! Cuts a query's text into the texts of its items. Texts are slices of characters here.
ghost use Rattle.std.specs.Prelude.{◌≡◌, ◌≤◌, ◌<◌, IsTrue, length, nat_eq, position};
ghost use Rattle.std.specs.List.{position_or_len, starts_with};
ghost use Rattle.search_index.specs.Cut.{after_first, after_item, after_sign, begins_with, first_item, from, is_mark};
ghost use Rattle.search_index.specs.Cut.{is_nonblank, named_field, opens_quote, until, value_text};
ghost use Rattle.search_index.specs.Terms.{field_prefix};

use crate::field::Field;

/// The fields that a query can name.
const NAMED_FIELDS: [Field; 6] = [
    Field::Name,
    Field::Title,
    Field::Notes,
    Field::Tags,
    Field::Organization,
    Field::ResFormat,
];

/// A kind of characters at which a part of a text ends.
#[derive(Clone, Copy, Debug, Drop, PartialEq, Eq)]
pub(crate) enum Mark {
    /// White space (Unicode's White_Space).
    Blank,
    /// Any other than white space.
    Nonblank,
    /// A double quote.
    Quote,
}

impl Mark {
    fn is_at(self, character: char) -> bool
        ensures { result ≡ is_mark self character }
    {
        match self {
            Mark::Blank => character.is_whitespace(),
            Mark::Nonblank => !character.is_whitespace(),
            Mark::Quote => character == '"',
        }
    }

    /// The index of the first such character.
    fn position_in(self, text: &[char]) -> Option<usize>
        ensures { result ≡ position (is_mark self) text.now }
    {
        text.iter().position(|character| self.is_at(*character))
    }

    /// The index of the first such character, or the length of the text.
    #[tactic(auto, using(crate::proofs::CutLemmas::position_or_len_is, crate::proofs::CutLemmas::position_within))]
    fn index_in(self, text: &[char]) -> usize
        ensures index { result ≡ position_or_len (is_mark self) text.now }
        ensures within { result ≤ length text.now }
    {
        self.position_in(text).unwrap_or(text.len())
    }

    /// The text before the first such character, or all of it.
    #[tactic(auto, using(crate::proofs::CutLemmas::until_by_position))]
    pub(crate) fn until(self, text: &[char]) -> &[char]
        ensures { result.now ≡ until (is_mark self) text.now }
    {
        &text[..self.index_in(text)]
    }

    /// The text from the first such character on.
    #[tactic(auto, using(crate::proofs::CutLemmas::from_by_position))]
    pub(crate) fn from(self, text: &[char]) -> &[char]
        ensures { result.now ≡ from (is_mark self) text.now }
    {
        &text[self.index_in(text)..]
    }
}

/// The text without its first character.
pub(crate) fn after_first(text: &[char]) -> &[char]
    ensures { result.now ≡ after_first text.now }
{
    match text {
        [_, rest @ ..] => rest,
        [] => text,
    }
}

/// The text after the sign that it may begin with.
pub(crate) fn after_sign(text: &[char]) -> &[char]
    ensures { result.now ≡ after_sign text.now }
{
    match text {
        ['+' | '-', rest @ ..] => rest,
        _ => text,
    }
}

/// Whether the text begins with the field's name and a colon.
fn begins_with_field(text: &[char], field: Field) -> bool
    ensures { result ≡ starts_with nat_eq text.now (field_prefix field) }
{
    let mut rest = text;
    for byte in field.prefix().as_bytes() {
        match rest {
            [character, after @ ..] if *character == *byte as char => rest = after,
            _ => return false,
        }
    }
    true
}

/// The field whose name and colon the text begins with.
pub(crate) fn named_field(text: &[char]) -> Option<Field>
    ensures { result ≡ named_field text.now }
{
    NAMED_FIELDS
        .iter()
        .copied()
        .find(|field| begins_with_field(text, *field))
}

/// The text after the field's name and colon, if it begins with these.
#[tactic(auto, using(crate::proofs::CutLemmas::field_within))]
pub(crate) fn value_text(text: &[char]) -> &[char]
    ensures { result.now ≡ value_text text.now }
{
    match named_field(text) {
        Some(field) => &text[field.prefix().len()..],
        None => text,
    }
}

/// Whether the text begins with a field, and its value with a double quote.
pub(crate) fn opens_quote(text: &[char]) -> bool
    ensures { result ≡ opens_quote text.now }
{
    named_field(text).is_some() && matches!(value_text(text), ['"', ..])
}

/// The text after the first item, which begins at the text's first character.
fn after_item(text: &[char]) -> &[char]
    ensures { result.now ≡ after_item text.now }
{
    let body = after_sign(text);
    if opens_quote(body) {
        after_first(Mark::Quote.from(after_first(value_text(body))))
    } else {
        Mark::Blank.from(body)
    }
}

/// The first item, and the text after it. The text begins with a character other than white space.
#[tactic(auto, using(crate::proofs::GrammarLemmas::after_item_shorter))]
pub(crate) fn split_item(text: &[char]) -> (&[char], &[char])
    requires { IsTrue (begins_with is_nonblank text.now) }
    ensures item { result.0.now ≡ first_item text.now }
    ensures rest { result.1.now ≡ after_item text.now }
    ensures shorter { length result.1.now < length text.now }
{
    let rest = after_item(text);
    (&text[..text.len() - rest.len()], rest)
}
