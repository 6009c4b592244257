//! Tests of tags.
ghost use Rattle.std.specs.Prelude.{◌≡◌};
ghost use Rattle.portal_base.specs.Tag.{is_tag_character, has_tag_length, has_tag_characters, is_tag};

use crate::characters::{count_of_characters, is_word_character};

/// Whether the character is allowed in tags.
#[tactic(auto, unfolding(crate::specs::Tag::is_tag_character))]
fn is_tag_character(character: char) -> bool
    ensures { result ≡ is_tag_character character }
{
    matches!(character, ' ' | '-' | '_' | '.') || is_word_character(character)
}

/// Whether the text has 2 to 100 characters (Unicode scalar values).
pub fn has_tag_length(text: &str) -> bool
    ensures { result ≡ has_tag_length text.now }
{
    let count = count_of_characters(text);
    2 <= count && count <= 100
}

/// Whether all characters of the text are allowed in tags.
pub fn has_tag_characters(text: &str) -> bool
    ensures { result ≡ has_tag_characters text.now }
{
    text.chars().all(is_tag_character)
}

/// Whether the text is a tag.
pub fn is_tag(text: &str) -> bool
    ensures { result ≡ is_tag text.now }
{
    has_tag_length(text) && has_tag_characters(text)
}
