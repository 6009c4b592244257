//! Counts and tests of the characters of texts.
ghost use Rattle.std.specs.Prelude.{◌≡◌, length};
ghost use Rattle.std.specs.Char.{is_ascii_digit};
ghost use Rattle.std.specs.List.{list_all};
ghost use Rattle.std.specs.Str.{chars};
ghost use Rattle.portal_base.specs.Characters.{is_word_category, is_word_character};

use unicode::properties::GeneralCategory;

/// The number of Unicode scalar values in the text.
pub fn count_of_characters(text: &str) -> usize
    ensures { result ≡ length (chars text.now) }
{
    text.chars().count()
}

/// Whether each byte is an ASCII digit. It is true of no bytes.
pub fn has_only_digits(bytes: &[u8]) -> bool
    ensures { result ≡ list_all is_ascii_digit bytes.now }
{
    bytes.iter().all(|byte| byte.is_ascii_digit())
}

/// Whether the character is a letter, a mark or a number by its general category (Unicode, section 4.5).
#[tactic(auto, unfolding(crate::specs::Characters::is_word_character))]
pub fn is_word_character(character: char) -> bool
    ensures { result ≡ is_word_character character }
{
    is_word_category(GeneralCategory::for_char(character))
}

/// Whether the category is one of letters, marks or numbers.
fn is_word_category(category: GeneralCategory) -> bool
    ensures { result ≡ is_word_category category }
{
    matches!(
        category,
        GeneralCategory::UppercaseLetter
            | GeneralCategory::LowercaseLetter
            | GeneralCategory::TitlecaseLetter
            | GeneralCategory::ModifierLetter
            | GeneralCategory::OtherLetter
            | GeneralCategory::NonspacingMark
            | GeneralCategory::SpacingMark
            | GeneralCategory::EnclosingMark
            | GeneralCategory::DecimalNumber
            | GeneralCategory::LetterNumber
            | GeneralCategory::OtherNumber
    )
}
