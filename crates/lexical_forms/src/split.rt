//! Splits the first or the last character off a text.
ghost use Rattle.std.specs.Prelude.{◌≡◌, ◌∷◌, ◌++◌, [], IfNone, IfSome};
ghost use Rattle.std.specs.Str.{chars};

/// The first character and the text after it, or none for the empty text.
pub(crate) fn split_first(text: &str) -> Option<(char, &str)>
    ensures none { IfNone result (chars text.now ≡ []) }
    ensures some { IfSome result (λ found. chars text.now ≡ found.0 ∷ chars found.1.now) }
{
    let mut characters = text.chars();
    let character = characters.next()?;
    Some((character, characters.as_str()))
}

/// The text before the last character and that character, or none for the empty text.
pub(crate) fn split_last(text: &str) -> Option<(&str, char)>
    ensures none { IfNone result (chars text.now ≡ []) }
    ensures some { IfSome result (λ found. chars text.now ≡ chars found.0.now ++ found.1 ∷ []) }
{
    let mut characters = text.chars();
    let character = characters.next_back()?;
    Some((characters.as_str(), character))
}
