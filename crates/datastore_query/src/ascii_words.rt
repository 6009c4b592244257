//! Words of ASCII texts. They are found and compared as bytes, without copies.
ghost use Rattle.std.specs.Prelude.{◌≡◌, IsAscii, map};
ghost use Rattle.std.specs.Char.{to_ascii_lowercase};
ghost use Rattle.std.specs.Str.{bytes_eq};
ghost use Rattle.portal_base.specs.Tokens.{tokens};
ghost use Rattle.datastore_query.specs.AsciiWords.{is_between_ascii_words, is_token_of, starts_with_digit};
ghost use Rattle.datastore_query.specs.Words.{has_word};

// Whether the bytes in lower case are those of the token.
fn is_in_lowercase(bytes: &[u8], token: &[u8]) -> bool
    ensures { result ≡ bytes_eq (map to_ascii_lowercase bytes.now) token.now }
{
    if bytes.len() != token.len() {
        return false;
    }
    for index in 0..bytes.len() {
        if bytes[index].to_ascii_lowercase() != token[index] {
            return false;
        }
    }
    true
}

// Whether a word of an ASCII text, or nothing between two separators, has this token.
fn is_token_of(token: &[u8], word: &[u8]) -> bool
    ensures { result ≡ is_token_of token.now word.now }
{
    !word.is_empty() && is_in_lowercase(word, token)
}

/// Whether an ASCII text has this token.
pub(crate) fn has_ascii_token(text: &[u8], token: &[u8]) -> bool
    requires { IsAscii text.now }
    ensures { result ≡ has_word (tokens text.now) token.now }
{
    text.split(
        |byte: &u8| -> bool
            ensures { result ≡ is_between_ascii_words byte.now }
        { !byte.is_ascii_alphanumeric() },
    )
    .any(|word| is_token_of(token, word))
}

/// Whether the token begins with a digit, as each token of a whole number does.
pub(crate) fn starts_with_digit(token: &[u8]) -> bool
    ensures { result ≡ starts_with_digit token.now }
{
    match token.first() {
        Some(byte) => byte.is_ascii_digit(),
        None => false,
    }
}
