//! What the first word of the command line needs, before the words are read.
ghost use Rattle.std.specs.Prelude.{◌≡◌, map, string_bytes};
ghost use Rattle.portal_words.specs.FirstWord.{is_serve, is_timed};

/// Whether the first word is that of a command that works in real time alone.
pub fn is_timed(words: &[String]) -> bool
    ensures { result ≡ is_timed (map string_bytes words.now) }
{
    match words.first() {
        Some(word) => {
            let word = word.as_str();
            word == "load" || word == "harvest" || word == "serve"
        }
        None => false,
    }
}

/// Whether the first word is `serve`, which listens.
pub fn is_serve(words: &[String]) -> bool
    ensures { result ≡ is_serve (map string_bytes words.now) }
{
    match words.first() {
        Some(word) => word.as_str() == "serve",
        None => false,
    }
}
