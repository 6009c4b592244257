//! The direction of a sort, and the word for it at the end of a text.
ghost use Rattle.std.specs.Prelude.{◌≡◌, option_copied};
ghost use Rattle.sorted_pages.specs.Direction.{directed, without_word};

/// The direction of a sort.
#[derive(Clone, Copy, Debug, Drop, PartialEq, Eq)]
pub enum Direction {
    Ascending,
    Descending,
}

// The text before this word, if the text ends with white space and the word. The white space is trimmed.
fn without_word<'a>(text: &'a str, word: &str) -> Option<&'a str>
    ensures { option_copied result ≡ without_word word.now text.now }
{
    let front = text.strip_suffix(word)?;
    let name = front.trim_end();
    if name.len() < front.len() {
        Some(name)
    } else {
        None
    }
}

/// The text without the direction at its end, and the direction, which is ascending by default.
pub fn directed(text: &str) -> (&str, Direction)
    ensures text { result.0.now ≡ (directed text.now).name }
    ensures direction { result.1 ≡ (directed text.now).direction }
{
    if let Some(name) = without_word(text, "desc") {
        return (name, Direction::Descending);
    }
    match without_word(text, "asc") {
        Some(name) => (name, Direction::Ascending),
        None => (text, Direction::Ascending),
    }
}
