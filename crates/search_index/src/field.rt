//! The fields that a query can name.
ghost use Rattle.std.specs.Prelude.{◌≡◌, IfOk};
ghost use Rattle.search_index.specs.Terms.{field_prefix, has_words, term};

use portal_base::text::Text;
use std::alloc::{AllocError, Global};

/// A part of a dataset in which a query looks for words or for a value.
#[derive(Clone, Copy, Debug, Drop, PartialEq, Eq)]
pub enum Field {
    /// All texts that are looked through for words. A query that names no field means this one.
    Anywhere,
    Title,
    Notes,
    Name,
    /// The name of the organization that owns the dataset.
    Organization,
    Tags,
    /// The formats of the resources.
    ResFormat,
}

impl Field {
    /// What its terms begin with. For the fields that a query can name it is the name and the colon of the query.
    pub fn prefix(self) -> &'static str
        ensures { result.now ≡ field_prefix self }
    {
        match self {
            Field::Anywhere => "text:",
            Field::Title => "title:",
            Field::Notes => "notes:",
            Field::Name => "name:",
            Field::Organization => "organization:",
            Field::Tags => "tags:",
            Field::ResFormat => "res_format:",
        }
    }

    /// Whether it is searched by words, and not by whole values.
    pub fn has_words(self) -> bool
        ensures { result ≡ has_words self }
    {
        match self {
            Field::Anywhere | Field::Title | Field::Notes => true,
            Field::Name | Field::Organization | Field::Tags | Field::ResFormat => false,
        }
    }

    /// The term of a word or a value in this field.
    pub fn term(self, alloc: Global, text: &str) -> Result<Text, AllocError>
        ensures { IfOk result (λ found. found ≡ term self text.now) }
    {
        let prefix = self.prefix();
        let mut term = String::with_capacity(alloc, prefix.len() + text.len())?;
        term.push_str(prefix)?;
        term.push_str(text)?;
        Ok(Text::from(term))
    }
}
