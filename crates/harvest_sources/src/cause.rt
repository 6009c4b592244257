//! Why a catalogue or a dataset of it can't be read.
ghost use Rattle.std.specs.Prelude.{◌≡◌, IfOk};
ghost use Rattle.harvest_sources.specs.Causes.{bad_line_text, cause_text};

use portal_base::text::Text;
use std::alloc::{AllocError, Global};

/// Why a catalogue's document, or that of a dataset which the catalogue lists, gives nothing.
#[derive(Clone, Copy, Debug, PartialEq, Eq)]
pub enum Cause {
    /// The document couldn't be fetched.
    ReadFault,
    /// There is no document at the location.
    Missing,
    /// The document has more bytes than are read.
    TooLong,
    /// The number of the document's first line that isn't one of N-Triples.
    NotNTriples(u64),
    /// The document has no catalogue.
    NoCatalog,
    /// The document doesn't describe the dataset.
    NotDescribed,
    /// The dataset has no title.
    NoTitle,
    /// The catalogue lists a lesser IRI whose dataset has the same name.
    SameName,
}

impl Cause {
    /// Its name, and the number of the bad line after a space.
    pub fn text(self, alloc: Global) -> Result<Text, AllocError>
        ensures { IfOk result (λ text. text ≡ cause_text self) }
    {
        match self {
            Cause::ReadFault => Ok(Text::from_static("ReadFault")),
            Cause::Missing => Ok(Text::from_static("Missing")),
            Cause::TooLong => Ok(Text::from_static("TooLong")),
            Cause::NotNTriples(line) => bad_line_text(alloc, line),
            Cause::NoCatalog => Ok(Text::from_static("NoCatalog")),
            Cause::NotDescribed => Ok(Text::from_static("NotDescribed")),
            Cause::NoTitle => Ok(Text::from_static("NoTitle")),
            Cause::SameName => Ok(Text::from_static("SameName")),
        }
    }
}

fn bad_line_text(alloc: Global, line: u64) -> Result<Text, AllocError>
    ensures { IfOk result (λ text. text ≡ bad_line_text line) }
{
    let string = format!(in alloc; "NotNTriples {line}")?;
    Ok(Text::from(string))
}
