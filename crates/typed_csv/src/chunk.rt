//! Reads the records of bytes in memory.
ghost use Rattle.std.specs.Prelude.{◌≡◌, List, ℕ, [], ◌∷◌, true, false, Ok, IfOk};
ghost use Rattle.csv.specs.Reading.{default_config, records};
ghost use Rattle.csv.specs.Records.{fields_of};
ghost use Rattle.typed_csv.specs.Records.{is_text};

use csv::{ErrorKind, Reader, ReaderBuilder, StringRecord};
use std::alloc::{AllocError, Global};
use std::io::Cursor;
use std::marker::Model;

/// The result of reading a record.
#[derive(Clone, Copy, Debug, PartialEq, Eq)]
pub(crate) enum Next {
    /// A record, whose fields are UTF-8.
    Record,
    /// A record with a field that isn't UTF-8.
    NotText,
    /// No record is left.
    End,
}

/// Complete records in memory. Contracts see the list of the records that are left.
#[derive(Drop)]
pub(crate) struct Chunk {
    reader: Reader<Cursor<Vec<u8>>>,
}

impl Model for Chunk {
    ghost use Rattle.std.specs.Prelude.{List, ℕ, Some};
    ghost use Rattle.std.specs.Io.Cursor.{cursor_remaining};
    ghost use Rattle.csv.specs.Reading.{reader_state, source_of};
    ghost use Rattle.typed_csv.specs.Chunk.{records_left, IsChunkReader};

    ghost Value = { List (List (List ℕ)) };

    ghost view = { λ c.
        records_left (reader_state c.reader) (source_of (cursor_remaining (λ v. Some v.items)) c.reader) };

    ghost invariant = { λ c. IsChunkReader c.reader };
}

impl Chunk {
    /// The records of these bytes. A byte order mark is a part of the first field.
    pub(crate) fn new(alloc: Global, bytes: &[u8]) -> Result<Chunk, AllocError>
        ensures { IfOk result (λ chunk. chunk ≡ records default_config bytes.now) }
    {
        // `csv` drops a byte order mark only at the start, and an empty line isn't a record: so a line feed comes
        // first.
        let mut text = Vec::with_capacity(alloc, bytes.len().saturating_add(1))?;
        text.push(b'\n')?;
        text.extend_from_slice(bytes)?;
        let reader = ReaderBuilder::new()
            .has_headers(false)
            .flexible(true)
            .from_reader(alloc, Cursor::new(text));
        Ok(Chunk { reader })
    }

    /// Reads the next record into `row`.
    pub(crate) fn next(&mut self, row: &mut StringRecord) -> Result<Next, AllocError>
        ensures took { result ≡ Ok Next.Record → self.old ≡ fields_of row.new ∷ self.new }
        ensures text { result ≡ Ok Next.Record → is_text (fields_of row.new) ≡ true }
        ensures bytes { result ≡ Ok Next.NotText →
            (first : List (List ℕ)) × (rest : List (List (List ℕ))) × (self.old ≡ first ∷ rest)
            × (is_text first ≡ false) }
        ensures end { result ≡ Ok Next.End → self.old ≡ [] }
    {
        match self.reader.read_record(row) {
            Ok(true) => Ok(Next::Record),
            Ok(false) => Ok(Next::End),
            Err(error) => match error.kind() {
                ErrorKind::Utf8 { .. } => Ok(Next::NotText),
                _ => Err(AllocError),
            },
        }
    }
}
