//! Finds the ends of records in bytes.
ghost use Rattle.std.specs.Prelude.{◌≡◌};
ghost use Rattle.typed_csv.specs.Positions.{IsLastStart, is_start, next_position, position_after};

/// A position in a record, between two bytes.
#[derive(Clone, Copy, Debug, PartialEq, Eq)]
pub(crate) enum Position {
    /// Between two records.
    RecordStart,
    /// After a comma.
    FieldStart,
    /// In a field without quotes, or after the quotes of a field.
    Unquoted,
    /// In quotes.
    Quoted,
    /// After a quote inside quotes. The quote ends them or is the first one of two.
    AfterQuote,
}

impl Position {
    // The position after the byte.
    fn after(self, byte: u8) -> Position
        ensures { result ≡ next_position self byte }
    {
        match (self, byte) {
            (Position::Quoted, b'"') => Position::AfterQuote,
            (Position::Quoted, _) => Position::Quoted,
            (Position::RecordStart | Position::FieldStart | Position::AfterQuote, b'"') =>
                Position::Quoted,
            (_, b',') => Position::FieldStart,
            (_, b'\r' | b'\n') => Position::RecordStart,
            _ => Position::Unquoted,
        }
    }

    // Whether it is between two records.
    fn is_start(self) -> bool
        ensures { result ≡ is_start self }
    {
        matches!(self, Position::RecordStart)
    }
}

/// The result of a scan.
#[derive(Clone, Copy, Debug, PartialEq, Eq)]
pub(crate) struct Scanned {
    /// The position after the bytes.
    pub(crate) position: Position,
    /// The count of bytes up to the last end of a record, if a record ends in them.
    pub(crate) records_end: Option<usize>,
}

/// Scans the bytes after `position`.
pub(crate) fn scan(position: Position, bytes: &[u8]) -> Scanned
    ensures position { result.position ≡ position_after position bytes.now }
    ensures records_end { IsLastStart position bytes.now result.records_end }
{
    let mut position = position;
    let mut records_end = None;
    for (index, byte) in bytes.iter().enumerate() {
        position = position.after(*byte);
        if position.is_start() {
            records_end = Some(index + 1);
        }
    }
    Scanned {
        position,
        records_end,
    }
}
