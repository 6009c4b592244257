//! Parses the texts of date-times (Table Schema v1, "datetime").
ghost use Rattle.std.specs.Prelude.{◌≡◌};
ghost use Rattle.table_schema.specs.Stamp.{stamp_reading, zoned_moment, is_zone, is_time_designator};

use portal_base::moment::Moment;

/// The moment of a date, `T` or a space, a time of day, and `Z` or nothing. Returns none for other texts.
pub(crate) fn stamp_of(text: &[u8]) -> Option<Moment>
    ensures { result ≡ stamp_reading text.now }
{
    if text.len() < 19 || !is_time_designator(text[10]) {
        return None;
    }
    zoned_moment(&text[..10], &text[11..])
}

// The moment of a date and of a time of day that `Z` or nothing follows.
fn zoned_moment(date: &[u8], time: &[u8]) -> Option<Moment>
    ensures { result ≡ zoned_moment date.now time.now }
{
    if time.len() < 8 {
        return None;
    }
    if is_zone(&time[8..]) {
        Moment::at(date, &time[..8])
    } else {
        None
    }
}

fn is_zone(text: &[u8]) -> bool
    ensures { result ≡ is_zone text.now }
{
    match text {
        [] => true,
        [only] => *only == b'Z',
        _ => false,
    }
}

fn is_time_designator(byte: u8) -> bool
    ensures { result ≡ is_time_designator byte }
{
    byte == b'T' || byte == b' '
}
