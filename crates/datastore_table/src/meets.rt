//! Whether rows meet a schema.
ghost use Rattle.std.specs.Prelude.{◌≡◌, ◌==◌, ◌&&◌, ◌||◌, true, not, int_le, is_none, length, [], ◌∷◌};
ghost use Rattle.portal_base.specs.Moment.{first_moment, last_moment};
ghost use Rattle.portal_base.specs.Ordered.{IsAscending};
ghost use Rattle.std.specs.List.{list_all, list_any};
ghost use Rattle.lexical_forms.specs.Digits.{is_empty};
ghost use Rattle.lexical_forms.specs.Number.{is_i64};
ghost use Rattle.table_schema.specs.Form.{kind_of};
ghost use Rattle.table_schema.specs.Keys.{same_kind};
ghost use Rattle.table_schema.specs.Reading.{kind_of_cell};
ghost use Rattle.datastore_table.specs.Index.{column_lists_of, is_twice, IsIndexed, IsIndexedAt, IsKeyed};
ghost use Rattle.datastore_table.specs.Index.{IsUniquelyIndexed};
ghost use Rattle.datastore_table.specs.Meets.{are_accepted, are_apart, ascend_from, has_cell_of, has_key_of};
ghost use Rattle.datastore_table.specs.Meets.{is_accepted, keeps_self_reference, is_numbered, is_of_kind, is_value};
ghost use Rattle.datastore_table.specs.Meets.{keys_apart};
ghost use Rattle.datastore_table.specs.Meets.{row_meets, uniques_apart};
ghost use Rattle.datastore_table.specs.References.{is_broken};
ghost use Rattle.datastore_table.specs.Rows.{row_cmp};

use crate::cells::{are_same_between, has_null_at, is_null, is_same_at};
use crate::references::is_broken_among;
use crate::row::Row;
use crate::rows::row_at;
use digest_index::{DigestIndex, Further};
use table_schema::{Cell, Field, Foreign, Kind, Schema};

/// Above the absolute value of every number cell, in billionths.
const NUMBER_LIMIT: i128 = 1_000_000_000_000_000_000_000_000_000;

/// 0000-01-01, as days since 1970-01-01.
const FIRST_DAY: i32 = -719_528;

/// 9999-12-31.
const LAST_DAY: i32 = 2_932_896;

/// 0000-01-01T00:00:00, as seconds since 1970-01-01T00:00:00.
const FIRST_SECOND: i64 = -62_167_219_200;

/// 9999-12-31T23:59:59.
const LAST_SECOND: i64 = 253_402_300_799;

const SECONDS_PER_DAY: u32 = 86_400;

const LAST_YEAR: u16 = 9999;

/// Whether rows that each meet the schema also have distinct keys, distinct unique cells and valid self references.
pub(crate) fn are_related(schema: &Schema, rows: &[Row], index: &DigestIndex<u64>) -> bool
    requires ascending { IsAscending row_cmp rows.now }
    requires met { list_all (row_meets schema.now) rows.now ≡ true }
    requires indexed { IsIndexed (column_lists_of schema.now) rows.now index.now }
    ensures { result ≡ (keys_apart schema.now.key rows.now && (uniques_apart 0 schema.now.fields rows.now
        && list_all (keeps_self_reference schema.now.key rows.now) schema.now.foreign)) }
{
    are_keys_apart(schema, rows, index)
        && are_uniques_apart(schema.fields().as_slice(), rows, index)
        && keeps_self_references(schema, rows, index)
}

/// Whether each row meets the schema.
pub(crate) fn do_all_meet(schema: &Schema, rows: &[Row]) -> bool
    ensures { result ≡ list_all (row_meets schema.now) rows.now }
{
    rows.iter().all(|row| does_row_meet(schema, row))
}

fn does_row_meet(schema: &Schema, row: &Row) -> bool
    ensures { result ≡ row_meets schema.now row.now }
{
    let cells = row.cells.as_slice();
    are_accepted(schema.fields().as_slice(), cells) && !has_null_at(cells, schema.key().as_slice())
}

// Whether there is one cell for each field, and each field accepts its cell.
#[tactic(auto, using(crate::proofs::MeetLemmas::accepted_length))]
fn are_accepted(fields: &[Field], cells: &[Cell]) -> bool
    ensures { result ≡ are_accepted fields.now cells.now }
{
    if fields.len() != cells.len() {
        return false;
    }
    for column in 0..fields.len() {
        if !is_accepted(&fields[column], &cells[column]) {
            return false;
        }
    }
    true
}

fn is_accepted(field: &Field, cell: &Cell) -> bool
    ensures { result ≡ is_accepted field.now cell.now }
{
    if is_null(cell) {
        !field.constraints().required
    } else {
        is_of_kind(field.form().kind(), kind_of_cell(cell))
            && is_value(cell)
            && field.constraints().fault_of(cell).is_none()
    }
}

// Whether a cell of its own kind is of the column's kind. A cell without a kind, which is Null, is not.
fn is_of_kind(kind: Kind, own: Option<Kind>) -> bool
    ensures { result ≡ is_of_kind kind own }
{
    match own {
        Some(own) => is_same_kind(own, kind),
        None => false,
    }
}

fn is_same_kind(one: Kind, other: Kind) -> bool
    ensures { result ≡ same_kind one other }
{
    one == other
}

fn kind_of_cell(cell: &Cell) -> Option<Kind>
    ensures { result ≡ kind_of_cell cell.now }
{
    match cell {
        Cell::Null => None,
        Cell::Text(_) => Some(Kind::Text),
        Cell::Int(_) => Some(Kind::Integer),
        Cell::Number(_) => Some(Kind::Number),
        Cell::Truth(_) => Some(Kind::Boolean),
        Cell::Date(_) => Some(Kind::Date),
        Cell::Time(_) => Some(Kind::Time),
        Cell::Stamp(_) => Some(Kind::Datetime),
        Cell::Year(_) => Some(Kind::Year),
        Cell::YearMonth(_, _) => Some(Kind::YearMonth),
    }
}

// Whether the cell is within the range of its type.
fn is_value(cell: &Cell) -> bool
    ensures { result ≡ is_value cell.now }
{
    match cell {
        Cell::Int(number) => is_whole(*number),
        Cell::Number(billionths) => -NUMBER_LIMIT < *billionths && *billionths < NUMBER_LIMIT,
        Cell::Date(day) => FIRST_DAY <= *day && *day <= LAST_DAY,
        Cell::Time(second) => *second < SECONDS_PER_DAY,
        Cell::Stamp(moment) => is_moment(moment.seconds()),
        Cell::Year(year) => *year <= LAST_YEAR,
        Cell::YearMonth(year, month) => *year <= LAST_YEAR && 1 <= *month && *month <= 12,
        _ => true,
    }
}

// Each number of this type has 64 bits.
fn is_whole(_number: i64) -> bool
    ensures { result ≡ is_i64 _number }
{
    true
}

fn is_moment(seconds: i64) -> bool
    ensures { result ≡ (int_le first_moment seconds && int_le seconds last_moment) }
{
    FIRST_SECOND <= seconds && seconds <= LAST_SECOND
}

#[tactic(auto, using(crate::proofs::StoreLemmas::key_indexed))]
fn are_keys_apart(schema: &Schema, rows: &[Row], index: &DigestIndex<u64>) -> bool
    requires ascending { IsAscending row_cmp rows.now }
    requires met { list_all (row_meets schema.now) rows.now ≡ true }
    requires indexed { IsIndexed (column_lists_of schema.now) rows.now index.now }
    ensures { result ≡ keys_apart schema.now.key rows.now }
{
    let key = schema.key().as_slice();
    key.is_empty() || no_key_twice(schema, key, rows, index)
}

// If two rows have equal keys, one of them is a further number of the index.
fn no_key_twice(schema: &Schema, key: &[u32], rows: &[Row], index: &DigestIndex<u64>) -> bool
    requires ascending { IsAscending row_cmp rows.now }
    requires met { list_all (row_meets schema.now) rows.now ≡ true }
    requires key { key.now ≡ schema.now.key }
    requires indexed { IsIndexedAt key.now rows.now index.now }
    ensures { result ≡ are_apart (has_key_of key.now) rows.now }
{
    !is_any_key_twice(key, rows, index.colliding())
}

// Whether the row of one of these entries shares its key with another row.
fn is_any_key_twice(key: &[u32], rows: &[Row], further: &[Further<u64>]) -> bool
    requires { IsAscending row_cmp rows.now }
    ensures { result ≡ list_any (λ e. is_twice (has_key_of key.now) rows.now e.number) further.now }
{
    further
        .iter()
        .any(|entry| is_key_twice(key, rows, entry.number))
}

// Whether the row with this `_id` shares its key with another row.
fn is_key_twice(key: &[u32], rows: &[Row], id: u64) -> bool
    requires { IsAscending row_cmp rows.now }
    ensures { result ≡ is_twice (has_key_of key.now) rows.now id }
{
    match row_at(rows, id) {
        Some(row) => has_key_elsewhere(key, row, rows),
        None => false,
    }
}

fn has_key_elsewhere(key: &[u32], row: &Row, rows: &[Row]) -> bool
    ensures { result ≡ list_any (λ other. not (other.id == row.now.id) && has_key_of key.now row.now other) rows.now }
{
    rows.iter().any(|other| has_same_key(key, row, other))
}

fn has_same_key(key: &[u32], row: &Row, other: &Row) -> bool
    ensures { result ≡ (not (other.now.id == row.now.id) && has_key_of key.now row.now other.now) }
{
    !(other.id == row.id)
        && are_same_between(other.cells.as_slice(), key, row.cells.as_slice(), key)
}

// Whether no two rows have equal cells other than Null in a unique field.
fn are_uniques_apart(fields: &[Field], rows: &[Row], index: &DigestIndex<u64>) -> bool
    requires ascending { IsAscending row_cmp rows.now }
    requires indexed { IsUniquelyIndexed fields.now rows.now index.now }
    ensures { result ≡ uniques_apart 0 fields.now rows.now }
{
    for (column, field) in fields.iter().enumerate() {
        if field.constraints().unique && !no_cell_twice(column, rows, index) {
            return false;
        }
    }
    true
}

// If two rows have equal cells in this column, one of them is a further number of the index.
fn no_cell_twice(column: usize, rows: &[Row], index: &DigestIndex<u64>) -> bool
    requires ascending { IsAscending row_cmp rows.now }
    requires indexed { IsIndexedAt (column ∷ []) rows.now index.now }
    ensures { result ≡ are_apart (has_cell_of column) rows.now }
{
    !is_any_cell_twice(column, rows, index.colliding())
}

// Whether the row of one of these entries shares its cell in this column, other than Null, with another row.
fn is_any_cell_twice(column: usize, rows: &[Row], further: &[Further<u64>]) -> bool
    requires { IsAscending row_cmp rows.now }
    ensures { result ≡ list_any (λ e. is_twice (has_cell_of column) rows.now e.number) further.now }
{
    further
        .iter()
        .any(|entry| is_cell_twice(column, rows, entry.number))
}

// Whether the row with this `_id` shares its cell in this column, other than Null, with another row.
fn is_cell_twice(column: usize, rows: &[Row], id: u64) -> bool
    requires { IsAscending row_cmp rows.now }
    ensures { result ≡ is_twice (has_cell_of column) rows.now id }
{
    match row_at(rows, id) {
        Some(row) => has_cell_elsewhere(column, row, rows),
        None => false,
    }
}

fn has_cell_elsewhere(column: usize, row: &Row, rows: &[Row]) -> bool
    ensures { result ≡ list_any (λ other. not (other.id == row.now.id) && has_cell_of column row.now other) rows.now }
{
    rows.iter().any(|other| has_same_cell(column, row, other))
}

fn has_same_cell(column: usize, row: &Row, other: &Row) -> bool
    ensures { result ≡ (not (other.now.id == row.now.id) && has_cell_of column row.now other.now) }
{
    !(other.id == row.id) && has_cell_of(column, row, other)
}

fn has_cell_of(column: usize, row: &Row, other: &Row) -> bool
    ensures { result ≡ has_cell_of column row.now other.now }
{
    match row.cells.as_slice().get(column) {
        Some(cell) => !is_null(cell) && is_same_at(other.cells.as_slice(), column, cell),
        None => false,
    }
}

fn keeps_self_references(schema: &Schema, rows: &[Row], index: &DigestIndex<u64>) -> bool
    requires { IsKeyed schema.now.key rows.now index.now }
    ensures { result ≡ list_all (keeps_self_reference schema.now.key rows.now) schema.now.foreign }
{
    let key = schema.key().as_slice();
    let foreigns = schema.foreign().as_slice();
    foreigns
        .iter()
        .all(|foreign| keeps_self_reference(key, rows, index, foreign))
}

fn keeps_self_reference(
    key: &[u32],
    rows: &[Row],
    index: &DigestIndex<u64>,
    foreign: &Foreign,
) -> bool
    requires { IsKeyed key.now rows.now index.now }
    ensures { result ≡ keeps_self_reference key.now rows.now foreign.now }
{
    !foreign.resource.is_empty()
        || is_none_broken(foreign.fields.as_slice(), key, rows, index, rows)
}

/// Whether each of the referring rows refers by these columns to one of the rows, or to nothing.
pub(crate) fn is_none_broken(
    columns: &[u32],
    key: &[u32],
    rows: &[Row],
    index: &DigestIndex<u64>,
    referring: &[Row],
) -> bool
    requires { IsKeyed key.now rows.now index.now }
    ensures { result ≡ list_all (λ row. not (is_broken columns.now key.now rows.now row)) referring.now }
{
    referring
        .iter()
        .all(|row| !is_broken_among(columns, key, rows, index, row))
}

/// Whether the `_id`s ascend, each is at least 1 and below `next_id`, and `next_id` is at least 1.
pub(crate) fn is_numbered(rows: &[Row], next_id: u64) -> bool
    ensures { result ≡ is_numbered rows.now next_id }
{
    1 <= next_id && do_ascend(rows, next_id)
}

fn do_ascend(rows: &[Row], next_id: u64) -> bool
    ensures { result ≡ ascend_from 0 next_id rows.now }
{
    let mut low = 0;
    for row in rows {
        if !(low < row.id && row.id < next_id) {
            return false;
        }
        low = row.id;
    }
    true
}
