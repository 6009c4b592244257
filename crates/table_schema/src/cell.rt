//! Typed cells, and the errors of texts and JSON values that aren't cells.

use portal_base::copy::TryClone;
use portal_base::moment::Moment;
use portal_base::text::Text;
use std::alloc::{AllocError, Global};
use std::cmp::Ordering;
use std::error::Error;
use std::fmt;

/// A value in a table.
#[derive(Drop, PartialEq, Eq)]
pub enum Cell {
    /// No value.
    Null,
    Text(Text),
    Int(i64),
    /// A number, in billionths. Its magnitude is below 10^27 billionths.
    Number(i128),
    Truth(bool),
    /// Days since 1970-01-01.
    Date(i32),
    /// Seconds since midnight.
    Time(u32),
    Stamp(Moment),
    Year(u16),
    /// A year, and a month from 1 to 12.
    YearMonth(u16, u8),
}

impl Cell {
    ghost use Rattle.std.specs.Prelude.{◌≡◌, ◌↔◌, IsTrue};
    ghost use Rattle.std.specs.declared.cmp.Ordering.TheVariants.{Equal};
    ghost use Rattle.table_schema.specs.Order.{rank_of, same_cell, cell_cmp, exact_cmp, type_rank, bytes_of, month_of};
    ghost use Rattle.table_schema.specs.Printed.{IsValue};

    /// Whether two cells are equal.
    pub fn is_same(&self, other: &Cell) -> bool
        ensures same { result ≡ same_cell self.now other.now }
        ensures equal { IsTrue result ↔ (self.now ≡ other.now) }
    {
        self.is_same_value(other)
    }

    /// Compares two cells. Cells of one type are ordered by their values: texts by their bytes, and false before true.
    /// Null comes after all other cells.
    #[tactic(auto, unfolding(crate::specs::Order::cell_cmp))]
    pub fn order(&self, other: &Cell) -> Ordering
        ensures order { result ≡ cell_cmp self.now other.now }
        ensures equal { IsValue self.now → IsValue other.now → ((result ≡ Equal) ↔ (self.now ≡ other.now)) }
    {
        self.type_rank()
            .cmp(&other.type_rank())
            .then(self.rank().cmp(&other.rank()))
            .then(self.text().cmp(other.text()))
    }

    /// Compares two cells as `order` does, and then by the month. Only equal cells are equal, also those that aren't values.
    #[tactic(auto, unfolding(crate::specs::Order::exact_cmp))]
    pub(crate) fn order_exactly(&self, other: &Cell) -> Ordering
        ensures { result ≡ exact_cmp self.now other.now }
    {
        self.order(other).then(self.month().cmp(&other.month()))
    }

    /// The rank among the cells of its type. All texts have the same rank, and `Null` has one rank.
    pub fn rank(&self) -> i128
        ensures { result ≡ rank_of self.now }
    {
        match self {
            Cell::Null | Cell::Text(_) => 0,
            Cell::Int(number) => i128::from(*number),
            Cell::Number(billionths) => *billionths,
            Cell::Truth(truth) => i128::from(*truth),
            Cell::Date(day) => i128::from(*day),
            Cell::Time(second) => i128::from(*second),
            Cell::Stamp(moment) => i128::from(moment.seconds()),
            Cell::Year(year) => i128::from(*year),
            Cell::YearMonth(year, month) => i128::from(*year) * 12 + i128::from(*month),
        }
    }

    fn is_same_value(&self, other: &Cell) -> bool
        ensures { result ≡ same_cell self.now other.now }
    {
        match (self, other) {
            (Cell::Null, Cell::Null) => true,
            (Cell::Text(one), Cell::Text(other)) => one.as_str() == other.as_str(),
            (Cell::Int(one), Cell::Int(other)) => *one == *other,
            (Cell::Number(one), Cell::Number(other)) => *one == *other,
            (Cell::Truth(one), Cell::Truth(other)) => *one == *other,
            (Cell::Date(one), Cell::Date(other)) => *one == *other,
            (Cell::Time(one), Cell::Time(other)) => *one == *other,
            (Cell::Stamp(one), Cell::Stamp(other)) => one.seconds() == other.seconds(),
            (Cell::Year(one), Cell::Year(other)) => *one == *other,
            (Cell::YearMonth(one, month), Cell::YearMonth(other, other_month)) => {
                *one == *other && *month == *other_month
            }
            _ => false,
        }
    }

    // The rank of its type in the order of all cells.
    fn type_rank(&self) -> u8
        ensures { result ≡ type_rank self.now }
    {
        match self {
            Cell::Text(_) => 0,
            Cell::Int(_) => 1,
            Cell::Number(_) => 2,
            Cell::Truth(_) => 3,
            Cell::Date(_) => 4,
            Cell::Time(_) => 5,
            Cell::Stamp(_) => 6,
            Cell::Year(_) => 7,
            Cell::YearMonth(_, _) => 8,
            Cell::Null => 9,
        }
    }

    // The month of a year and month, and 0 for other cells.
    fn month(&self) -> u8
        ensures { result ≡ month_of self.now }
    {
        match self {
            Cell::YearMonth(_, month) => *month,
            _ => 0,
        }
    }

    // The text of a text cell, and the empty text for other cells.
    fn text(&self) -> &str
        ensures { result.now ≡ bytes_of self.now }
    {
        match self {
            Cell::Text(text) => text.as_str(),
            _ => "",
        }
    }
}

impl TryClone for Cell {
    fn try_clone(&self, alloc: Global) -> Result<Cell, AllocError> {
        Ok(match self {
            Cell::Null => Cell::Null,
            Cell::Text(text) => Cell::Text(text.try_clone(alloc)?),
            Cell::Int(number) => Cell::Int(*number),
            Cell::Number(billionths) => Cell::Number(*billionths),
            Cell::Truth(truth) => Cell::Truth(*truth),
            Cell::Date(day) => Cell::Date(*day),
            Cell::Time(second) => Cell::Time(*second),
            Cell::Stamp(moment) => Cell::Stamp(*moment),
            Cell::Year(year) => Cell::Year(*year),
            Cell::YearMonth(year, month) => Cell::YearMonth(*year, *month),
        })
    }
}

/// The first rule that a text or a JSON value breaks.
#[derive(Clone, Copy, Debug, Drop, PartialEq, Eq)]
pub enum CellFault {
    /// It isn't a text or value of the field's type.
    NotOfType,
    /// It is missing, and the field requires a value.
    Required,
    /// It has fewer characters than `minLength`, or more than `maxLength`.
    Length,
    /// It is below `minimum`, or above `maximum`.
    Range,
    /// It isn't one of the values of `enum`.
    NotInEnum,
}

impl fmt::Display for CellFault {
    ghost use Rattle.std.specs.Prelude.{Some};
    ghost use Rattle.table_schema.specs.Messages.{cell_fault_text};

    ghost output = { λ fault. Some (cell_fault_text fault) };

    fn fmt<W: fmt::Write>(&self, f: &mut fmt::Formatter<W>) -> fmt::Result {
        match self {
            CellFault::NotOfType => f.write_str("not of type"),
            CellFault::Required => f.write_str("required"),
            CellFault::Length => f.write_str("length"),
            CellFault::Range => f.write_str("out of range"),
            CellFault::NotInEnum => f.write_str("not in enum"),
        }
    }
}

impl Error for CellFault {}

/// The error of reading a cell.
#[derive(Clone, Copy, Debug, Drop, PartialEq, Eq)]
pub enum CellError {
    Fault(CellFault),
    OutOfMemory,
}

impl fmt::Display for CellError {
    ghost use Rattle.std.specs.Prelude.{Some};
    ghost use Rattle.table_schema.specs.Messages.{cell_error_text};

    ghost output = { λ error. Some (cell_error_text error) };

    fn fmt<W: fmt::Write>(&self, f: &mut fmt::Formatter<W>) -> fmt::Result {
        match self {
            CellError::Fault(fault) => write!(f, "{fault}"),
            CellError::OutOfMemory => f.write_str("out of memory"),
        }
    }
}

impl Error for CellError {}

impl From<AllocError> for CellError {
    ghost use Rattle.std.specs.Prelude.{◌≡◌};
    ghost use Rattle.table_schema.specs.declared.cell.CellError.TheVariants.{OutOfMemory};

    ghost from_gives = { λ _ error. error ≡ OutOfMemory };

    fn from(_refused: AllocError) -> CellError {
        CellError::OutOfMemory
    }
}
