//! Laws of headers and rows: functions with an empty body, whose contracts are the laws.
ghost use Rattle.std.specs.Prelude.{◌≡◌, ◌↔◌, ℕ, List, length, Option, Some, Ok, Err};
ghost use Rattle.table_schema.specs.Field.{FieldValue};
ghost use Rattle.table_schema.specs.declared.cell.Cell.{Cell};
ghost use Rattle.typed_csv.specs.declared.row.BadCell.{BadCell};
ghost use Rattle.typed_csv.specs.Header.{bad_column};
ghost use Rattle.typed_csv.specs.Laws.{AreCellsOf, IsFirstBad, IsFirstInvalidColumn};
ghost use Rattle.typed_csv.specs.Rows.{cells_reading};

/// The column that a header's error names is the first column with an invalid name.
pub fn the_header_fault_names_the_first_invalid_column()
    ensures { (fields : List FieldValue) (names : List (List ℕ)) (column : ℕ) →
        ((bad_column fields names ≡ Some column) ↔ IsFirstInvalidColumn fields names column) }
{}

/// The bad cell that the error of a record names is the one that is tried first.
pub fn the_cell_fault_is_that_of_the_first_bad_cell()
    ensures { (width : ℕ) (texts : List (List ℕ)) (fields : List FieldValue) (columns : List (Option ℕ))
        (bad : BadCell) →
        ((cells_reading width texts fields columns ≡ Err bad) ↔ IsFirstBad width texts fields columns bad) }
{}

/// The cells of a record are those that the fields read from the texts in their columns, in the schema's order.
pub fn cells_are_in_the_schema_order()
    ensures { (width : ℕ) (texts : List (List ℕ)) (fields : List FieldValue) (columns : List (Option ℕ))
        (cells : List Cell) →
        length fields ≡ length columns →
        ((cells_reading width texts fields columns ≡ Ok cells) ↔ AreCellsOf texts fields columns cells) }
{}
