//! Laws of the definitions: functions with an empty body, whose contracts are the laws.
ghost use Rattle.std.specs.Prelude.{◌≡◌, ◌↔◌, ◌<◌, ℕ, List, All, Option, Ok, ℤ};
ghost use Rattle.std.specs.Cmp.{IsTotalOrder};
ghost use Rattle.portal_base.specs.Calendar.{IsDay, date_reading, time_reading};
ghost use Rattle.portal_base.specs.MomentText.{clock_text};
ghost use Rattle.portal_base.specs.declared.json_value.Json.{Json};
ghost use Rattle.table_schema.specs.declared.cell.Cell.{Cell};
ghost use Rattle.table_schema.specs.declared.cell.CellFault.{CellFault};
ghost use Rattle.table_schema.specs.declared.form.Form.{Form};
ghost use Rattle.table_schema.specs.Field.{FieldValue, SchemaValue};
ghost use Rattle.table_schema.specs.Keys.{schema_reading};
ghost use Rattle.table_schema.specs.Order.{cell_cmp};
ghost use Rattle.table_schema.specs.Printed.{date_text};
ghost use Rattle.table_schema.specs.Reading.{HasOneAnswer, text_reading, Reads, Fails};
ghost use Rattle.table_schema.specs.Stamp.{stamp_reading};
ghost use Rattle.table_schema.specs.Texts.{IsDateText, IsTimeText, IsStampText, IsCellText, IsSpelled};
ghost use Rattle.table_schema.specs.Texts.{IsReading, IsFailure};
ghost use Rattle.table_schema.specs.Written.{IsDescribed};

/// In each field each text either reads as exactly one cell or fails with exactly one fault.
pub fn texts_have_one_answer()
    ensures { (field : FieldValue) (text : List ℕ) → HasOneAnswer field text }
{}

/// The order of cells is total: it is antisymmetric and transitive, and cells that compare as equal compare alike to
/// every other cell.
pub fn cells_have_one_order()
    ensures { IsTotalOrder cell_cmp }
{}

/// A text reads as a date if and only if it is the text of that date.
pub fn a_text_reads_as_a_date_exactly_where_it_is_one()
    ensures { (text : List ℕ) (day : ℤ) → (date_reading text ≡ Some day) ↔ IsDateText text day }
{}

/// A text reads as a time of day if and only if it is a text of that time.
pub fn a_text_reads_as_a_time_exactly_where_it_is_one()
    ensures { (text : List ℕ) (second : ℕ) → (time_reading text ≡ Some second) ↔ IsTimeText text second }
{}

/// A text reads as a date-time if and only if it is a text of that date-time.
pub fn a_text_reads_as_a_datetime_exactly_where_it_is_one()
    ensures { (text : List ℕ) (seconds : ℤ) → (stamp_reading text ≡ Some seconds) ↔ IsStampText text seconds }
{}

/// A text reads as a cell of a type if and only if it is a text of that cell.
pub fn a_text_reads_as_a_cell_of_a_type_exactly_where_it_is_one()
    ensures { (form : Form) (text : List ℕ) (cell : Cell) → IsSpelled form →
        (text_reading form text ≡ Some cell) ↔ IsCellText form text cell }
{}

/// In a field, a text reads as Null if and only if it is a missing value and none is required. It reads as another cell
/// if and only if it isn't a missing value but a text of that cell, and the cell keeps the constraints.
pub fn a_text_reads_as_a_cell_exactly_where_it_is_of_the_form()
    ensures { (field : FieldValue) (text : List ℕ) (cell : Cell) → IsSpelled field.form →
        Reads field text cell ↔ IsReading field text cell }
{}

/// In a field, a text fails if and only if it is a missing value and a value is required, it isn't a text of the type,
/// or its cell breaks a constraint. The fault is that of the first of these.
pub fn a_text_fails_exactly_where_a_rule_is_broken()
    ensures { (field : FieldValue) (text : List ℕ) (fault : CellFault) → IsSpelled field.form →
        Fails field text fault ↔ IsFailure field text fault }
{}

/// A text is the text of a date if and only if it is the printed text of that date.
pub fn a_date_has_its_printed_text_alone()
    ensures { (text : List ℕ) (day : ℤ) → IsDateText text day ↔ (IsDay day × (text ≡ date_text day)) }
{}

/// A text is a text of a time of day if and only if it is the printed text of that time.
pub fn a_time_has_its_printed_text_alone()
    ensures { (text : List ℕ) (second : ℕ) → IsTimeText text second ↔ ((second < 86400) × (text ≡ clock_text second)) }
{}

/// The number fields of each descriptor have spellings for which these laws hold.
pub fn the_fields_of_a_descriptor_are_spelled()
    ensures { (value : Json) (schema : SchemaValue) → schema_reading value ≡ Ok schema →
        All (λ (field : FieldValue). IsSpelled field.form) schema.fields }
{}

/// The schema that a descriptor reads as is the one that its own descriptor reads as.
pub fn a_schema_reads_back_from_its_own_descriptor()
    ensures { (value : Json) (schema : SchemaValue) → schema_reading value ≡ Ok schema → IsDescribed schema }
{}
