//! Laws of the definitions: functions with an empty body, whose contracts are the laws.
ghost use Rattle.std.specs.Prelude.{◌≡◌, ◌↔◌, ℕ, Bool, List, Option, ℤ};
ghost use Rattle.lexical_forms.specs.declared.form.NumberForm.{NumberForm};
ghost use Rattle.lexical_forms.specs.Forms.{IsIntegerText, IsI64, IsNumberText, IsSpelling, IsNumericPart, IsInteger};
ghost use Rattle.lexical_forms.specs.Forms.{IsNumber};
ghost use Rattle.lexical_forms.specs.Number.{numeric_part, integer_text_reading, integer_reading, number_text_reading};
ghost use Rattle.lexical_forms.specs.Number.{number_reading};

/// A text reads as a whole number if and only if it has the form of one and the number fits an `i64`.
pub fn a_text_is_a_whole_number_exactly_where_it_is_of_the_form()
    ensures { (text : List ℕ) (number : ℤ) →
        (integer_text_reading text ≡ Some number) ↔ (IsIntegerText text number × IsI64 number) }
{}

/// A text reads as a number of billionths if and only if it has the form of that number.
pub fn a_text_is_a_number_exactly_where_it_is_of_the_form()
    ensures { (form : NumberForm) (text : List ℕ) (billionths : ℤ) → IsSpelling form →
        (number_text_reading form text ≡ Some billionths) ↔ IsNumberText form text billionths }
{}

/// The numeric part of a text is the part that the definition by its surroundings describes: the whole text if
/// `bareNumber` is true, and otherwise what is left without the characters around the number.
pub fn the_numeric_part_is_what_is_inside()
    ensures { (bare : Bool) (decimal : Option ℕ) (text middle : List ℕ) →
        (numeric_part bare decimal text ≡ middle) ↔ IsNumericPart bare decimal text middle }
{}

/// A field's text reads as an integer if and only if it is a text of that integer.
pub fn a_text_reads_as_an_integer_exactly_where_it_is_one()
    ensures { (bare : Bool) (text : List ℕ) (number : ℤ) →
        (integer_reading bare text ≡ Some number) ↔ IsInteger bare text number }
{}

/// A field's text reads as a number if and only if it is a text of that number.
pub fn a_text_reads_as_a_number_exactly_where_it_is_one()
    ensures { (form : NumberForm) (text : List ℕ) (billionths : ℤ) → IsSpelling form →
        (number_reading form text ≡ Some billionths) ↔ IsNumber form text billionths }
{}
