//! The spelling of numbers.

/// The spelling of numbers (Table Schema v1, "number"): `decimalChar`, `groupChar` and `bareNumber`.
#[derive(Clone, Copy, Debug, PartialEq, Eq)]
pub struct NumberForm {
    /// The character between the whole part and the fraction.
    pub decimal: char,
    /// The character that may separate two digits of the whole part.
    pub group: Option<char>,
    /// `bareNumber`: whether the text must be the number alone, without other characters before or after it.
    pub bare: bool,
}
