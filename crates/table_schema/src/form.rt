//! The types of fields, and the options of their texts.
ghost use Rattle.std.specs.Prelude.{◌≡◌};
ghost use Rattle.table_schema.specs.Form.{kind_of};

use crate::listed::ListedTexts;
use lexical_forms::NumberForm;

/// A type of fields (Table Schema v1, "Types and formats"). The type `any` reads as `Text`.
#[derive(Clone, Copy, Debug, PartialEq, Eq)]
pub enum Kind {
    Text,
    Integer,
    Number,
    Boolean,
    Date,
    Time,
    Datetime,
    Year,
    YearMonth,
}

/// The spelling of truth values: `trueValues` and `falseValues`.
#[derive(Drop)]
pub struct Truths {
    pub true_values: ListedTexts,
    pub false_values: ListedTexts,
}

/// A type with the options that apply to it.
#[derive(Drop)]
pub enum Form {
    Text,
    /// `bareNumber`: whether the text must be the number alone, without other characters before or after it.
    Integer(bool),
    Number(NumberForm),
    Boolean(Truths),
    Date,
    Time,
    Datetime,
    Year,
    YearMonth,
}

impl Form {
    /// The type without its options.
    pub fn kind(&self) -> Kind
        ensures { result ≡ kind_of self.now }
    {
        match self {
            Form::Text => Kind::Text,
            Form::Integer(_) => Kind::Integer,
            Form::Number(_) => Kind::Number,
            Form::Boolean(_) => Kind::Boolean,
            Form::Date => Kind::Date,
            Form::Time => Kind::Time,
            Form::Datetime => Kind::Datetime,
            Form::Year => Kind::Year,
            Form::YearMonth => Kind::YearMonth,
        }
    }
}
