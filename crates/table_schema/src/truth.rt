//! Parses the texts of truth values (Table Schema v1, "boolean").
ghost use Rattle.std.specs.Prelude.{◌≡◌, true, false};
ghost use Rattle.table_schema.specs.Truth.{truth_reading, default_trues, default_falses};

use crate::form::Truths;

/// The default of `trueValues`.
pub(crate) const DEFAULT_TRUES: [&str; 4] = ["true", "True", "TRUE", "1"];

/// The default of `falseValues`.
pub(crate) const DEFAULT_FALSES: [&str; 4] = ["false", "False", "FALSE", "0"];

/// The truth value of a text, or none if the text is in neither list. A text in both lists is true.
pub(crate) fn truth_of(truths: &Truths, text: &str) -> Option<bool>
    ensures { result ≡ truth_reading truths.now.true_values truths.now.false_values text.now }
{
    if truths.true_values.has(text) {
        Some(true)
    } else if truths.false_values.has(text) {
        Some(false)
    } else {
        None
    }
}

/// The truth value of a text by the default lists.
pub(crate) fn default_truth_of(text: &str) -> Option<bool>
    ensures { result ≡ truth_reading default_trues default_falses text.now }
{
    match text {
        "true" | "True" | "TRUE" | "1" => Some(true),
        "false" | "False" | "FALSE" | "0" => Some(false),
        _ => None,
    }
}
