//! The facets of datasets of a shelf, which are looked at one after the other.
ghost use Rattle.std.specs.Prelude.{◌≡◌, ◌+◌, ◌≤◌, ◌++◌, IfOk, OnOk, IsSome, flat_map, length, ℕ, Option, Some};
ghost use Rattle.std.specs.List.{All};
ghost use Rattle.packages.specs.Shelf.{datasets_at, package_at};
ghost use Rattle.facets.specs.Facets.{facet_counts, texts_in};
ghost use Rattle.facets.specs.Tally.{own_values};

use crate::field::FacetField;
use crate::tally::tally;
use crate::values::push_values;
use packages::laws::a_set_has_its_texts;
use packages::shelf::Shelf;
use portal_base::seq::Seq;
use portal_base::steps::Steps;
use portal_base::text::Text;
use std::alloc::{AllocError, Global};
use std::sync::ledger::Ledger;

/// The values of the datasets at these numbers, one dataset after the other.
fn values_at<L: Ledger>(
    alloc: Global,
    shelf: &Shelf,
    numbers: &[u32],
    field: FacetField,
    steps: &mut Steps<L>,
) -> Result<Vec<Text>, AllocError>
    requires { All (λ number. IsSome (package_at number shelf.now)) numbers.now }
    ensures values { IfOk result (λ values. values.items
        ≡ flat_map (λ dataset. own_values (texts_in field dataset)) (datasets_at shelf.now numbers.now)) }
    ensures steps { OnOk result (steps.new ≡ steps.old + length numbers.now) }
    ensures bound { steps.new ≤ steps.old + length numbers.now }
{
    let mut values = Vec::new(alloc);
    for number in numbers {
        let dataset = shelf.look(*number, steps);
        push_values(alloc, &mut values, dataset, field)?;
    }
    Ok(values)
}

/// The values of the datasets at these numbers in a field, each with the count of datasets that have it. Higher counts
/// come first, and equal counts by value. The function looks once at each number; a repeated number counts its dataset again.
pub fn facets_of<L: Ledger>(
    alloc: Global,
    shelf: &Shelf,
    numbers: &Seq<u32>,
    field: FacetField,
    steps: &mut Steps<L>,
) -> Result<Seq<(Text, u64)>, AllocError>
    requires { All (λ number. IsSome (package_at number shelf.now)) numbers.now }
    ensures counts { IfOk result (λ counts. counts ≡ facet_counts field (datasets_at shelf.now numbers.now)) }
    ensures steps { OnOk result (steps.new ≡ steps.old + length numbers.now) }
    ensures bound { steps.new ≤ steps.old + length numbers.now }
{
    a_set_has_its_texts();
    let values = values_at(alloc, shelf, numbers.as_slice(), field, steps)?;
    tally(alloc, values)
}
