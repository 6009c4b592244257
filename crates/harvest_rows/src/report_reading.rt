//! Reports on jobs that are read from their dictionaries.
ghost use Rattle.std.specs.Prelude.{◌≡◌, IfOk, map};
ghost use Rattle.harvest_rows.specs.Readings.{bad_in, report_in};

use crate::cause_reading::{cause_named, state_from};
use crate::keys::{items_of, number_of, text_of};
use harvest_sources::{Cause, SourceReport};
use portal_base::json_value::Json;
use portal_base::seq::Seq;
use portal_base::text::Text;
use std::alloc::{AllocError, Global};

/// The report that the value is read as.
#[tactic(auto, unfolding(crate::specs::Readings::report_in))]
pub(crate) fn report_in(alloc: Global, value: &Json) -> Result<SourceReport, AllocError>
    ensures { IfOk result (λ report. report ≡ report_in value.now) }
{
    let bad = bad_list_in(alloc, items_of(value, "bad"))?;
    Ok(SourceReport {
        source: Text::from_str(alloc, text_of(value, "source"))?,
        state: state_from(text_of(value, "state"), text_of(value, "cause")),
        added: number_of(value, "added"),
        updated: number_of(value, "updated"),
        unchanged: number_of(value, "unchanged"),
        deleted: number_of(value, "deleted"),
        unnamed: number_of(value, "unnamed"),
        bad,
    })
}

/// The listed IRIs that gave no dataset, each with its cause.
fn bad_list_in(alloc: Global, items: &[Json]) -> Result<Seq<(Text, Cause)>, AllocError>
    ensures { IfOk result (λ bad. bad ≡ map bad_in items.now) }
{
    let mut bad = Vec::with_capacity(alloc, items.len())?;
    for item in items {
        bad.push(bad_in(alloc, item)?)?;
    }
    Ok(Seq::from(bad))
}

#[tactic(auto, unfolding(crate::specs::Readings::bad_in))]
fn bad_in(alloc: Global, item: &Json) -> Result<(Text, Cause), AllocError>
    ensures { IfOk result (λ bad. bad ≡ bad_in item.now) }
{
    let iri = Text::from_str(alloc, text_of(item, "iri"))?;
    let cause = cause_named(text_of(item, "cause"));
    Ok((iri, cause))
}
