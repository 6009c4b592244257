//! The body of a `datastore_search`.
ghost use Rattle.std.specs.Prelude.{◌≡◌, IfOk, OnOk, codes};
ghost use Rattle.portal_base.specs.KeyErrors.{error_if, kind_message};
ghost use Rattle.portal_base.specs.Kinds.{truth_at};
ghost use Rattle.portal_state.specs.SearchBody.{parts_in, search_in, with_query_errors};

use datastore_query::Parts;
use portal_base::json_value::Json;
use portal_base::key_errors::KeyErrors;
use portal_calls::body_values::{count_or, dictionary_or_empty, text_or, texts_or_none, truth_or};
use std::alloc::{AllocError, Global};

/// The rows of a page by default.
const DEFAULT_ROWS: u64 = 100;

/// The limit of a page's rows.
const MAX_ROWS: u64 = 32_000;

/// The search that a body asks for. A key that breaks a rule has its default here.
#[derive(Drop)]
pub struct Search {
    pub parts: Parts,
    /// Whether the reply has the count of rows on all pages.
    pub total: bool,
}

/// The parts of the query.
fn parts_in(alloc: Global, faults: &mut KeyErrors, body: &Json) -> Result<Parts, AllocError>
    ensures parts { IfOk result (λ parts. parts ≡ parts_in body.now) }
    ensures errors { OnOk result (faults.new ≡ with_query_errors body.now faults.old) }
{
    let filters = dictionary_or_empty(alloc, faults, body, "filters")?;
    let q = text_or(alloc, faults, body, "q", "")?;
    let distinct = truth_or(alloc, faults, body, "distinct", false)?;
    let fields = texts_or_none(alloc, faults, body, "fields")?;
    let sort = text_or(alloc, faults, body, "sort", "")?;
    let limit = count_or(alloc, faults, body, "limit", DEFAULT_ROWS)?.min(MAX_ROWS);
    let offset = count_or(alloc, faults, body, "offset", 0)?;
    Ok(Parts {
        filters,
        q,
        distinct,
        fields,
        sort,
        limit,
        offset,
    })
}

/// Reads the search that a body asks for. Adds an error for each key of another kind.
pub fn search_in(alloc: Global, faults: &mut KeyErrors, body: &Json) -> Result<Search, AllocError>
    ensures search { IfOk result (λ search. search ≡ search_in body.now) }
    ensures errors { OnOk result (faults.new ≡ error_if (codes "include_total")
        (kind_message (truth_at (codes "include_total") body.now)) (with_query_errors body.now faults.old)) }
{
    let parts = parts_in(alloc, faults, body)?;
    let total = truth_or(alloc, faults, body, "include_total", true)?;
    Ok(Search { parts, total })
}
