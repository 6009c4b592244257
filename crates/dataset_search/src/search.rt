//! The search that the body of a `package_search` asks for.
ghost use Rattle.std.specs.Prelude.{◌≡◌, IfOk, OnOk, codes};
ghost use Rattle.dataset_search.specs.Search.{page_in, search_in, sort_in, with_flag_errors, with_page_errors};
ghost use Rattle.dataset_search.specs.Search.{with_search_errors, with_sort_error, with_text_errors};

use crate::sort::{SortKey, default_sort, read_sort};
use portal_base::json_value::Json;
use portal_base::key_errors::KeyErrors;
use portal_base::seq::Seq;
use portal_base::text::Text;
use portal_calls::body_values::{count_or, text_or, truth_or};
use sorted_pages::page::PageBounds;
use std::alloc::{AllocError, Global};

/// The datasets of a page by default.
const DEFAULT_ROWS: u64 = 10;

/// The limit of a page's datasets.
const MAX_ROWS: u64 = 1000;

/// The search that a body asks for. A key that breaks a rule has its default here.
#[derive(Drop)]
pub struct Search {
    /// The text of the query.
    pub q: Text,
    /// The text of the filter query.
    pub fq: Text,
    pub page: PageBounds,
    /// What the datasets are sorted by, before their names.
    pub sort: Seq<SortKey>,
    /// Whether it takes private datasets that the caller sees.
    pub include_private: bool,
    /// Whether it takes drafts that the caller sees.
    pub include_drafts: bool,
}

// Reads the bounds of the page, and adds the errors of their keys.
fn read_page(alloc: Global, faults: &mut KeyErrors, body: &Json) -> Result<PageBounds, AllocError>
    ensures page { IfOk result (λ page. page ≡ page_in body.now) }
    ensures errors { OnOk result (faults.new ≡ with_page_errors body.now faults.old) }
{
    let offset = count_or(alloc, faults, body, "start", 0)?;
    let limit = count_or(alloc, faults, body, "rows", DEFAULT_ROWS)?.min(MAX_ROWS);
    Ok(PageBounds { offset, limit })
}

// Reads the sort, or takes the default, and adds the error of its key.
fn read_sort_key(
    alloc: Global,
    faults: &mut KeyErrors,
    body: &Json,
) -> Result<Seq<SortKey>, AllocError>
    ensures sort { IfOk result (λ sort. sort ≡ sort_in body.now) }
    ensures errors { OnOk result (faults.new ≡ with_sort_error body.now faults.old) }
{
    let text = text_or(alloc, faults, body, "sort", "")?;
    match read_sort(alloc, text.as_str())? {
        Some(sort) => Ok(sort),
        None => {
            faults.add_error(
                Text::from_static("sort"),
                Text::from_static("Sort is not readable"),
            )?;
            default_sort(alloc)
        }
    }
}

/// Reads the search that a body asks for. Adds an error for each key that breaks a rule.
pub fn read_search(alloc: Global, faults: &mut KeyErrors, body: &Json) -> Result<Search, AllocError>
    ensures search { IfOk result (λ search. search ≡ search_in body.now) }
    ensures errors { OnOk result (faults.new ≡ with_search_errors body.now faults.old) }
{
    let q = text_or(alloc, faults, body, "q", "*:*")?;
    let fq = text_or(alloc, faults, body, "fq", "")?;
    let page = read_page(alloc, faults, body)?;
    let sort = read_sort_key(alloc, faults, body)?;
    let include_private = truth_or(alloc, faults, body, "include_private", false)?;
    let include_drafts = truth_or(alloc, faults, body, "include_drafts", false)?;
    Ok(Search {
        q,
        fq,
        page,
        sort,
        include_private,
        include_drafts,
    })
}
