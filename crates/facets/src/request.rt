//! What a search's body asks for of facets (CKAN's package_search).
ghost use Rattle.std.specs.Prelude.{◌≡◌, IfOk, OnOk, codes, pos, true};
ghost use Rattle.portal_base.specs.KeyErrors.{error_if, kind_message};
ghost use Rattle.portal_base.specs.Kinds.{texts_at, truth_at, whole_at};
ghost use Rattle.portal_calls.specs.BodyValues.{texts_or_none, truth_or, whole_or};
ghost use Rattle.facets.specs.Request.{facet_request, fields_shown, limit_of, with_facet_errors};

use packages::tags::sort_and_dedup;
use portal_base::json_value::Json;
use portal_base::key_errors::KeyErrors;
use portal_base::seq::Seq;
use portal_base::text::Text;
use portal_calls::body_values::{count_or, texts_or_none, truth_or, whole_or};
use std::alloc::{AllocError, Global};

/// The facets that a search asks for.
#[derive(Drop)]
pub struct FacetRequest {
    /// The names of the fields, each once, ordered by bytes. Not every name is that of a field whose values are counted.
    pub fields: Seq<Text>,
    /// The least count of an item.
    pub mincount: u64,
    /// The most items of a field.
    pub limit: Option<u64>,
}

/// The set of the names, if there are any and facets are shown.
fn fields_shown(alloc: Global, is_shown: bool, names: Option<Seq<Text>>) -> Seq<Text>
    ensures { result ≡ fields_shown is_shown names }
{
    match names {
        Some(names) if is_shown => {
            let mut names = names.into_vec();
            sort_and_dedup(&mut names);
            Seq::from(names)
        }
        _ => Seq::new(alloc),
    }
}

/// The names of the fields of a body. Adds the errors of the keys that are read.
fn read_fields(alloc: Global, faults: &mut KeyErrors, body: &Json) -> Result<Seq<Text>, AllocError>
    ensures fields { IfOk result (λ fields. fields
        ≡ fields_shown (truth_or true (codes "facet") body.now) (texts_or_none (codes "facet.field") body.now)) }
    ensures errors { OnOk result (faults.new
        ≡ error_if (codes "facet.field") (kind_message (texts_at (codes "facet.field") body.now))
        (error_if (codes "facet") (kind_message (truth_at (codes "facet") body.now)) faults.old)) }
{
    let is_shown = truth_or(alloc, faults, body, "facet", true)?;
    let names = texts_or_none(alloc, faults, body, "facet.field")?;
    Ok(fields_shown(alloc, is_shown, names))
}

/// The limit that a number stands for.
fn limit_of(number: i128) -> Option<u64>
    ensures { result ≡ limit_of number }
{
    if number < 0 {
        None
    } else {
        Some(u64::try_from(number).unwrap_or(u64::MAX))
    }
}

/// The limit of a body. Adds its key's error.
fn read_limit(alloc: Global, faults: &mut KeyErrors, body: &Json) -> Result<Option<u64>, AllocError>
    ensures limit { IfOk result (λ limit. limit ≡ limit_of (whole_or (pos 50) (codes "facet.limit") body.now)) }
    ensures errors { OnOk result (faults.new
        ≡ error_if (codes "facet.limit") (kind_message (whole_at (codes "facet.limit") body.now)) faults.old) }
{
    Ok(limit_of(whole_or(alloc, faults, body, "facet.limit", 50)?))
}

/// The facets that a body asks for. Adds the errors of its keys.
pub fn read_request(
    alloc: Global,
    faults: &mut KeyErrors,
    body: &Json,
) -> Result<FacetRequest, AllocError>
    ensures request { IfOk result (λ request. request ≡ facet_request body.now) }
    ensures errors { OnOk result (faults.new ≡ with_facet_errors body.now faults.old) }
{
    let fields = read_fields(alloc, faults, body)?;
    let mincount = count_or(alloc, faults, body, "facet.mincount", 1)?;
    let limit = read_limit(alloc, faults, body)?;
    Ok(FacetRequest {
        fields,
        mincount,
        limit,
    })
}
