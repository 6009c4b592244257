//! Lists of names, and pages of them.
ghost use Rattle.std.specs.Prelude.{◌≡◌, IfOk, map, min};
ghost use Rattle.portal_base.specs.declared.json_value.Json as json;
ghost use Rattle.dataset_answers.specs.Answers.{page_of};

use portal_base::copy::TryClone;
use portal_base::json_value::Json;
use portal_base::seq::Seq;
use portal_base::text::Text;
use std::alloc::{AllocError, Global};

/// The number, or `most` if the number is greater.
fn capped(number: u128, most: usize) -> usize
    ensures { result ≡ min number most }
{
    if number < most as u128 {
        number as usize
    } else {
        most
    }
}

/// The names from `offset` on, at most `limit` of them if that is given. Without an offset it starts at the first name.
#[tactic(auto, using(std::proofs::lemmas::List::drop_min, std::proofs::lemmas::List::take_min))]
pub fn page_of(limit: Option<u128>, offset: Option<u128>, names: &[Text]) -> &[Text]
    ensures { result.now ≡ page_of limit offset names.now }
{
    let rest = &names[capped(offset.unwrap_or(0), names.len())..];
    match limit {
        Some(limit) => &rest[..capped(limit, rest.len())],
        None => rest,
    }
}

/// The names, as texts of a reply.
pub fn names_json(alloc: Global, names: &[Text]) -> Result<Seq<Json>, AllocError>
    ensures { IfOk result (λ list. list ≡ map json.Text names.now) }
{
    let mut list = Vec::with_capacity(alloc, names.len())?;
    for name in names {
        list.push(Json::Text(name.try_clone(alloc)?))?;
    }
    Ok(Seq::from(list))
}
