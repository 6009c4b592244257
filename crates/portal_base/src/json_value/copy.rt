//! Copies of JSON values and of the members of objects.
ghost use Rattle.std.specs.Prelude.{◌≡◌, IfOk};

use super::Json;
use crate::copy::TryClone;
use crate::seq::Seq;
use crate::text::Text;
use std::alloc::{AllocError, Global};

impl TryClone for Json {
    fn try_clone(&self, alloc: Global) -> Result<Json, AllocError> {
        copy_of(alloc, self)
    }
}

impl TryClone for (Text, Json) {
    fn try_clone(&self, alloc: Global) -> Result<(Text, Json), AllocError> {
        let key = self.0.try_clone(alloc)?;
        Ok((key, copy_of(alloc, &self.1)?))
    }
}

#[cycle(copy_of)]
fn copy_of(alloc: Global, value: &Json) -> Result<Json, AllocError>
    ensures { IfOk result (λ copy. copy ≡ value.now) }
{
    match value {
        Json::Null => Ok(Json::Null),
        Json::Truth(truth) => Ok(Json::Truth(*truth)),
        Json::Whole(number) => Ok(Json::Whole(*number)),
        Json::Text(text) => Ok(Json::Text(text.try_clone(alloc)?)),
        Json::List(items) => Ok(Json::List(items_of(alloc, items)?)),
        Json::Map(members) => Ok(Json::Map(members_of(alloc, members)?)),
    }
}

#[cycle(copy_of)]
fn items_of(alloc: Global, items: &Seq<Json>) -> Result<Seq<Json>, AllocError>
    ensures { IfOk result (λ copies. copies ≡ items.now) }
{
    let mut copies = Vec::with_capacity(alloc, items.len())?;
    for item in items.as_slice() {
        copies.push(copy_of(alloc, item)?)?;
    }
    Ok(Seq::from(copies))
}

#[cycle(copy_of)]
fn members_of(alloc: Global, members: &Seq<(Text, Json)>) -> Result<Seq<(Text, Json)>, AllocError>
    ensures { IfOk result (λ copies. copies ≡ members.now) }
{
    let mut copies = Vec::with_capacity(alloc, members.len())?;
    for member in members.as_slice() {
        let key = member.0.try_clone(alloc)?;
        copies.push((key, copy_of(alloc, &member.1)?))?;
    }
    Ok(Seq::from(copies))
}
