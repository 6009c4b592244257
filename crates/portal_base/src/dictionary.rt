//! JSON dictionaries, each made in one call from its members.
ghost use Rattle.std.specs.Prelude.{◌≡◌, map, IfOk, IsTrue};
ghost use Rattle.portal_base.specs.declared.json_value.Json.{Map};
ghost use Rattle.portal_base.specs.Json.{IsOrderly, data_of, members_data};
ghost use Rattle.portal_base.specs.Dictionary.{value_json, member_json, keys_ascend, IsAscending, ValuesAreOrderly};

use crate::copy::TryClone;
use crate::json_value::Json;
use crate::moment::Moment;
use crate::seq::Seq;
use crate::text::Text;
use std::alloc::{AllocError, Global};

/// What the value of a member is made of.
#[derive(Drop)]
pub enum Value<'a> {
    Truth(bool),
    Whole(usize),
    /// A string of the program, which is not copied.
    Static(&'static str),
    /// A string that is copied.
    Str(&'a str),
    /// A text that is copied, unless its bytes are in the program.
    Text(&'a Text),
    /// A moment, which becomes its text.
    Moment(Moment),
    List(Seq<Json>),
    Json(Json),
}

impl<'a> Value<'a> {
    /// The JSON value, or `AllocError` if memory runs out.
    pub fn into_json(self, alloc: Global) -> Result<Json, AllocError>
        ensures { IfOk result (λ json. json ≡ value_json self.entry) }
    {
        match self {
            Value::Truth(truth) => Ok(Json::Truth(truth)),
            Value::Whole(number) => Ok(Json::Whole(number as i128)),
            Value::Static(text) => Ok(Json::Text(Text::from_static(text))),
            Value::Str(text) => Ok(Json::Text(Text::from_str(alloc, text)?)),
            Value::Text(text) => Ok(Json::Text(text.try_clone(alloc)?)),
            Value::Moment(moment) => Ok(Json::Text(moment.text(alloc)?)),
            Value::List(list) => Ok(Json::List(list)),
            Value::Json(json) => Ok(json),
        }
    }
}

/// What a member of a dictionary is made of: a key that is in the program, and a `Value`.
pub trait IntoMember {
    ghost use Rattle.std.specs.Prelude.{ℕ, List};
    ghost use Rattle.portal_base.specs.declared.json_value.Json.{Json};

    /// The key and the value.
    ghost member: { Self → List ℕ × Json };

    /// The member, or `AllocError` if memory runs out.
    fn into_member(self, alloc: Global) -> Result<(Text, Json), AllocError>
        ensures { IfOk result (λ made. made ≡ member self) };
}

impl<'a> IntoMember for (&'static str, Value<'a>) {
    ghost member = { member_json };

    fn into_member(self, alloc: Global) -> Result<(Text, Json), AllocError> {
        let (key, value) = self;
        let value = value.into_json(alloc)?;
        Ok((Text::from_static(key), value))
    }
}

impl Json {
    /// The dictionary of these members. Their keys must strictly ascend by bytes. The only error is `AllocError`, if
    /// memory runs out.
    pub fn dictionary<M: IntoMember + Drop, const N: usize>(
        alloc: Global,
        members: [M; N],
    ) -> Result<Json, AllocError>
        requires { IsTrue (keys_ascend (map M.member members)) }
        ensures same { IfOk result (λ json. json ≡ Map (map M.member members)) }
        ensures ascending { IfOk result (λ json. IsAscending (data_of json)) }
        ensures orderly { ValuesAreOrderly (members_data (map M.member members)) →
            IfOk result (λ json. IsOrderly (data_of json)) }
    {
        let made = made_members(alloc, members)?;
        Ok(Json::Map(made))
    }
}

/// Each member, in order.
fn made_members<M: IntoMember + Drop, const N: usize>(
    alloc: Global,
    members: [M; N],
) -> Result<Seq<(Text, Json)>, AllocError>
    ensures { IfOk result (λ made. made ≡ map M.member members) }
{
    let mut list = Vec::with_capacity(alloc, N)?;
    for member in Vec::from_array(alloc, members)? {
        list.push(member.into_member(alloc)?)?;
    }
    Ok(Seq::from(list))
}
