//! Error dictionaries: the type of an error, and its message or the messages of its keys.
ghost use Rattle.std.specs.Prelude.{◌≡◌, ◌≤◌, ◌++◌, map, length, codes, IfOk};
ghost use Rattle.std.specs.List.{prefix_len};
ghost use Rattle.std.specs.Ordering.{nat_cmp, is_lt};
ghost use Rattle.std.specs.Cmp.Lexicographic.{slice_cmp};
ghost use Rattle.action_api.specs.Error.{kind_name, right_name, error_dictionary, list_of_one, fault_member};
ghost use Rattle.action_api.specs.Error.{validation_dictionary, in_use_dictionary, refusal_dictionary};
ghost use Rattle.action_api.specs.Error.{early_dictionary, bad_request, memory_dictionary, store_dictionary};

use crate::early::Early;
use crate::help::joined;
use portal_base::copy::TryClone;
use portal_base::dictionary::Value;
use portal_base::json_value::Json;
use portal_base::seq::Seq;
use portal_base::text::Text;
use portal_calls::answer::{Kind, Right};
use portal_events::Refusal;
use std::alloc::{AllocError, Global};

fn name_of_kind(kind: Kind) -> &'static str
    ensures { result.now ≡ kind_name kind }
{
    match kind {
        Kind::Dataset => "Dataset",
        Kind::Resource => "Resource",
        Kind::Organization => "Organization",
        Kind::Table => "Table",
        Kind::HarvestSource => "Harvest source",
        Kind::HarvestJob => "Harvest job",
    }
}

fn name_of_right(right: Right) -> &'static str
    ensures { result.now ≡ right_name right }
{
    match right {
        Right::CreateDataset => "create dataset",
        Right::EditDataset => "edit dataset",
        Right::PurgeDataset => "purge dataset",
        Right::CreateOrganization => "create organization",
        Right::AdministerOrganization => "administer organization",
    }
}

fn error_json(alloc: Global, kind: &'static str, message: Text) -> Result<Json, AllocError>
    ensures { IfOk result (λ json. json ≡ error_dictionary kind.now message) }
{
    Json::dictionary(
        alloc,
        [
            ("__type", Value::Static(kind)),
            ("message", Value::Json(Json::Text(message))),
        ],
    )
}

fn bad_request(alloc: Global, message: &'static str) -> Result<Json, AllocError>
    ensures { IfOk result (λ json. json ≡ bad_request message.now) }
{
    error_json(alloc, "Bad Request", Text::from_static(message))
}

fn unknown_action(alloc: Global, name: &Text) -> Result<Json, AllocError>
    ensures { IfOk result (λ json. json ≡ bad_request (codes "Action name not known: " ++ name.now)) }
{
    named_error_json(
        alloc,
        "Bad Request",
        "Action name not known: ",
        name.as_str(),
    )
}

fn store_failed(alloc: Global) -> Result<Json, AllocError>
    ensures { IfOk result (λ json. json ≡ store_dictionary) }
{
    error_json(alloc, "Store Error", Text::from_static("The store failed"))
}

fn out_of_memory(alloc: Global) -> Result<Json, AllocError>
    ensures { IfOk result (λ json. json ≡ memory_dictionary) }
{
    error_json(alloc, "Memory Error", Text::from_static("Want of memory"))
}

/// An error whose message ends in a name.
fn named_error_json(
    alloc: Global,
    kind: &'static str,
    message: &str,
    name: &str,
) -> Result<Json, AllocError>
    ensures { IfOk result (λ json. json ≡ error_dictionary kind.now (message.now ++ name.now)) }
{
    error_json(alloc, kind, joined(alloc, message, name)?)
}

/// A list of one message.
fn list_of(alloc: Global, message: Text) -> Result<Json, AllocError>
    ensures { IfOk result (λ json. json ≡ list_of_one message) }
{
    let mut messages = Vec::with_capacity(alloc, 1)?;
    messages.push(Json::Text(message))?;
    Ok(Json::List(Seq::from(messages)))
}

/// The member for a broken rule: its key with the list of its message.
fn member_of_fault(alloc: Global, fault: &(Text, Text)) -> Result<(Text, Json), AllocError>
    ensures { IfOk result (λ member. member ≡ fault_member fault.now) }
{
    let key = fault.0.try_clone(alloc)?;
    let message = fault.1.try_clone(alloc)?;
    Ok((key, list_of(alloc, message)?))
}

/// The member for each broken rule.
fn fault_members(alloc: Global, faults: &[(Text, Text)]) -> Result<Vec<(Text, Json)>, AllocError>
    ensures { IfOk result (λ members. members.items ≡ map fault_member faults.now) }
{
    let mut members = Vec::with_capacity(alloc, faults.len())?;
    for fault in faults {
        members.push(member_of_fault(alloc, fault)?)?;
    }
    Ok(members)
}

/// The index at which `__type` belongs among the members, which ascend by their keys.
fn index_of_type(members: &[(Text, Json)]) -> usize
    ensures index { result ≡ prefix_len (λ m. is_lt (slice_cmp nat_cmp m.0 (codes "__type"))) members.now }
    ensures within { result ≤ length members.now }
{
    members
        .iter()
        .take_while(|member| member.0.as_str().cmp("__type").is_lt())
        .count()
}

/// A validation error: the type, and each key with its message, ascending by key.
fn validation_json(alloc: Global, faults: &[(Text, Text)]) -> Result<Json, AllocError>
    ensures { IfOk result (λ json. json ≡ validation_dictionary faults.now) }
{
    let mut members = fault_members(alloc, faults)?;
    let index = index_of_type(members.as_slice());
    let kind = Json::Text(Text::from_static("Validation Error"));
    members.insert(index, (Text::from_static("__type"), kind))?;
    Ok(Json::Map(Seq::from(members)))
}

fn in_use_json(alloc: Global, key: &Text) -> Result<Json, AllocError>
    ensures { IfOk result (λ json. json ≡ in_use_dictionary key.now) }
{
    let mut faults = Vec::with_capacity(alloc, 1)?;
    let message = Text::from_static("That name is already in use");
    faults.push((key.try_clone(alloc)?, message))?;
    validation_json(alloc, faults.as_slice())
}

/// The error dictionary of a refusal.
pub fn refusal_json(alloc: Global, refusal: &Refusal) -> Result<Json, AllocError>
    ensures { IfOk result (λ json. json ≡ refusal_dictionary refusal.now) }
{
    match refusal {
        Refusal::NotFound(kind) => named_error_json(
            alloc,
            "Not Found Error",
            "Not found: ",
            name_of_kind(*kind),
        ),
        Refusal::NotAuthorized(right) => {
            named_error_json(
                alloc,
                "Authorization Error",
                "Access denied: ",
                name_of_right(*right),
            )
        }
        Refusal::Validation(faults) => validation_json(alloc, faults.as_slice()),
        Refusal::NameInUse(key) => in_use_json(alloc, key),
        Refusal::KeeperFault => store_failed(alloc),
        Refusal::OutOfMemory => out_of_memory(alloc),
    }
}

/// The error dictionary of an early fault.
pub fn early_json(alloc: Global, early: &Early) -> Result<Json, AllocError>
    ensures { IfOk result (λ json. json ≡ early_dictionary early.now) }
{
    match early {
        Early::TooLong => bad_request(alloc, "Body too long"),
        Early::NotJson => bad_request(alloc, "JSON Error"),
        Early::Fraction => bad_request(
            alloc,
            "Numbers with a fraction or an exponent are sent as text",
        ),
        Early::UnknownAction(name) => unknown_action(alloc, name),
        Early::OutOfMemory => out_of_memory(alloc),
    }
}
