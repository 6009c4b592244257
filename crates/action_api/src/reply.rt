//! Rendering replies: a status and one JSON dictionary, as in CKAN's Action API (2.10).
ghost use Rattle.std.specs.Prelude.{◌≡◌, IfOk, IsTrue, option_copied, string_bytes};
ghost use Rattle.portal_base.specs.Json.{json_text};
ghost use Rattle.action_api.specs.Reply.{refusal_status, early_status, reply_status, success_dictionary};
ghost use Rattle.action_api.specs.Reply.{failure_dictionary, has_text, reply_json, reply_text};

use crate::early::Early;
use crate::errors::{early_json, refusal_json};
use crate::help::reply_help;
use portal_base::json_value::Json;
use portal_base::seq::Seq;
use portal_base::text::Text;
use portal_events::{Refusal, Reply};
use std::alloc::{AllocError, Global};

/// The HTTP status of a reply to a call (RFC 9110, section 15).
pub fn status_of(reply: &Result<Reply, Early>) -> u16
    requires { IsTrue (has_text reply.now) }
    ensures { result ≡ reply_status reply.now }
{
    match reply {
        Ok(Reply::Accepted(_)) => 200,
        Ok(Reply::Shown(_)) => 200,
        Ok(Reply::Refused(refusal)) => status_of_refusal(refusal),
        Ok(Reply::Harvest(_)) => unreachable!(),
        Err(early) => status_of_early(early),
    }
}

fn status_of_refusal(refusal: &Refusal) -> u16
    ensures { result ≡ refusal_status refusal.now }
{
    match refusal {
        Refusal::NotFound(_) => 404,
        Refusal::NotAuthorized(_) => 403,
        Refusal::Validation(_) => 409,
        Refusal::NameInUse(_) => 409,
        Refusal::KeeperFault => 503,
        Refusal::OutOfMemory => 507,
    }
}

fn status_of_early(early: &Early) -> u16
    ensures { result ≡ early_status early.now }
{
    match early {
        Early::TooLong => 413,
        Early::NotJson => 400,
        Early::Fraction => 400,
        Early::UnknownAction(_) => 400,
        Early::OutOfMemory => 507,
    }
}

/// The text of a success.
fn render_success(alloc: Global, help: Text, value: &Json) -> Result<String, AllocError>
    ensures { IfOk result (λ text. string_bytes text ≡ json_text (success_dictionary help value.now)) }
{
    let help = Json::Text(help).text(alloc)?;
    let value = value.text(alloc)?;
    let (help, value) = (help.as_str(), value.as_str());
    format!(in alloc; "{{\"help\":{help},\"result\":{value},\"success\":true}}")
}

/// The text of a failure.
fn render_failure(alloc: Global, help: Text, error: Json) -> Result<String, AllocError>
    ensures { IfOk result (λ text. string_bytes text ≡ json_text (failure_dictionary help error)) }
{
    let help = Json::Text(help).text(alloc)?;
    let error = error.text(alloc)?;
    let (help, error) = (help.as_str(), error.as_str());
    format!(in alloc; "{{\"error\":{error},\"help\":{help},\"success\":false}}")
}

/// The compact JSON of a reply to a call of the action of that name.
fn render_reply(
    alloc: Global,
    action: Option<&str>,
    reply: &Result<Reply, Early>,
) -> Result<String, AllocError>
    requires { IsTrue (has_text reply.now) }
    ensures { IfOk result (λ text. string_bytes text ≡ json_text (reply_json (option_copied action.entry) reply.now)) }
{
    let help = reply_help(alloc, action, reply)?;
    match reply {
        Ok(Reply::Accepted(value)) => render_success(alloc, help, value),
        Ok(Reply::Shown(value)) => render_success(alloc, help, value),
        Ok(Reply::Refused(refusal)) => render_failure(alloc, help, refusal_json(alloc, refusal)?),
        Ok(Reply::Harvest(_)) => unreachable!(),
        Err(early) => render_failure(alloc, help, early_json(alloc, early)?),
    }
}

/// The HTTP status and the compact JSON of a reply, or of an early fault, to a call of the action of that name. The
/// text at `help` is empty where no action has the name.
pub fn reply_text(
    alloc: Global,
    action: Option<&str>,
    reply: &Result<Reply, Early>,
) -> Result<(u16, Seq<u8>), AllocError>
    requires { IsTrue (has_text reply.now) }
    ensures { IfOk result (λ written. written ≡ reply_text (option_copied action.entry) reply.now) }
{
    let text = render_reply(alloc, action, reply)?;
    Ok((status_of(reply), Seq::from(text.into_bytes())))
}
