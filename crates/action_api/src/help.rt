//! The location of the help on an action, which replies name.
ghost use Rattle.std.specs.Prelude.{◌≡◌, ◌++◌, IfOk, option_copied};
ghost use Rattle.action_api.specs.Reply.{help_of, known_action, reply_help};

use crate::early::Early;
use portal_base::text::Text;
use portal_calls::action::Action;
use portal_events::{Refusal, Reply};
use std::alloc::{AllocError, Global};

/// The two texts, one after the other.
pub fn joined(alloc: Global, first: &str, second: &str) -> Result<Text, AllocError>
    ensures { IfOk result (λ text. text ≡ first.now ++ second.now) }
{
    let mut string = String::from_str(alloc, first)?;
    string.push_str(second)?;
    Ok(Text::from(string))
}

/// The action of that name, where there is a name and an action has it.
fn known_action(action: Option<&str>) -> Option<Action>
    ensures { result ≡ known_action (option_copied action.entry) }
{
    match action {
        Some(name) => Action::named(name),
        None => None,
    }
}

/// The location of the help on that action. It is the empty text where no action has the name.
fn help_text(alloc: Global, action: Option<&str>) -> Result<Text, AllocError>
    ensures { IfOk result (λ text. text ≡ help_of (option_copied action.entry)) }
{
    match known_action(action) {
        Some(action) => joined(alloc, "/api/3/action/help_show?name=", action.name()),
        None => Ok(Text::new(alloc)),
    }
}

/// The text at `help` in a reply.
pub fn reply_help(
    alloc: Global,
    action: Option<&str>,
    reply: &Result<Reply, Early>,
) -> Result<Text, AllocError>
    ensures { IfOk result (λ text. text ≡ reply_help (option_copied action.entry) reply.now) }
{
    match reply {
        Ok(Reply::Refused(Refusal::OutOfMemory)) => Ok(Text::new(alloc)),
        Err(Early::TooLong) => Ok(Text::new(alloc)),
        Err(Early::UnknownAction(_)) => Ok(Text::new(alloc)),
        Err(Early::OutOfMemory) => Ok(Text::new(alloc)),
        _ => help_text(alloc, action),
    }
}
