//! Events of a portal and the replies to them.
ghost use Rattle.std.specs.Prelude.{◌≡◌};
ghost use Rattle.portal_events.specs.Reply.{refusal_of};

use harvest_sources::{Step, StepReply};
use portal_base::json_value::Json;
use portal_base::seq::Seq;
use portal_base::text::Text;
use portal_calls::answer::{Denial, Kind, Right};
use portal_calls::call::Call;

/// An event of a portal.
#[derive(Drop)]
pub enum Event {
    Call(Call),
    /// A step of a harvest.
    Harvest(Step),
}

/// Why a call was refused.
#[derive(Drop)]
pub enum Refusal {
    /// No such thing is among what the caller sees.
    NotFound(Kind),
    /// The caller sees the thing, and lacks the right.
    NotAuthorized(Right),
    /// The body breaks rules: each key with its message, ascending by key.
    Validation(Seq<(Text, Text)>),
    /// The value at this key, `name` or `id`, is in use. Everything else accepts the call.
    NameInUse(Text),
    /// The store failed to keep an accepted change, and the portal is as before.
    KeeperFault,
    /// Memory ran out, and the portal is as before.
    OutOfMemory,
}

/// The reply to an event.
#[derive(Drop)]
pub enum Reply {
    /// The change was made. The value shows what it made.
    Accepted(Json),
    /// The value that a reading call asks for.
    Shown(Json),
    Refused(Refusal),
    /// The answer to a step of a harvest.
    Harvest(StepReply),
}

impl Reply {
    ghost use Rattle.portal_events.specs.Reply.{is_change};

    /// Whether the reply is that a change was made, or that a step of a harvest was accepted.
    pub fn is_change(&self) -> bool
        ensures { result ≡ is_change self.now }
    {
        match self {
            Reply::Accepted(_) => true,
            Reply::Shown(_) => false,
            Reply::Refused(_) => false,
            Reply::Harvest(reply) => reply.is_accepted(),
        }
    }
}

/// A denial as the refusal of a reply.
pub fn refusal_of(denial: Denial) -> Refusal
    ensures { result ≡ refusal_of denial }
{
    match denial {
        Denial::NotFound(kind) => Refusal::NotFound(kind),
        Denial::NotAuthorized(right) => Refusal::NotAuthorized(right),
        Denial::Validation(faults) => Refusal::Validation(faults),
    }
}
