//! One call of a portal, with its size and the moment and nonce that were drawn for it.
ghost use Rattle.std.specs.Prelude.{◌≡◌, ◌≢◌, ◌≤◌, Err, Ok, IfOk, IsTrue, OnOk, OnErr, IsErrOf};
ghost use Rattle.action_api.specs.Reply.{has_text};
ghost use Rattle.portal_base.specs.Outside.{Rose};
ghost use Rattle.portal_serve.specs.RequestOutcome.{outcome_of_request};

use action_api::early::Early;
use portal_base::caller::Caller;
use portal_calls::call::{Call, Request};
use portal_core::laws::a_call_gets_a_reply_of_calls;
use portal_core::portal::Portal;
use portal_events::{Event, Refusal, Reply};
use portal_keeper::keeper::Keeper;
use portal_links::asked::Drawn;
use std::alloc::AllocError;

/// Why a call has no reply of the portal's step. Nothing has changed.
#[derive(Clone, Copy, Debug, PartialEq, Eq)]
pub enum NoReply {
    /// The keeper's count of faults rose.
    KeeperFault,
    /// Memory ran out.
    OutOfMemory,
}

impl From<AllocError> for NoReply {
    ghost use Rattle.std.specs.Prelude.{◌≡◌};
    ghost use Rattle.portal_serve.specs.declared.calling.NoReply.TheVariants.{OutOfMemory};

    ghost from_gives = { λ _ none. none ≡ OutOfMemory };

    fn from(_refused: AllocError) -> NoReply {
        NoReply::OutOfMemory
    }
}

/// The reply to a caller's request, or the early fault where there is no request. It fails only where memory runs out or
/// the keeper fails, and then nothing changes.
pub fn reply_to_request<P: Keeper>(
    portal: &mut Portal<P>,
    caller: Caller,
    request: Result<Request, Early>,
    drawn: Drawn,
) -> Result<Result<Reply, Early>, NoReply>
    ensures reply { IfOk result (λ reply. reply
        ≡ (outcome_of_request portal.old.state caller drawn.size drawn.moment drawn.nonce.0 request).reply) }
    ensures state { OnOk result (portal.new.state
        ≡ (outcome_of_request portal.old.state caller drawn.size drawn.moment drawn.nonce.0 request).state) }
    ensures has_text { IfOk result (λ reply. IsTrue (has_text reply)) }
    ensures kept_reply { IfOk result (λ reply. reply ≢ Ok (Reply.Refused Refusal.KeeperFault)) }
    ensures memory { OnOk result (request ≢ Err Early.OutOfMemory) }
    ensures kept { OnErr result (portal.new.state ≡ portal.old.state) }
    ensures fault { IsErrOf result NoReply.KeeperFault → Rose (P.faults portal.old.keeper) (P.faults portal.new.keeper) }
    ensures counts { P.faults portal.old.keeper ≤ P.faults portal.new.keeper }
{
    let request = match request {
        Ok(request) => request,
        Err(Early::OutOfMemory) => return Err(NoReply::OutOfMemory),
        Err(early) => return Ok(Err(early)),
    };
    let Drawn {
        size,
        moment,
        nonce,
    } = drawn;
    let call = Call {
        caller,
        request,
        size,
        moment,
        nonce,
    };
    a_call_gets_a_reply_of_calls();
    let reply = portal.act(&Event::Call(call));
    match reply {
        Reply::Refused(Refusal::KeeperFault) => Err(NoReply::KeeperFault),
        Reply::Refused(Refusal::OutOfMemory) => Err(NoReply::OutOfMemory),
        _ => Ok(Ok(reply)),
    }
}
