//! Calls on a stage: each draws its moment and nonce, is made on the portal, and writes its reply's line.
ghost use Rattle.std.specs.Prelude.{◌≡◌, ◌⊎◌, ◌≤◌, Some, Err, IfOk, IsTrue, OnOk, OnErr, IsErrOf};
ghost use Rattle.portal_base.specs.Outside.{Rose, Takes, TakesPrefix};
ghost use Rattle.action_api.specs.Reply.{has_text, reply_status};
ghost use Rattle.portal_serve.specs.Calls.{BeginsCall, MakesCall};
ghost use Rattle.portal_serve.specs.Values.{script_call};
ghost use Rattle.portal_serve.specs.Stage.{AreSameLoans, trace_of};
ghost use Rattle.portal_serve.specs.Transcript.{outcome_of_call, reply_line};

use crate::calling::{NoReply, reply_to_request};
use crate::line::render_line;
use crate::script::ScriptCall;
use crate::stage::Stage;
use action_api::early::Early;
use action_api::reply::status_of;
use action_api::request::request_for;
use portal_base::caller::Caller;
use portal_base::json_value::Json;
use portal_base::outside::{Clock, Nonces, Sink};
use portal_base::seq::Seq;
use portal_core::portal::Portal;
use portal_events::Reply;
use portal_keeper::keeper::Keeper;
use portal_links::asked::Drawn;
use std::alloc::{AllocError, Global};

/// Why a call's line isn't complete.
#[derive(Clone, Copy, Debug, PartialEq, Eq)]
pub enum CallStop {
    /// Output's count of faults rose.
    WriteFault,
    /// The keeper's count of faults rose.
    KeeperFault,
    /// Memory ran out.
    OutOfMemory,
}

impl From<AllocError> for CallStop {
    ghost use Rattle.std.specs.Prelude.{◌≡◌};
    ghost use Rattle.portal_serve.specs.declared.calls.CallStop.TheVariants.{OutOfMemory};

    ghost from_gives = { λ _ stop. stop ≡ OutOfMemory };

    fn from(_refused: AllocError) -> CallStop {
        CallStop::OutOfMemory
    }
}

impl From<NoReply> for CallStop {
    ghost use Rattle.std.specs.Prelude.{◌≡◌};
    ghost use Rattle.portal_serve.specs.Stopped.{stop_without_reply};

    ghost from_gives = { λ none stop. stop ≡ stop_without_reply none };

    fn from(none: NoReply) -> CallStop {
        match none {
            NoReply::KeeperFault => CallStop::KeeperFault,
            NoReply::OutOfMemory => CallStop::OutOfMemory,
        }
    }
}

/// A call that was made: its reply's HTTP status, and the line of the transcript for it.
#[derive(Drop)]
struct ProcessedCall {
    status: u16,
    line: Seq<u8>,
}

/// Writes a line of the transcript.
pub(crate) fn write_line<O: Sink, C: Clock, N: Nonces>(
    stage: &mut Stage<'_, '_, '_, O, C, N>,
    line: &[u8],
) -> Result<(), CallStop>
    ensures ok { OnOk result (Takes (O.taken stage.old.output.now) line.now (O.taken stage.new.output.now)) }
    ensures failed { OnErr result (TakesPrefix (O.taken stage.old.output.now) line.now (O.taken stage.new.output.now)) }
    ensures fault { OnErr result (Rose (O.faults stage.old.output.now) (O.faults stage.new.output.now)) }
    ensures stop { OnErr result (result ≡ Err CallStop.WriteFault) }
    ensures counts { O.faults stage.old.output.now ≤ O.faults stage.new.output.now }
    ensures clock { stage.new.clock.now ≡ stage.old.clock.now }
    ensures nonces { stage.new.nonces.now ≡ stage.old.nonces.now }
    ensures loans { AreSameLoans stage.old stage.new }
{
    match stage.write(line) {
        Ok(()) => Ok(()),
        Err(_failed) => Err(CallStop::WriteFault),
    }
}

/// The reply to the call of a caller for an action with a body.
fn reply_to_call<P: Keeper>(
    alloc: Global,
    portal: &mut Portal<P>,
    caller: Caller,
    action: &str,
    body: Json,
    drawn: Drawn,
) -> Result<Result<Reply, Early>, NoReply>
    ensures reply { IfOk result (λ reply. reply ≡ (outcome_of_call portal.old.state
        (record { caller = caller; action = action.now; body = body }) drawn.size drawn.moment drawn.nonce.0).reply) }
    ensures state { OnOk result (portal.new.state ≡ (outcome_of_call portal.old.state
        (record { caller = caller; action = action.now; body = body }) drawn.size drawn.moment drawn.nonce.0).state) }
    ensures has_text { IfOk result (λ reply. IsTrue (has_text reply)) }
    ensures kept { OnErr result (portal.new.state ≡ portal.old.state) }
    ensures keeper_fault { IsErrOf result NoReply.KeeperFault
        → Rose (P.faults portal.old.keeper) (P.faults portal.new.keeper) }
    ensures keeper_counts { P.faults portal.old.keeper ≤ P.faults portal.new.keeper }
{
    let request = request_for(alloc, action, body);
    reply_to_request(portal, caller, request, drawn)
}

/// Makes a call, and renders its line of the transcript.
fn process_call<P: Keeper>(
    alloc: Global,
    portal: &mut Portal<P>,
    call: ScriptCall,
    drawn: Drawn,
) -> Result<ProcessedCall, NoReply>
    ensures status { IfOk result (λ processed. processed.status
        ≡ reply_status (outcome_of_call portal.old.state (script_call call) drawn.size drawn.moment drawn.nonce.0).reply) }
    ensures line { IfOk result (λ processed. processed.line ≡ reply_line (Some call.action)
        (outcome_of_call portal.old.state (script_call call) drawn.size drawn.moment drawn.nonce.0).reply) }
    ensures state { OnOk result (portal.new.state
        ≡ (outcome_of_call portal.old.state (script_call call) drawn.size drawn.moment drawn.nonce.0).state) }
    ensures stopped { OnErr result ((portal.new.state ≡ portal.old.state) ⊎ (portal.new.state
        ≡ (outcome_of_call portal.old.state (script_call call) drawn.size drawn.moment drawn.nonce.0).state)) }
    ensures keeper_fault { IsErrOf result NoReply.KeeperFault
        → Rose (P.faults portal.old.keeper) (P.faults portal.new.keeper) }
    ensures keeper_counts { P.faults portal.old.keeper ≤ P.faults portal.new.keeper }
{
    let ScriptCall {
        caller,
        action,
        body,
    } = call;
    let reply = reply_to_call(alloc, portal, caller, action.as_str(), body, drawn)?;
    let status = status_of(&reply);
    let line = render_line(alloc, Some(action.as_str()), &reply)?;
    Ok(ProcessedCall { status, line })
}

/// Makes a call of this size on a stage, writes its line, and returns its reply's HTTP status. Where it stops, output
/// has taken some prefix of the line, and the call may have been made.
pub fn make_call<P: Keeper, O: Sink, C: Clock, N: Nonces>(
    alloc: Global,
    portal: &mut Portal<P>,
    call: ScriptCall,
    size: u64,
    stage: &mut Stage<'_, '_, '_, O, C, N>,
) -> Result<u16, CallStop>
    ensures made { IfOk result (λ status. MakesCall portal.old.state (script_call call) size status portal.new.state
        (trace_of O.taken C.given N.given stage.old) (trace_of O.taken C.given N.given stage.new)) }
    ensures begun { OnErr result (BeginsCall portal.old.state (script_call call) size portal.new.state
        (trace_of O.taken C.given N.given stage.old) (trace_of O.taken C.given N.given stage.new)) }
    ensures fault { result ≡ Err CallStop.WriteFault
        → Rose (O.faults stage.old.output.now) (O.faults stage.new.output.now) }
    ensures counts { O.faults stage.old.output.now ≤ O.faults stage.new.output.now }
    ensures loans { AreSameLoans stage.old stage.new }
    ensures keeper_fault { IsErrOf result CallStop.KeeperFault
        → Rose (P.faults portal.old.keeper) (P.faults portal.new.keeper) }
    ensures keeper_counts { P.faults portal.old.keeper ≤ P.faults portal.new.keeper }
{
    let (moment, nonce) = stage.draw();
    let drawn = Drawn {
        size,
        moment,
        nonce,
    };
    let processed = process_call(alloc, portal, call, drawn)?;
    write_line(stage, processed.line.as_slice())?;
    Ok(processed.status)
}
