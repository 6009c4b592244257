//! Steps of a harvest on a machine.
ghost use Rattle.std.specs.Prelude.{◌≡◌, ◌≤◌, Err, IfOk, OnErr};
ghost use Rattle.portal_base.specs.Outside.{Rose};
ghost use Rattle.harvest_pool.specs.Answers.{answer_of, fault_of};
ghost use Rattle.harvest_pool.specs.Made.{AnswersSteps, IsMade};

use crate::report::RoundFault;
use harvest_sources::{Step, StepReply};
use portal_events::{Event, Refusal, Reply};
use portal_hall::machine::Machine;

/// Makes a step on the machine, and returns its answer. It fails where memory runs out or the machine's count of faults
/// rises, and then nothing changes.
pub(crate) fn make<M: Machine<Event = Event, Reply = Reply>>(
    machine: &mut M,
    step: Step,
) -> Result<StepReply, RoundFault>
    requires { AnswersSteps M.step M.IsOutOfMemory M.IsFault }
    ensures made { IfOk result (λ answer. IsMade M.step (M.core machine.old) step answer (M.core machine.new)) }
    ensures kept { OnErr result (M.core machine.new ≡ M.core machine.old) }
    ensures fault { result ≡ Err RoundFault.Keeper → Rose (M.faults machine.old) (M.faults machine.new) }
    ensures counts { M.faults machine.old ≤ M.faults machine.new }
{
    let event = Event::Harvest(step);
    let (reply, _is_accepted) = machine.act(&event);
    answer_of(reply)
}

/// The answer to a step, or the fault that the reply tells of.
fn answer_of(reply: Reply) -> Result<StepReply, RoundFault>
    ensures { result ≡ answer_of reply }
{
    match reply {
        Reply::Harvest(answer) => Ok(answer),
        Reply::Refused(refusal) => Err(fault_of(&refusal)),
        Reply::Accepted(_) | Reply::Shown(_) => Err(RoundFault::OutOfMemory),
    }
}

/// The fault of a refusal, of which a step has the two for a fault and for no memory alone.
fn fault_of(refusal: &Refusal) -> RoundFault
    ensures { result ≡ fault_of refusal.now }
{
    match refusal {
        Refusal::KeeperFault => RoundFault::Keeper,
        Refusal::NotFound(_)
        | Refusal::NotAuthorized(_)
        | Refusal::Validation(_)
        | Refusal::NameInUse(_)
        | Refusal::OutOfMemory => RoundFault::OutOfMemory,
    }
}
