//! The ends of a round's jobs.
ghost use Rattle.std.specs.Prelude.{◌≡◌, ◌≤◌, Err, is_ok};
ghost use Rattle.portal_base.specs.Outside.{Rose};
ghost use Rattle.harvest_pool.specs.Made.{AnswersSteps};
ghost use Rattle.harvest_pool.specs.Working.{EndsJobs};

use crate::making::make;
use crate::report::{RoundFault, push_report};
use harvest_sources::{SourceReport, Step};
use portal_base::seq::Seq;
use portal_base::text::Text;
use portal_events::{Event, Reply};
use portal_hall::machine::Machine;

/// Ends these jobs, and adds their reports. For a job that broke there is nothing to end, and nothing changes.
pub(crate) fn end_jobs<M: Machine<Event = Event, Reply = Reply>>(
    machine: &mut M,
    jobs: Seq<Text>,
    reports: &mut Vec<SourceReport>,
) -> Result<(), RoundFault>
    requires { AnswersSteps M.step M.IsOutOfMemory M.IsFault }
    ensures work { EndsJobs M.step jobs (M.core machine.old) (M.core machine.new) reports.old.items reports.new.items
        (is_ok result) }
    ensures fault { result ≡ Err RoundFault.Keeper → Rose (M.faults machine.old) (M.faults machine.new) }
    ensures counts { M.faults machine.old ≤ M.faults machine.new }
{
    for job in jobs.into_vec() {
        let answer = make(machine, Step::End(job))?;
        push_report(reports, answer)?;
    }
    Ok(())
}
