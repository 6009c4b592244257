//! What a round reports, and why it may stop before its end.
ghost use Rattle.std.specs.Prelude.{◌≡◌, ◌++◌, map, IfOk, OnOk, option_to_list};
ghost use Rattle.harvest_sources.specs.ReportJson.{report_dictionary};
ghost use Rattle.harvest_pool.specs.RoundJson.{round_dictionary};
ghost use Rattle.harvest_pool.specs.Rounds.{report_of};

use harvest_sources::{SourceReport, StepReply, report_json};
use portal_base::dictionary::Value;
use portal_base::json_value::Json;
use portal_base::seq::Seq;
use std::alloc::{AllocError, Global};

/// The report of a round.
#[derive(Drop)]
pub struct RoundReport {
    /// The reports on the jobs that ended in the round, ascending by the names of their sources.
    pub sources: Seq<SourceReport>,
}

impl RoundReport {
    /// The dictionary of the report, by which a transcript tells of the round.
    pub fn to_json(&self, alloc: Global) -> Result<Json, AllocError>
        ensures { IfOk result (λ json. json ≡ round_dictionary self.now) }
    {
        let sources = report_dictionaries(alloc, &self.sources)?;
        Json::dictionary(alloc, [("sources", Value::List(sources))])
    }
}

/// The dictionaries of reports on jobs.
fn report_dictionaries(alloc: Global, reports: &Seq<SourceReport>) -> Result<Seq<Json>, AllocError>
    ensures { IfOk result (λ list. list ≡ map report_dictionary reports.now) }
{
    let mut list = Vec::with_capacity(alloc, reports.len())?;
    for report in reports.as_slice() {
        list.push(report_json(alloc, report)?)?;
    }
    Ok(Seq::from(list))
}

/// Why a round stopped before its end. What it did stays, and a later round goes on with the jobs that haven't ended.
#[derive(Clone, Copy, Debug, PartialEq, Eq)]
pub enum RoundFault {
    /// The machine's count of faults rose: its keeper failed to keep a step.
    Keeper,
    /// Memory ran out.
    OutOfMemory,
}

impl From<AllocError> for RoundFault {
    ghost use Rattle.std.specs.Prelude.{◌≡◌};
    ghost use Rattle.harvest_pool.specs.declared.report.RoundFault.TheVariants.{OutOfMemory};

    ghost from_gives = { λ _ fault. fault ≡ OutOfMemory };

    fn from(_refused: AllocError) -> RoundFault {
        RoundFault::OutOfMemory
    }
}

/// Adds the report of the job that ended, if the answer has one.
pub(crate) fn push_report(
    reports: &mut Vec<SourceReport>,
    answer: StepReply,
) -> Result<(), AllocError>
    ensures { OnOk result (reports.new.items ≡ reports.old.items ++ option_to_list (report_of answer)) }
{
    if let StepReply::Ended(report) = answer {
        reports.push(report)?;
    }
    Ok(())
}
