//! Rounds of harvests on a portal, and their lines of the transcript.
ghost use Rattle.std.specs.Prelude.{◌≡◌, ◌≢◌, ◌≤◌, ℕ, Err, IfOk, OnOk, OnErr, Result, length, slice_index_or};
ghost use Rattle.std.specs.Result.{result_ok};
ghost use Rattle.portal_base.specs.Outside.{Rose, Takes, TakesPrefix};
ghost use Rattle.harvest_pool.specs.Made.{AnswersSteps};
ghost use Rattle.harvest_pool.specs.Working.{IsRound};
ghost use Rattle.portal_serve.specs.Rounds.{AreSameFetchers, Converts, MakesRound, faults_of_first, held_by_first};
ghost use Rattle.portal_serve.specs.Rounds.{report_line};
ghost use Rattle.portal_serve.specs.Stage.{AreSameLoans};

use crate::calls::{CallStop, write_line};
use crate::stage::Stage;
use harvest_pool::{RoundFault, RoundReport, round};
use portal_base::outside::{Clock, Fetcher, Nonces, Sink};
use portal_base::seq::Seq;
use portal_core::portal::Portal;
use portal_events::{Event, Reply};
use portal_hall::machine::Machine;
use portal_keeper::keeper::Keeper;
use std::alloc::{AllocError, Global};

/// Makes a round on the machine. The type of its report is a parameter, since a call on the portal of any keeper that names
/// the report's own type isn't covered by the borrow checker.
fn round_on<M: Machine<Event = Event, Reply = Reply>, F: Fetcher, R: From<RoundReport>>(
    alloc: Global,
    machine: &mut M,
    fetchers: &mut Vec<F>,
    workers: u32,
) -> Result<R, RoundFault>
    requires machine { AnswersSteps M.step M.IsOutOfMemory M.IsFault }
    requires workers { (1 ≤ workers) × (workers ≤ 16) × (workers ≤ length fetchers.old.items) }
    ensures round { (d : F) → (given : Result RoundReport RoundFault) × Converts R.from_gives given result ×
        IsRound M.step (F.held (slice_index_or fetchers.old.items 0 d))
        (M.core machine.old) (M.core machine.new) (F.faults (slice_index_or fetchers.old.items 0 d))
        (F.faults (slice_index_or fetchers.new.items 0 d)) given }
    ensures fault { result ≡ Err RoundFault.Keeper → Rose (M.faults machine.old) (M.faults machine.new) }
    ensures counts { M.faults machine.old ≤ M.faults machine.new }
    ensures fetchers { AreSameFetchers F.held F.faults fetchers.old.items fetchers.new.items }
{
    match round(alloc, machine, fetchers, workers) {
        Ok(report) => Ok(R::from(report)),
        Err(fault) => Err(fault),
    }
}

/// Makes a round of harvests on the portal by this number of workers, or by as many as there are fetchers if those are
/// fewer. The state after it is the portal's with the sources and datasets that the round left. After a fault these are the
/// ones that its first steps left.
pub fn make_round<P: Keeper, F: Fetcher>(
    alloc: Global,
    portal: &mut Portal<P>,
    fetchers: &mut Vec<F>,
    workers: u32,
) -> Result<RoundReport, RoundFault>
    requires workers { (1 ≤ workers) × (workers ≤ 16) }
    requires fetchers { (1 ≤ length fetchers.old.items) × (length fetchers.old.items ≤ 16) }
    ensures makes { MakesRound (held_by_first F.held fetchers.old.items) portal.old.state portal.new.state
        (faults_of_first F.faults fetchers.old.items) (faults_of_first F.faults fetchers.new.items) (result_ok result) }
    ensures fetchers { AreSameFetchers F.held F.faults fetchers.old.items fetchers.new.items }
    ensures keeper_fault { result ≡ Err RoundFault.Keeper
        → Rose (P.faults portal.old.keeper) (P.faults portal.new.keeper) }
    ensures keeper_counts { P.faults portal.old.keeper ≤ P.faults portal.new.keeper }
{
    let available = fetchers.len() as u32;
    round_on(alloc, portal, fetchers, workers.min(available))
}

/// Renders the line for the report of a round: `round `, the text of its dictionary and a line feed.
fn render_report(alloc: Global, report: &RoundReport) -> Result<Seq<u8>, AllocError>
    ensures { IfOk result (λ line. line ≡ report_line report.now) }
{
    let dictionary = report.to_json(alloc)?;
    let text = dictionary.text(alloc)?;
    let text = text.as_str();
    let line = format!(in alloc; "round {text}\n")?;
    Ok(Seq::from(line.into_bytes()))
}

/// Writes the line for the report of a round. Where it stops, output has taken some prefix of the line.
pub fn write_report<O: Sink, C: Clock, N: Nonces>(
    alloc: Global,
    report: &RoundReport,
    stage: &mut Stage<'_, '_, '_, O, C, N>,
) -> Result<(), CallStop>
    ensures ok { OnOk result (Takes (O.taken stage.old.output.now) (report_line report.now)
        (O.taken stage.new.output.now)) }
    ensures failed { OnErr result (TakesPrefix (O.taken stage.old.output.now) (report_line report.now)
        (O.taken stage.new.output.now)) }
    ensures fault { result ≡ Err CallStop.WriteFault
        → Rose (O.faults stage.old.output.now) (O.faults stage.new.output.now) }
    ensures other { result ≢ Err CallStop.KeeperFault }
    ensures counts { O.faults stage.old.output.now ≤ O.faults stage.new.output.now }
    ensures clock { stage.new.clock.now ≡ stage.old.clock.now }
    ensures nonces { stage.new.nonces.now ≡ stage.old.nonces.now }
    ensures loans { AreSameLoans stage.old stage.new }
{
    let line = render_report(alloc, report)?;
    write_line(stage, line.as_slice())
}
