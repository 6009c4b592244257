//! The command that makes a job of a harvest source and runs a round of harvests, on a portal that is opened over the
//! store for it.
ghost use Rattle.std.specs.Prelude.{◌≡◌, ◌≤◌, [], Err, length, IfOk, IsErrOf, IsTrue, OnErr};
ghost use Rattle.portal_base.specs.Outside.{Rose};
ghost use Rattle.portal_state.specs.Opened.{is_opening};
ghost use Rattle.portal_serve.specs.Rounds.{AreSameFetchers, pool_trace};
ghost use Rattle.portal_serve.specs.Run.{stage_trace};
ghost use Rattle.portal_serve.specs.Stage.{AreSameLoans, trace_of};
ghost use Rattle.portal_start.specs.Fetchers.{UsesFirst, first_fetch};
ghost use Rattle.portal_start.specs.HarvestCommand.{Harvests, HarvestsFrom, MakesJob, RunsRounds, StopsJob};
ghost use Rattle.portal_start.specs.HarvestCommand.{WritesAnswer, status_for_fault, status_for_line, status_for_stop};
ghost use Rattle.portal_start.specs.OverStore.{BeginsOver, WorksOver, store_trace};

use crate::over_store::{Ended, end_with, open_portal};
use crate::start::{Start, start_with};
use harvest_pool::{RoundFault, RoundReport};
use portal_base::caller::Caller;
use portal_base::copy::TryClone;
use portal_base::dictionary::Value;
use portal_base::json_value::Json;
use portal_base::outside::{Clock, Fetcher, Nonces, Sink};
use portal_base::seq::Seq;
use portal_base::text::Text;
use portal_core::portal::Portal;
use portal_keeper::keeper::Keeper;
use portal_serve::calls::{CallStop, make_call};
use portal_serve::round::{make_round, write_report};
use portal_serve::script::ScriptCall;
use portal_serve::stage::Stage;
use portal_status::status::Status;
use portal_words::HarvestOptions;
use std::alloc::Global;

/// The status for a call that stopped.
fn status_of_stop(stop: CallStop) -> Status
    ensures { result ≡ status_for_stop stop }
{
    match stop {
        CallStop::WriteFault => Status::WriteFault,
        CallStop::KeeperFault => Status::KeeperFault,
        CallStop::OutOfMemory => Status::OutOfMemory,
    }
}

/// The status for the line of a round.
fn status_of_line(written: Result<(), CallStop>) -> Status
    ensures { result ≡ status_for_line written }
{
    match written {
        Ok(()) => Status::Done,
        Err(stop) => status_of_stop(stop),
    }
}

/// The status for a round that stopped before its end.
fn status_of_fault(fault: RoundFault) -> Status
    ensures { result ≡ status_for_fault fault }
{
    match fault {
        RoundFault::Keeper => Status::KeeperFault,
        RoundFault::OutOfMemory => Status::OutOfMemory,
    }
}

/// Makes the call for a job of the source, by the caller of the options, and returns its reply's HTTP status.
fn make_job<P: Keeper, O: Sink, C: Clock, N: Nonces>(
    alloc: Global,
    portal: &mut Portal<P>,
    options: &HarvestOptions,
    stage: &mut Stage<'_, '_, '_, O, C, N>,
) -> Result<u16, CallStop>
    ensures made { IfOk result (λ reply. MakesJob options.now reply portal.old.state portal.new.state
        (trace_of O.taken C.given N.given stage.old) (trace_of O.taken C.given N.given stage.new)) }
    ensures stopped { OnErr result (StopsJob options.now portal.old.state portal.new.state
        (trace_of O.taken C.given N.given stage.old) (trace_of O.taken C.given N.given stage.new)) }
    ensures write_fault { result ≡ Err CallStop.WriteFault
        → Rose (O.faults stage.old.output.now) (O.faults stage.new.output.now) }
    ensures counts { O.faults stage.old.output.now ≤ O.faults stage.new.output.now }
    ensures loans { AreSameLoans stage.old stage.new }
    ensures keeper_fault { IsErrOf result CallStop.KeeperFault
        → Rose (P.faults portal.old.keeper) (P.faults portal.new.keeper) }
    ensures keeper_counts { P.faults portal.old.keeper ≤ P.faults portal.new.keeper }
{
    let body = Json::dictionary(alloc, [("source_id", Value::Str(options.source.as_str()))])?;
    let size = body.text(alloc)?.len();
    let call = ScriptCall {
        caller: Caller::Named(options.caller.try_clone(alloc)?),
        action: Text::from_static("harvest_job_create"),
        body,
    };
    make_call(alloc, portal, call, size as u64, stage)
}

/// Writes the line of a round that went to its end. The status tells of the round and of its line.
fn write_round<O: Sink, C: Clock, N: Nonces>(
    alloc: Global,
    answer: &Result<RoundReport, RoundFault>,
    stage: &mut Stage<'_, '_, '_, O, C, N>,
) -> Status
    ensures line { WritesAnswer answer.now (trace_of O.taken C.given N.given stage.old)
        (trace_of O.taken C.given N.given stage.new) result }
    ensures write_fault { result ≡ Status.WriteFault
        → Rose (O.faults stage.old.output.now) (O.faults stage.new.output.now) }
    ensures counts { O.faults stage.old.output.now ≤ O.faults stage.new.output.now }
    ensures loans { AreSameLoans stage.old stage.new }
    ensures keeper_fault { result ≡ Status.KeeperFault → answer.now ≡ Err RoundFault.Keeper }
{
    match answer {
        Ok(report) => status_of_line(write_report(alloc, report, stage)),
        Err(fault) => status_of_fault(*fault),
    }
}

/// Makes a round with this number of workers, or with all fetchers if there are fewer, and writes its line. Returns the
/// status, and the round's answer in a list. The list is made first, so that an answer isn't lost where memory runs
/// out.
fn run_round<P: Keeper, O: Sink, F: Fetcher, C: Clock, N: Nonces>(
    alloc: Global,
    portal: &mut Portal<P>,
    workers: u32,
    fetchers: &mut Vec<F>,
    stage: &mut Stage<'_, '_, '_, O, C, N>,
) -> (Status, Seq<Result<RoundReport, RoundFault>>)
    requires workers { (1 ≤ workers) × (workers ≤ 16) }
    requires fetchers { (1 ≤ length fetchers.old.items) × (length fetchers.old.items ≤ 16) }
    ensures round { RunsRounds result.1 portal.old.state portal.new.state
        (trace_of O.taken C.given N.given stage.old) (trace_of O.taken C.given N.given stage.new)
        (pool_trace F.held F.faults fetchers.old.items []) (pool_trace F.held F.faults fetchers.new.items []) result.0 }
    ensures fetchers { AreSameFetchers F.held F.faults fetchers.old.items fetchers.new.items }
    ensures write_fault { result.0 ≡ Status.WriteFault
        → Rose (O.faults stage.old.output.now) (O.faults stage.new.output.now) }
    ensures counts { O.faults stage.old.output.now ≤ O.faults stage.new.output.now }
    ensures loans { AreSameLoans stage.old stage.new }
    ensures keeper_fault { result.0 ≡ Status.KeeperFault
        → Rose (P.faults portal.old.keeper) (P.faults portal.new.keeper) }
    ensures keeper_counts { P.faults portal.old.keeper ≤ P.faults portal.new.keeper }
{
    let Ok(mut answers) = Vec::with_capacity(alloc, 1) else {
        return (Status::OutOfMemory, Seq::new(alloc));
    };
    let answer = make_round(alloc, portal, fetchers, workers);
    let status = write_round(alloc, &answer, stage);
    answers.push_reserved(answer);
    (status, Seq::from(answers))
}

/// Makes a job of the source, and after the reply 200 a round. Returns the status, and the round's answer in a list,
/// which is empty if no round was made.
fn harvest_source<P: Keeper, O: Sink, F: Fetcher, C: Clock, N: Nonces>(
    alloc: Global,
    portal: &mut Portal<P>,
    options: &HarvestOptions,
    fetchers: &mut Vec<F>,
    stage: &mut Stage<'_, '_, '_, O, C, N>,
) -> (Status, Seq<Result<RoundReport, RoundFault>>)
    requires workers { (1 ≤ options.now.workers) × (options.now.workers ≤ 16) }
    requires fetchers { (1 ≤ length fetchers.old.items) × (length fetchers.old.items ≤ 16) }
    ensures harvests { Harvests options.now portal.old.state portal.new.state
        (trace_of O.taken C.given N.given stage.old) (trace_of O.taken C.given N.given stage.new)
        (pool_trace F.held F.faults fetchers.old.items []) (pool_trace F.held F.faults fetchers.new.items [])
        result.1 result.0 }
    ensures fetchers { AreSameFetchers F.held F.faults fetchers.old.items fetchers.new.items }
    ensures write_fault { result.0 ≡ Status.WriteFault
        → Rose (O.faults stage.old.output.now) (O.faults stage.new.output.now) }
    ensures loans { AreSameLoans stage.old stage.new }
    ensures keeper_fault { result.0 ≡ Status.KeeperFault
        → Rose (P.faults portal.old.keeper) (P.faults portal.new.keeper) }
    ensures keeper_counts { P.faults portal.old.keeper ≤ P.faults portal.new.keeper }
{
    match make_job(alloc, portal, options, stage) {
        Ok(200) => run_round(alloc, portal, options.workers, fetchers, stage),
        Ok(_reply) => (Status::Refused, Seq::new(alloc)),
        Err(stop) => (status_of_stop(stop), Seq::new(alloc)),
    }
}

/// Makes a job of the source and a round, on the portal that `start` opens over the keeper.
fn harvest_over<O: Sink, P: Keeper, F: Fetcher, C: Clock, N: Nonces>(
    alloc: Global,
    start: &Start,
    options: &HarvestOptions,
    output: &mut O,
    keeper: P,
    fetchers: &mut Vec<F>,
    clock: &mut C,
    nonces: &mut N,
) -> Ended<P>
    requires opening { IsTrue (is_opening start.now.opening) }
    requires workers { (1 ≤ options.now.workers) × (options.now.workers ≤ 16) }
    requires fetchers { (1 ≤ length fetchers.old.items) × (length fetchers.old.items ≤ 16) }
    ensures harvests { WorksOver start.now.opening
        (store_trace (P.rows keeper) (P.faults keeper) (P.rows result.keeper) (P.faults result.keeper)) result.status
        (λ state after. Harvests options.now state after
        (stage_trace (O.taken output.old) (C.given clock.old) (N.given nonces.old))
        (stage_trace (O.taken output.new) (C.given clock.new) (N.given nonces.new))
        (pool_trace F.held F.faults fetchers.old.items []) (pool_trace F.held F.faults fetchers.new.items [])
        result.rounds result.status)
        ((stage_trace (O.taken output.new) (C.given clock.new) (N.given nonces.new)
        ≡ stage_trace (O.taken output.old) (C.given clock.old) (N.given nonces.old))
        × (fetchers.new.items ≡ fetchers.old.items) × (result.rounds ≡ [])) }
    ensures fetchers { AreSameFetchers F.held F.faults fetchers.old.items fetchers.new.items }
    ensures write_fault { result.status ≡ Status.WriteFault → Rose (O.faults output.old) (O.faults output.new) }
    ensures keeper_fault { result.status ≡ Status.KeeperFault → Rose (P.faults keeper) (P.faults result.keeper) }
    ensures counts { P.faults keeper ≤ P.faults result.keeper }
{
    match open_portal(alloc, keeper, &start.opening) {
        Ok(mut portal) => {
            let mut stage = Stage {
                output,
                clock,
                nonces,
            };
            let (status, rounds) = harvest_source(
                alloc,
                &mut portal,
                options,
                fetchers,
                &mut stage,
            );
            end_with(portal, status, rounds)
        }
        Err(ended) => ended,
    }
}

/// Carries out `harvest`: makes a job of the source that the options name, as a call of their caller, and after the
/// reply 200 a round of harvests, on the portal that the options name, over the keeper. The call's size is the length
/// of its body's compact text. Output takes a line for the call and a line for the round. The first fetcher fetches the
/// portal file.
pub fn harvest_from<O: Sink, P: Keeper, F: Fetcher, C: Clock, N: Nonces>(
    alloc: Global,
    options: &HarvestOptions,
    output: &mut O,
    keeper: P,
    fetchers: &mut Vec<F>,
    clock: &mut C,
    nonces: &mut N,
) -> Ended<P>
    requires workers { (1 ≤ options.now.workers) × (options.now.workers ≤ 16) }
    requires fetchers { (1 ≤ length fetchers.old.items) × (length fetchers.old.items ≤ 16) }
    ensures harvests { BeginsOver (first_fetch F.held F.faults fetchers.old.items fetchers.new.items) options.now.portal
        (store_trace (P.rows keeper) (P.faults keeper) (P.rows result.keeper) (P.faults result.keeper)) result.status
        (λ beginning state after. HarvestsFrom F.held F.faults options.now state after
        (stage_trace (O.taken output.old) (C.given clock.old) (N.given nonces.old))
        (stage_trace (O.taken output.new) (C.given clock.new) (N.given nonces.new))
        fetchers.old.items fetchers.new.items result.rounds result.status)
        ((stage_trace (O.taken output.new) (C.given clock.new) (N.given nonces.new)
        ≡ stage_trace (O.taken output.old) (C.given clock.old) (N.given nonces.old))
        × UsesFirst F.held F.faults options.now.portal fetchers.old.items fetchers.new.items × (result.rounds ≡ [])) }
    ensures fetchers { AreSameFetchers F.held F.faults fetchers.old.items fetchers.new.items }
    ensures write_fault { result.status ≡ Status.WriteFault → Rose (O.faults output.old) (O.faults output.new) }
    ensures keeper_fault { result.status ≡ Status.KeeperFault → Rose (P.faults keeper) (P.faults result.keeper) }
    ensures counts { P.faults keeper ≤ P.faults result.keeper }
{
    match start_with(alloc, fetchers, &options.portal) {
        Ok(start) => harvest_over(
            alloc, &start, options, output, keeper, fetchers, clock, nonces,
        ),
        Err(status) => Ended {
            status,
            keeper,
            rounds: Seq::new(alloc),
        },
    }
}
