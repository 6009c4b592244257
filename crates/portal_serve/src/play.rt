//! Playing a script: the loop over its lines, which holds one line and the portal.
ghost use Rattle.std.specs.Prelude.{◌≡◌, ◌≢◌, ◌↔◌, ◌<◌, ◌≤◌, ℕ, List, [], ◌∷◌, Some, None, Ok, Err, length};
ghost use Rattle.std.specs.Prelude.{IfSome, OnOk, OnErr, false};
ghost use Rattle.portal_base.specs.Outside.{Rose, Takes, TakesPrefix};
ghost use Rattle.portal_serve.specs.Played.{ProcessesLines, StopsLines, TakesTurn, EndsTurn, StopsTurn, FailsTurn};
ghost use Rattle.portal_serve.specs.Played.{unless_empty};
ghost use Rattle.portal_serve.specs.Rounds.{AreSameFetchers, pool_trace};
ghost use Rattle.portal_serve.specs.Stopped.{end_of_call, end_of_fault, begun_limit};
ghost use Rattle.portal_serve.specs.Run.{device_trace, with_input};
ghost use Rattle.portal_serve.specs.Stage.{AreSameLoans, trace_of};
ghost use Rattle.portal_lines.specs.Lines.{bytes_left};
ghost use Rattle.portal_serve.specs.Transcript.{early_line};
ghost use Rattle.portal_serve.specs.Run.{PlaysAll, PlaysPart, PlaysRead, GaveTooMuch};
ghost use Rattle.portal_serve.specs.Script.{Round, parsed_line};

use crate::calls::{CallStop, make_call, write_line};
use crate::line::render_line;
use crate::round::{make_round, write_report};
use crate::script::{LONGEST_LINE, ScriptLine, read_line};
use crate::stage::Stage;
use action_api::early::Early;
use harvest_pool::{RoundFault, RoundReport};
use portal_base::outside::{Clock, Fetcher, Nonces, Sink, Source};
use portal_base::seq::Seq;
use portal_core::portal::Portal;
use portal_keeper::keeper::Keeper;
use portal_lines::lines::{LineFault, LineReader, NextLine};
use std::alloc::Global;

/// The limit of bytes that input may give: 2^40.
const INPUT_LIMIT: u64 = 1 << 40;

/// How playing a script ended.
#[derive(Clone, Copy, Debug, PartialEq, Eq)]
pub enum PlayEnd {
    /// Input was read to its end.
    Done,
    /// Input's count of faults rose.
    ReadFault,
    /// Output's count of faults rose.
    WriteFault,
    /// The keeper's count of faults rose.
    KeeperFault,
    /// Input gave more than 2^40 bytes.
    TooLong,
    /// Memory ran out.
    OutOfMemory,
}

/// Plays the round that a line asks for. There is room for its report before it begins, so the report of each round that
/// goes to its end is kept.
fn play_round<P: Keeper, F: Fetcher, O: Sink, C: Clock, N: Nonces>(
    alloc: Global,
    portal: &mut Portal<P>,
    workers: u32,
    fetchers: &mut Vec<F>,
    reports: &mut Vec<RoundReport>,
    stage: &mut Stage<'_, '_, '_, O, C, N>,
) -> Result<(), CallStop>
    requires workers { (1 ≤ workers) × (workers ≤ 16) }
    requires fetchers { (1 ≤ length fetchers.old.items) × (length fetchers.old.items ≤ 16) }
    ensures ok { (line : List ℕ) → parsed_line line ≡ Ok (Round workers) →
        OnOk result (ProcessesLines portal.old.state (line ∷ []) portal.new.state
        (trace_of O.taken C.given N.given stage.old) (trace_of O.taken C.given N.given stage.new)
        (pool_trace F.held F.faults fetchers.old.items reports.old.items)
        (pool_trace F.held F.faults fetchers.new.items reports.new.items)) }
    ensures cut { (line : List ℕ) → parsed_line line ≡ Ok (Round workers) →
        OnErr result (StopsLines portal.old.state (line ∷ []) portal.new.state
        (trace_of O.taken C.given N.given stage.old) (trace_of O.taken C.given N.given stage.new)
        (pool_trace F.held F.faults fetchers.old.items reports.old.items)
        (pool_trace F.held F.faults fetchers.new.items reports.new.items)) }
    ensures fetchers { AreSameFetchers F.held F.faults fetchers.old.items fetchers.new.items }
    ensures fault { result ≡ Err CallStop.WriteFault
        → Rose (O.faults stage.old.output.now) (O.faults stage.new.output.now) }
    ensures counts { O.faults stage.old.output.now ≤ O.faults stage.new.output.now }
    ensures loans { AreSameLoans stage.old stage.new }
    ensures keeper_fault { result ≡ Err CallStop.KeeperFault
        → Rose (P.faults portal.old.keeper) (P.faults portal.new.keeper) }
    ensures keeper_counts { P.faults portal.old.keeper ≤ P.faults portal.new.keeper }
{
    if reports.reserve(1).is_err() {
        return Err(CallStop::OutOfMemory);
    }
    match make_round(alloc, portal, fetchers, workers) {
        Ok(report) => {
            let written = write_report(alloc, &report, stage);
            reports.push_reserved(report);
            written
        }
        Err(RoundFault::Keeper) => Err(CallStop::KeeperFault),
        Err(RoundFault::OutOfMemory) => Err(CallStop::OutOfMemory),
    }
}

/// Writes the line for a line that asks for nothing.
fn write_early<O: Sink, C: Clock, N: Nonces>(
    alloc: Global,
    early: Early,
    stage: &mut Stage<'_, '_, '_, O, C, N>,
) -> Result<(), CallStop>
    ensures ok { OnOk result (Takes (O.taken stage.old.output.now) (early_line early) (O.taken stage.new.output.now)) }
    ensures failed { OnErr result (TakesPrefix (O.taken stage.old.output.now) (early_line early)
        (O.taken stage.new.output.now)) }
    ensures fault { result ≡ Err CallStop.WriteFault
        → Rose (O.faults stage.old.output.now) (O.faults stage.new.output.now) }
    ensures other { result ≢ Err CallStop.KeeperFault }
    ensures counts { O.faults stage.old.output.now ≤ O.faults stage.new.output.now }
    ensures clock { stage.new.clock.now ≡ stage.old.clock.now }
    ensures nonces { stage.new.nonces.now ≡ stage.old.nonces.now }
    ensures loans { AreSameLoans stage.old stage.new }
{
    let text = render_line(alloc, None, &Err(early))?;
    write_line(stage, text.as_slice())
}

/// Processes a line, and skips an empty one.
fn play_line<P: Keeper, F: Fetcher, O: Sink, C: Clock, N: Nonces>(
    alloc: Global,
    portal: &mut Portal<P>,
    line: &[u8],
    fetchers: &mut Vec<F>,
    reports: &mut Vec<RoundReport>,
    stage: &mut Stage<'_, '_, '_, O, C, N>,
) -> Result<(), CallStop>
    requires longest { length line.now ≤ LONGEST_LINE }
    requires fetchers { (1 ≤ length fetchers.old.items) × (length fetchers.old.items ≤ 16) }
    ensures ok { OnOk result (ProcessesLines portal.old.state (unless_empty line.now) portal.new.state
        (trace_of O.taken C.given N.given stage.old) (trace_of O.taken C.given N.given stage.new)
        (pool_trace F.held F.faults fetchers.old.items reports.old.items)
        (pool_trace F.held F.faults fetchers.new.items reports.new.items)) }
    ensures cut { OnErr result (StopsLines portal.old.state (unless_empty line.now) portal.new.state
        (trace_of O.taken C.given N.given stage.old) (trace_of O.taken C.given N.given stage.new)
        (pool_trace F.held F.faults fetchers.old.items reports.old.items)
        (pool_trace F.held F.faults fetchers.new.items reports.new.items)) }
    ensures fetchers { AreSameFetchers F.held F.faults fetchers.old.items fetchers.new.items }
    ensures fault { result ≡ Err CallStop.WriteFault
        → Rose (O.faults stage.old.output.now) (O.faults stage.new.output.now) }
    ensures counts { O.faults stage.old.output.now ≤ O.faults stage.new.output.now }
    ensures loans { AreSameLoans stage.old stage.new }
    ensures keeper_fault { result ≡ Err CallStop.KeeperFault
        → Rose (P.faults portal.old.keeper) (P.faults portal.new.keeper) }
    ensures keeper_counts { P.faults portal.old.keeper ≤ P.faults portal.new.keeper }
{
    if line.is_empty() {
        return Ok(());
    }
    match read_line(alloc, line) {
        Ok(ScriptLine::Call(call)) => {
            match make_call(alloc, portal, call, line.len() as u64, stage) {
                Ok(_status) => Ok(()),
                Err(stop) => Err(stop),
            }
        }
        Ok(ScriptLine::Round(workers)) => {
            play_round(alloc, portal, workers, fetchers, reports, stage)
        }
        Err(Early::OutOfMemory) => Err(CallStop::OutOfMemory),
        Err(early) => write_early(alloc, early, stage),
    }
}

/// How playing ends where processing a line stops.
fn end_of_call(stop: CallStop) -> PlayEnd
    ensures { result ≡ end_of_call stop }
{
    match stop {
        CallStop::WriteFault => PlayEnd::WriteFault,
        CallStop::KeeperFault => PlayEnd::KeeperFault,
        CallStop::OutOfMemory => PlayEnd::OutOfMemory,
    }
}

/// How playing ends where the next line can't be read.
fn end_of_fault(fault: LineFault) -> PlayEnd
    ensures { result ≡ end_of_fault fault }
{
    match fault {
        LineFault::Failed => PlayEnd::ReadFault,
        LineFault::TooMuch => PlayEnd::TooLong,
        LineFault::OutOfMemory => PlayEnd::OutOfMemory,
        LineFault::EarlierFault => PlayEnd::ReadFault,
    }
}

/// Processes the next line of input. If playing ended with it, returns how.
fn play_next<P: Keeper, S: Source, F: Fetcher, O: Sink, C: Clock, N: Nonces>(
    alloc: Global,
    portal: &mut Portal<P>,
    reader: &mut LineReader,
    input: &mut S,
    fetchers: &mut Vec<F>,
    reports: &mut Vec<RoundReport>,
    stage: &mut Stage<'_, '_, '_, O, C, N>,
) -> Option<PlayEnd>
    requires longest { reader.old.longest ≡ LONGEST_LINE }
    requires goes_on { reader.old.has_failed ≡ false }
    requires fetchers { (1 ≤ length fetchers.old.items) × (length fetchers.old.items ≤ 16) }
    ensures longest { reader.new.longest ≡ reader.old.longest }
    ensures limit { reader.new.limit ≡ reader.old.limit }
    ensures goes_on { result ≡ None → reader.new.has_failed ≡ false }

    ensures more { result ≡ None → TakesTurn portal.old.state portal.new.state reader.old reader.new
        (with_input (S.to_come input.old) (trace_of O.taken C.given N.given stage.old))
        (with_input (S.to_come input.new) (trace_of O.taken C.given N.given stage.new))
        (pool_trace F.held F.faults fetchers.old.items reports.old.items)
        (pool_trace F.held F.faults fetchers.new.items reports.new.items) }
    ensures falls { result ≡ None → bytes_left reader.new < bytes_left reader.old }
    ensures end { result ≡ Some PlayEnd.Done → EndsTurn portal.old.state portal.new.state reader.old reader.new
        (with_input (S.to_come input.old) (trace_of O.taken C.given N.given stage.old))
        (with_input (S.to_come input.new) (trace_of O.taken C.given N.given stage.new))
        (pool_trace F.held F.faults fetchers.old.items reports.old.items)
        (pool_trace F.held F.faults fetchers.new.items reports.new.items) }
    ensures within { result ≡ Some PlayEnd.Done → reader.new.received ≤ reader.new.limit }

    ensures cut { IfSome result (λ end. end ≢ PlayEnd.Done → StopsTurn (begun_limit end) portal.old.state portal.new.state
        reader.old reader.new
        (with_input (S.to_come input.old) (trace_of O.taken C.given N.given stage.old))
        (with_input (S.to_come input.new) (trace_of O.taken C.given N.given stage.new))
        (pool_trace F.held F.faults fetchers.old.items reports.old.items)
        (pool_trace F.held F.faults fetchers.new.items reports.new.items)) }
    ensures unended { result ≡ Some PlayEnd.ReadFault → FailsTurn portal.old.state portal.new.state reader.old reader.new
        (with_input (S.to_come input.old) (trace_of O.taken C.given N.given stage.old))
        (with_input (S.to_come input.new) (trace_of O.taken C.given N.given stage.new))
        (pool_trace F.held F.faults fetchers.old.items reports.old.items)
        (pool_trace F.held F.faults fetchers.new.items reports.new.items) }
    ensures read_fault { result ≡ Some PlayEnd.ReadFault → Rose (S.faults input.old) (S.faults input.new) }
    ensures write_fault { result ≡ Some PlayEnd.WriteFault
        → Rose (O.faults stage.old.output.now) (O.faults stage.new.output.now) }
    ensures too_long { (result ≡ Some PlayEnd.TooLong) ↔ (reader.new.limit < reader.new.received) }
    ensures reads { S.faults input.old ≤ S.faults input.new }
    ensures writes { O.faults stage.old.output.now ≤ O.faults stage.new.output.now }
    ensures fetchers { AreSameFetchers F.held F.faults fetchers.old.items fetchers.new.items }
    ensures loans { AreSameLoans stage.old stage.new }
    ensures keeper_fault { result ≡ Some PlayEnd.KeeperFault
        → Rose (P.faults portal.old.keeper) (P.faults portal.new.keeper) }
    ensures keeper_counts { P.faults portal.old.keeper ≤ P.faults portal.new.keeper }
{
    match reader.next(input) {
        Ok(NextLine::Line) => match play_line(
            alloc,
            portal,
            reader.line(),
            fetchers,
            reports,
            stage,
        ) {
            Ok(()) => None,
            Err(stop) => Some(end_of_call(stop)),
        },
        Ok(NextLine::TooLong) => match write_early(alloc, Early::TooLong, stage) {
            Ok(()) => None,
            Err(stop) => Some(end_of_call(stop)),
        },
        Ok(NextLine::End) => Some(PlayEnd::Done),
        Err(fault) => Some(end_of_fault(fault)),
    }
}

/// Processes the lines of input in order.
fn play_lines<P: Keeper, S: Source, F: Fetcher, O: Sink, C: Clock, N: Nonces>(
    alloc: Global,
    portal: &mut Portal<P>,
    input: &mut S,
    fetchers: &mut Vec<F>,
    reports: &mut Vec<RoundReport>,
    stage: &mut Stage<'_, '_, '_, O, C, N>,
) -> PlayEnd
    requires { (1 ≤ length fetchers.old.items) × (length fetchers.old.items ≤ 16) }
    ensures done { result ≡ PlayEnd.Done → (whole : List ℕ) → S.to_come input.old ≡ Some whole
        → PlaysAll portal.old.state whole portal.new.state
        (with_input (S.to_come input.old) (trace_of O.taken C.given N.given stage.old))
        (with_input (S.to_come input.new) (trace_of O.taken C.given N.given stage.new))
        (pool_trace F.held F.faults fetchers.old.items reports.old.items)
        (pool_trace F.held F.faults fetchers.new.items reports.new.items) }
    ensures cut { result ≢ PlayEnd.Done → (whole : List ℕ) → S.to_come input.old ≡ Some whole
        → PlaysPart (begun_limit result) portal.old.state whole portal.new.state
        (with_input (S.to_come input.old) (trace_of O.taken C.given N.given stage.old))
        (with_input (S.to_come input.new) (trace_of O.taken C.given N.given stage.new))
        (pool_trace F.held F.faults fetchers.old.items reports.old.items)
        (pool_trace F.held F.faults fetchers.new.items reports.new.items) }

    ensures unended { result ≡ PlayEnd.ReadFault → (whole : List ℕ) → S.to_come input.old ≡ Some whole
        → PlaysRead portal.old.state whole portal.new.state
        (with_input (S.to_come input.old) (trace_of O.taken C.given N.given stage.old))
        (with_input (S.to_come input.new) (trace_of O.taken C.given N.given stage.new))
        (pool_trace F.held F.faults fetchers.old.items reports.old.items)
        (pool_trace F.held F.faults fetchers.new.items reports.new.items) }
    ensures read_fault { result ≡ PlayEnd.ReadFault → Rose (S.faults input.old) (S.faults input.new) }
    ensures write_fault { result ≡ PlayEnd.WriteFault
        → Rose (O.faults stage.old.output.now) (O.faults stage.new.output.now) }
    ensures too_long { (whole : List ℕ) → S.to_come input.old ≡ Some whole →
        ((result ≡ PlayEnd.TooLong) ↔ GaveTooMuch whole (S.to_come input.new)) }
    ensures fetchers { AreSameFetchers F.held F.faults fetchers.old.items fetchers.new.items }
    ensures loans { AreSameLoans stage.old stage.new }
    ensures keeper_fault { result ≡ PlayEnd.KeeperFault
        → Rose (P.faults portal.old.keeper) (P.faults portal.new.keeper) }
    ensures keeper_counts { P.faults portal.old.keeper ≤ P.faults portal.new.keeper }
{
    let mut reader = match LineReader::new(alloc, LONGEST_LINE, INPUT_LIMIT) {
        Ok(reader) => reader,
        Err(_refused) => return PlayEnd::OutOfMemory,
    };
    'lines: loop {
        if let Some(end) = play_next(alloc, portal, &mut reader, input, fetchers, reports, stage) {
            return end;
        }
    }
}

/// Plays the script on input, and writes its transcript to output. It holds one line of the input, and the bytes of one
/// read. The fetchers are those of the workers of its rounds. It returns how it ended, and the reports of the rounds that
/// went to their end, in order.
pub fn play<S: Source, O: Sink, P: Keeper, F: Fetcher, C: Clock, N: Nonces>(
    alloc: Global,
    portal: &mut Portal<P>,
    input: &mut S,
    output: &mut O,
    fetchers: &mut Vec<F>,
    clock: &mut C,
    nonces: &mut N,
) -> (PlayEnd, Seq<RoundReport>)
    requires { (1 ≤ length fetchers.old.items) × (length fetchers.old.items ≤ 16) }
    // Where input is observable, all of it was read, output took its transcript, the portal is in the state in which the
    // script ends, and the reports are those of the script's rounds.
    ensures done { result.0 ≡ PlayEnd.Done → (whole : List ℕ) → S.to_come input.old ≡ Some whole
        → PlaysAll portal.old.state whole portal.new.state
        (device_trace (S.to_come input.old) (O.taken output.old) (C.given clock.old) (N.given nonces.old))
        (device_trace (S.to_come input.new) (O.taken output.new) (C.given clock.new) (N.given nonces.new))
        (pool_trace F.held F.faults fetchers.old.items [])
        (pool_trace F.held F.faults fetchers.new.items result.1) }
    // Otherwise the moments and nonces drawn, the rounds made, the bytes that output took and the portal's state belong to
    // one position in the script.
    ensures cut { result.0 ≢ PlayEnd.Done → (whole : List ℕ) → S.to_come input.old ≡ Some whole
        → PlaysPart (begun_limit result.0) portal.old.state whole portal.new.state
        (device_trace (S.to_come input.old) (O.taken output.old) (C.given clock.old) (N.given nonces.old))
        (device_trace (S.to_come input.new) (O.taken output.new) (C.given clock.new) (N.given nonces.new))
        (pool_trace F.held F.faults fetchers.old.items [])
        (pool_trace F.held F.faults fetchers.new.items result.1) }

    // Where input failed, each complete line was processed.
    ensures unended { result.0 ≡ PlayEnd.ReadFault → (whole : List ℕ) → S.to_come input.old ≡ Some whole
        → PlaysRead portal.old.state whole portal.new.state
        (device_trace (S.to_come input.old) (O.taken output.old) (C.given clock.old) (N.given nonces.old))
        (device_trace (S.to_come input.new) (O.taken output.new) (C.given clock.new) (N.given nonces.new))
        (pool_trace F.held F.faults fetchers.old.items [])
        (pool_trace F.held F.faults fetchers.new.items result.1) }
    ensures read_fault { result.0 ≡ PlayEnd.ReadFault → Rose (S.faults input.old) (S.faults input.new) }
    ensures write_fault { result.0 ≡ PlayEnd.WriteFault → Rose (O.faults output.old) (O.faults output.new) }
    ensures too_long { (whole : List ℕ) → S.to_come input.old ≡ Some whole →
        ((result.0 ≡ PlayEnd.TooLong) ↔ GaveTooMuch whole (S.to_come input.new)) }
    ensures fetchers { AreSameFetchers F.held F.faults fetchers.old.items fetchers.new.items }
    ensures keeper_fault { result.0 ≡ PlayEnd.KeeperFault
        → Rose (P.faults portal.old.keeper) (P.faults portal.new.keeper) }
    ensures keeper_counts { P.faults portal.old.keeper ≤ P.faults portal.new.keeper }
{
    let mut stage = Stage {
        output,
        clock,
        nonces,
    };
    let mut reports = Vec::new(alloc);
    let end = play_lines(alloc, portal, input, fetchers, &mut reports, &mut stage);
    (end, Seq::from(reports))
}
