//! The portal's program: `portal play` plays the script on standard input and writes its transcript to standard output,
//! `portal load` loads the CSV on standard input, `portal harvest` harvests a source, `portal serve` serves HTTP on
//! this machine, and `portal report` writes a report to standard output. On every status but 0 it writes a line on
//! standard error. What the portal keeps is in the file that `PORTAL_STORE` names, or in memory.
#![tactic(auto)]

ghost use Rattle.std.specs.Prelude.{◌≡◌, ◌≢◌, [], ◌∷◌, false, length, map, string_bytes, All, Ok};
ghost use Rattle.std.specs.Prelude.{IfOk, IfErr, OnErr};
ghost use Rattle.portal_words.specs.Commands.{command_of};
ghost use Rattle.portal_cli.specs.Words.{ReportsWords};
ghost use Rattle.portal_status.specs.Status.{status_line, TakesOrFails};

pub mod run;

use harvest_pool::{RoundFault, RoundReport};
use harvest_sources::{JobState, SourceReport};
use portal_base::counted::{CountNonces, ScriptClock};
use portal_base::outside::{Clock, Desk, Listener, Nonces, Sink};
use portal_base::seq::Seq;
use portal_base::std_adapters::{StdSink, StdSource};
use portal_base::text::Text;
pub use portal_devices::clock::HostClock;
use portal_devices::environment::{is_real_time, listener, random_seed, words};
pub use portal_devices::files::HostFetcher;
pub use portal_devices::net::{TcpDoor, TcpLink};
pub use portal_devices::nonces::ChaChaNonces;
pub use portal_load::load::load;
pub use portal_status::status::Status;
use portal_status::status::report;
use portal_store::run_store::{is_store_large, store_for};
use portal_words::first_word::is_timed;
use portal_words::{Command, WordsFault};
use run::run;
use std::alloc::{AllocError, Global};
use std::io::{self, IsTerminal};
use std::process::ExitCode;

/// A list of this desk alone.
fn one_desk<L: Listener + Drop, C: Drop, N: Drop>(
    alloc: Global,
    desk: Desk<L, C, N>,
) -> Result<Vec<Desk<L, C, N>>, AllocError>
    requires { L.is_out desk.listener ≡ false }
    ensures alone { IfOk result (λ desks. desks.items ≡ desk ∷ []) }
    ensures home { IfOk result (λ desks. All (λ desk. L.is_out desk.listener ≡ false) desks.items) }
{
    let mut desks = Vec::new(alloc);
    desks.push(desk)?;
    Ok(desks)
}

/// Tells whoever waits at a terminal that a large store is read first. A terminal that takes no line doesn't matter.
fn announce_reading(rt: &HostRuntime) {
    if rt.stderr().is_terminal() && is_store_large(rt) {
        let _unsaid = eprintln!(rt; "portal: reading the store").is_err();
    }
}

/// The source that the words ask to harvest, if somebody waits for it at a terminal.
fn watched_source(rt: &HostRuntime, words: &[String]) -> Option<Text> {
    if !rt.stderr().is_terminal() {
        return None;
    }
    match Command::read(rt.alloc(), words) {
        Ok(Command::Harvest(options)) => Some(options.source),
        _ => None,
    }
}

/// Tells whoever waits at a terminal which source is harvested. A terminal that takes no line doesn't matter.
fn announce_harvest(rt: &HostRuntime, watched: &Option<Text>) {
    if let Some(source) = watched {
        let source = source.as_str();
        let _unsaid = eprintln!(rt; "portal: harvesting {source}").is_err();
    }
}

/// Tells how many of the datasets that a source lists were read.
fn tell_source(rt: &HostRuntime, report: &SourceReport) {
    let source = report.source.as_str();
    let told = match &report.state {
        JobState::Broken(_cause) => eprintln!(rt; "portal: {source}: broken"),
        _ => {
            let read = report
                .added
                .saturating_add(report.updated)
                .saturating_add(report.unchanged);
            let listed = read.saturating_add(report.bad.len() as u64);
            eprintln!(rt; "portal: {source}: {read} of {listed} datasets read")
        }
    };
    let _unsaid = told.is_err();
}

/// Tells whoever waits at a terminal for a harvest how much of each source was read.
fn tell_rounds(
    rt: &HostRuntime,
    watched: &Option<Text>,
    rounds: &Seq<Result<RoundReport, RoundFault>>,
) {
    if watched.is_none() {
        return;
    }
    for round in rounds.as_slice() {
        if let Ok(report) = round {
            for source in report.sources.as_slice() {
                tell_source(rt, source);
            }
        }
    }
}

/// The fetchers of a run.
fn eight_fetchers(rt: &HostRuntime) -> Result<Vec<HostFetcher<&HostRuntime>>, AllocError>
    ensures { IfOk result (λ fetchers. length fetchers.items ≡ 8) }
{
    Ok(Vec::from_array(
        rt.alloc(),
        [
            HostFetcher::new(rt),
            HostFetcher::new(rt),
            HostFetcher::new(rt),
            HostFetcher::new(rt),
            HostFetcher::new(rt),
            HostFetcher::new(rt),
            HostFetcher::new(rt),
            HostFetcher::new(rt),
        ],
    )?)
}

/// Runs the words over the host's devices and the store that the environment names, with this clock and these numbers
/// for scripts, and this desk for links.
fn run_over<E: Sink, C: Clock + Drop, N: Nonces + Drop>(
    rt: &HostRuntime,
    words: &[String],
    faults: &mut E,
    desk: Desk<TcpDoor<&HostRuntime>, C, N>,
    clock: &mut C,
    nonces: &mut N,
) -> Status
    requires { desk.listener.is_out ≡ false }
    ensures words { ReportsWords (command_of (map string_bytes words.now)) result }
    ensures line { TakesOrFails (E.taken faults.old) (E.faults faults.old) (status_line result)
        (E.taken faults.new) (E.faults faults.new) }
    ensures silent { result ≡ Status.Done → faults.new ≡ faults.old }
{
    let alloc = rt.alloc();
    let store = match store_for(rt, words) {
        Ok(store) => store,
        Err(status) => return report(faults, status),
    };
    announce_reading(rt);
    let Ok(mut desks) = one_desk(alloc, desk) else {
        return report(faults, Status::OutOfMemory);
    };
    let watched = watched_source(rt, words);
    announce_harvest(rt, &watched);
    let Ok(mut fetchers) = eight_fetchers(rt) else {
        return report(faults, Status::OutOfMemory);
    };
    let ended = run(
        alloc,
        words,
        &mut StdSource::new(rt.reader()),
        &mut StdSink::new(io::writer(rt)),
        faults,
        store,
        &mut fetchers,
        &mut desks,
        clock,
        nonces,
    );
    tell_rounds(rt, &watched, &ended.rounds);
    ended.status
}

/// The status if the host gives no random numbers. Words that name no command take precedence.
fn status_without_numbers(alloc: Global, words: &[String]) -> Status
    ensures words { ReportsWords (command_of (map string_bytes words.now)) result }
    ensures fault { result ≢ Status.Done }
{
    match Command::read(alloc, words) {
        Ok(_command) => Status::ReadFault,
        Err(WordsFault::BadWords) => Status::Words,
        Err(WordsFault::OutOfMemory) => Status::OutOfMemory,
    }
}

/// Runs with the host's clock and random numbers. The status of an `Err` was not printed yet.
fn run_real<E: Sink>(rt: &HostRuntime, words: &[String], faults: &mut E) -> Result<Status, Status>
    ensures words { IfOk result (ReportsWords (command_of (map string_bytes words.now))) }
    ensures unprinted_words { IfErr result (ReportsWords (command_of (map string_bytes words.now))) }
    ensures fault { IfErr result (λ status. status ≢ Status.Done) }
    ensures line { IfOk result (λ status. TakesOrFails (E.taken faults.old) (E.faults faults.old)
        (status_line status) (E.taken faults.new) (E.faults faults.new)) }
    ensures silent { result ≡ Ok Status.Done → faults.new ≡ faults.old }
    ensures unprinted { OnErr result (faults.new ≡ faults.old) }
{
    let (Some(seed), Some(desk_seed)) = (random_seed(rt), random_seed(rt)) else {
        return Err(status_without_numbers(rt.alloc(), words));
    };
    let desk = Desk {
        listener: TcpDoor::new(rt, listener(rt, words)?),
        clock: HostClock::new(rt),
        nonces: ChaChaNonces::from_seed(desk_seed),
    };
    Ok(run_over(
        rt,
        words,
        faults,
        desk,
        &mut HostClock::new(rt),
        &mut ChaChaNonces::from_seed(seed),
    ))
}

/// Runs with a clock and numbers that count up.
fn run_counted<E: Sink>(rt: &HostRuntime, words: &[String], faults: &mut E) -> Status
    ensures words { ReportsWords (command_of (map string_bytes words.now)) result }
    ensures line { TakesOrFails (E.taken faults.old) (E.faults faults.old) (status_line result)
        (E.taken faults.new) (E.faults faults.new) }
    ensures silent { result ≡ Status.Done → faults.new ≡ faults.old }
{
    let desk = Desk {
        listener: TcpDoor::new(rt, None),
        clock: ScriptClock::new(),
        nonces: CountNonces::new(),
    };
    run_over(
        rt,
        words,
        faults,
        desk,
        &mut ScriptClock::new(),
        &mut CountNonces::new(),
    )
}

/// Runs the words of the command line, in real time if the command or the environment asks for it. The status of an
/// `Err` was not printed yet.
fn run_words<E: Sink>(rt: &HostRuntime, faults: &mut E) -> Result<Status, Status>
    ensures fault { IfErr result (λ status. status ≢ Status.Done) }
    ensures line { IfOk result (λ status. TakesOrFails (E.taken faults.old) (E.faults faults.old)
        (status_line status) (E.taken faults.new) (E.faults faults.new)) }
    ensures silent { result ≡ Ok Status.Done → faults.new ≡ faults.old }
    ensures unprinted { OnErr result (faults.new ≡ faults.old) }
{
    let words = words(rt)?;
    if is_timed(words.as_slice()) || is_real_time(rt)? {
        return run_real(rt, words.as_slice(), faults);
    }
    Ok(run_counted(rt, words.as_slice(), faults))
}

fn main(rt: HostRuntime) -> ExitCode {
    let mut faults = StdSink::new(rt.stderr());
    let status = match run_words(&rt, &mut faults) {
        Ok(status) => status,
        Err(status) => report(&mut faults, status),
    };
    ExitCode::from(status.code())
}
