//! The top call of the program: it carries out the command of the words over the devices, and reports its status by a
//! line on `faults`.
ghost use Rattle.std.specs.Prelude.{◌≡◌, ◌⊎◌, ◌↔◌, ◌≤◌, ℕ, List, [], Some, None, false, codes, drop, length, map};
ghost use Rattle.std.specs.Prelude.{string_bytes, All, IsTrue};
ghost use Rattle.portal_base.specs.Outside.{Rose};
ghost use Rattle.portal_words.specs.Commands.{command_of};
ghost use Rattle.portal_load.specs.SchemaFile.{LoadsFrom};
ghost use Rattle.portal_cli.specs.Run.{NamesNoFile, HarvestsNone, HoldsOfOnly, PlaysNone, ReadsNone, Runs, ServesNone};
ghost use Rattle.portal_cli.specs.Run.{WritesNone, portal_of, run_trace};
ghost use Rattle.portal_state.specs.Opened.{is_opening};
ghost use Rattle.portal_start.specs.Fetchers.{UsesFirst, first_fetch};
ghost use Rattle.portal_start.specs.OverStore.{BeginsOver, WorksOver, store_trace};
ghost use Rattle.portal_start.specs.Start.{ReportsRule};
ghost use Rattle.portal_status.specs.Fetch.{fetch_trace};
ghost use Rattle.portal_status.specs.Status.{status_line, TakesOrFails};
ghost use Rattle.portal_links.specs.Desk.{desk_trace};
ghost use Rattle.portal_serve.specs.Rounds.{AreSameFetchers};
ghost use Rattle.portal_serve.specs.Run.{device_trace, GaveTooMuch};
ghost use Rattle.portal_links.specs.Written.{link_trace};

use portal_base::outside::{Clock, Desk, Fetcher, Listener, Nonces, Sink, Source};
use portal_base::seq::Seq;
use portal_core::portal::Opening;
use portal_keeper::keeper::Keeper;
use portal_load::schema_file::load_csv;
use portal_start::commands::{play_from, report_from, serve_from};
use portal_start::harvest::harvest_from;
pub use portal_start::over_store::Ended;
use portal_start::over_store::{end_with, open_portal};
use portal_start::start::start_with;
use portal_status::status::{Status, report};
use portal_words::{Command, LoadOptions, WordsFault};
use std::alloc::Global;

/// Loads the CSV on input into a table, on the portal that `opening` opens over the keeper.
fn load_over<S: Source, O: Sink, P: Keeper, F: Fetcher, C: Clock, N: Nonces>(
    alloc: Global,
    opening: &Opening,
    options: LoadOptions,
    input: &mut S,
    output: &mut O,
    keeper: P,
    fetcher: &mut F,
    clock: &mut C,
    nonces: &mut N,
) -> Ended<P>
    requires { IsTrue (is_opening opening.now) }
    ensures loads { WorksOver opening.now
        (store_trace (P.rows keeper) (P.faults keeper) (P.rows result.keeper) (P.faults result.keeper)) result.status
        (λ state after. LoadsFrom (fetch_trace (F.held fetcher.old) (F.faults fetcher.old) (F.faults fetcher.new))
        options state after
        (device_trace (S.to_come input.old) (O.taken output.old) (C.given clock.old) (N.given nonces.old))
        (device_trace (S.to_come input.new) (O.taken output.new) (C.given clock.new) (N.given nonces.new)) result.status)
        ((device_trace (S.to_come input.new) (O.taken output.new) (C.given clock.new) (N.given nonces.new))
        ≡ (device_trace (S.to_come input.old) (O.taken output.old) (C.given clock.old) (N.given nonces.old))) }
    ensures held { F.held fetcher.new ≡ F.held fetcher.old }
    ensures fetches { F.faults fetcher.old ≤ F.faults fetcher.new }
    ensures no_rounds { result.rounds ≡ [] }
    ensures read_fault { result.status ≡ Status.ReadFault → Rose (S.faults input.old) (S.faults input.new) }
    ensures write_fault { result.status ≡ Status.WriteFault → Rose (O.faults output.old) (O.faults output.new) }
    ensures keeper_fault { result.status ≡ Status.KeeperFault → Rose (P.faults keeper) (P.faults result.keeper) }
    ensures too_much { (whole : List ℕ) → S.to_come input.old ≡ Some whole →
        ((result.status ≡ Status.DataFault (codes "input too long")) ↔ GaveTooMuch whole (S.to_come input.new)) }
    ensures counts { P.faults keeper ≤ P.faults result.keeper }
{
    match open_portal(alloc, keeper, opening) {
        Ok(mut portal) => {
            let status = load_csv(
                alloc,
                &mut portal,
                options,
                input,
                output,
                fetcher,
                clock,
                nonces,
            );
            end_with(portal, status, Seq::new(alloc))
        }
        Err(ended) => ended,
    }
}

/// Carries out `load`: loads the CSV on input into a table of the portal that the options name, over the keeper.
fn load_from<S: Source, O: Sink, P: Keeper, F: Fetcher, C: Clock, N: Nonces>(
    alloc: Global,
    options: LoadOptions,
    input: &mut S,
    output: &mut O,
    keeper: P,
    fetchers: &mut Vec<F>,
    clock: &mut C,
    nonces: &mut N,
) -> Ended<P>
    requires { 1 ≤ length fetchers.old.items }
    ensures loads { BeginsOver (first_fetch F.held F.faults fetchers.old.items fetchers.new.items)
        options.portal
        (store_trace (P.rows keeper) (P.faults keeper) (P.rows result.keeper) (P.faults result.keeper)) result.status
        (λ beginning state after. LoadsFrom (first_fetch F.held F.faults fetchers.old.items fetchers.new.items)
        options state after
        (device_trace (S.to_come input.old) (O.taken output.old) (C.given clock.old) (N.given nonces.old))
        (device_trace (S.to_come input.new) (O.taken output.new) (C.given clock.new) (N.given nonces.new)) result.status)
        ((device_trace (S.to_come input.new) (O.taken output.new) (C.given clock.new) (N.given nonces.new))
        ≡ (device_trace (S.to_come input.old) (O.taken output.old) (C.given clock.old) (N.given nonces.old))) }
    ensures fetchers { UsesFirst F.held F.faults (Some options.schema) fetchers.old.items fetchers.new.items }
    ensures no_rounds { result.rounds ≡ [] }
    ensures read_fault { result.status ≡ Status.ReadFault → Rose (S.faults input.old) (S.faults input.new) }
    ensures write_fault { result.status ≡ Status.WriteFault → Rose (O.faults output.old) (O.faults output.new) }
    ensures keeper_fault { result.status ≡ Status.KeeperFault → Rose (P.faults keeper) (P.faults result.keeper) }
    ensures too_much { (whole : List ℕ) → S.to_come input.old ≡ Some whole →
        ((result.status ≡ Status.DataFault (codes "input too long")) ↔ GaveTooMuch whole (S.to_come input.new)) }
    ensures counts { P.faults keeper ≤ P.faults result.keeper }
{
    match start_with(alloc, fetchers, &options.portal) {
        Ok(start) => load_over(
            alloc,
            &start.opening,
            options,
            input,
            output,
            keeper,
            &mut fetchers[0],
            clock,
            nonces,
        ),
        Err(status) => Ended {
            status,
            keeper,
            rounds: Seq::new(alloc),
        },
    }
}

/// Carries out the command of the words.
fn carry_out<S: Source, O: Sink, P: Keeper, F: Fetcher, L: Listener, C: Clock, N: Nonces>(
    alloc: Global,
    words: &[String],
    input: &mut S,
    output: &mut O,
    keeper: P,
    fetchers: &mut Vec<F>,
    desk: &mut Desk<L, C, N>,
    clock: &mut C,
    nonces: &mut N,
) -> Ended<P>
    requires fetchers { (1 ≤ length fetchers.old.items) × (length fetchers.old.items ≤ 16) }
    requires home { L.is_out desk.old.listener ≡ false }
    ensures home { L.is_out desk.new.listener ≡ false }
    ensures words { result.status ≡ Status.Words → command_of (map string_bytes words.now) ≡ None }
    ensures no_command { command_of (map string_bytes words.now) ≡ None →
        (result.status ≡ Status.Words) ⊎ (result.status ≡ Status.OutOfMemory) }
    ensures runs { Runs (λ peer. link_trace (L.Peer.to_come peer) (L.Peer.taken peer) (L.Peer.faults peer))
        F.held F.faults (command_of (map string_bytes words.now)) fetchers.old.items fetchers.new.items
        (store_trace (P.rows keeper) (P.faults keeper) (P.rows result.keeper) (P.faults result.keeper))
        (run_trace (device_trace (S.to_come input.old) (O.taken output.old) (C.given clock.old) (N.given nonces.old))
        (desk_trace (L.to_come desk.old.listener) (L.taken_back desk.old.listener) (L.count desk.old.listener)
        (L.is_at_end desk.old.listener) (L.faults desk.old.listener) (C.given desk.old.clock)
        (N.given desk.old.nonces)))
        (run_trace (device_trace (S.to_come input.new) (O.taken output.new) (C.given clock.new) (N.given nonces.new))
        (desk_trace (L.to_come desk.new.listener) (L.taken_back desk.new.listener) (L.count desk.new.listener)
        (L.is_at_end desk.new.listener) (L.faults desk.new.listener) (C.given desk.new.clock)
        (N.given desk.new.nonces)))
        result.rounds result.status }
    ensures rule { ReportsRule (first_fetch F.held F.faults fetchers.old.items fetchers.new.items)
        (portal_of (command_of (map string_bytes words.now))) result.status }
    ensures no_input { ReadsNone (command_of (map string_bytes words.now)) → input.new ≡ input.old }
    ensures no_script { PlaysNone (command_of (map string_bytes words.now)) →
        (clock.new ≡ clock.old) × (nonces.new ≡ nonces.old) }
    ensures no_output { WritesNone (command_of (map string_bytes words.now)) → output.new ≡ output.old }
    ensures no_store { command_of (map string_bytes words.now) ≡ None → result.keeper ≡ keeper }
    ensures no_links { ServesNone (command_of (map string_bytes words.now)) → desk.new ≡ desk.old }
    ensures no_file { NamesNoFile (command_of (map string_bytes words.now))
        → fetchers.new.items ≡ fetchers.old.items }
    ensures no_rounds { HarvestsNone (command_of (map string_bytes words.now))
        → (drop 1 fetchers.new.items ≡ drop 1 fetchers.old.items) × (result.rounds ≡ []) }
    ensures fetchers { AreSameFetchers F.held F.faults fetchers.old.items fetchers.new.items }
    ensures read_fault { result.status ≡ Status.ReadFault → Rose (S.faults input.old) (S.faults input.new) }
    ensures write_fault { result.status ≡ Status.WriteFault → Rose (O.faults output.old) (O.faults output.new) }
    ensures keeper_fault { result.status ≡ Status.KeeperFault → Rose (P.faults keeper) (P.faults result.keeper) }
    ensures counts { P.faults keeper ≤ P.faults result.keeper }
    ensures listen_fault { result.status ≡ Status.ListenFault →
        Rose (L.faults desk.old.listener) (L.faults desk.new.listener) }
    ensures too_much { (whole : List ℕ) → S.to_come input.old ≡ Some whole →
        ((result.status ≡ Status.DataFault (codes "input too long")) ↔ GaveTooMuch whole (S.to_come input.new)) }
{
    match Command::read(alloc, words) {
        Ok(Command::Play(options)) => play_from(
            alloc, &options, input, output, keeper, fetchers, clock, nonces,
        ),
        Ok(Command::Load(options)) => load_from(
            alloc, options, input, output, keeper, fetchers, clock, nonces,
        ),
        Ok(Command::Harvest(options)) => harvest_from(
            alloc, &options, output, keeper, fetchers, clock, nonces,
        ),
        Ok(Command::Serve(options)) => serve_from(alloc, &options, keeper, fetchers, desk),
        Ok(Command::Report(options)) => report_from(alloc, &options, output, keeper, fetchers),
        Err(WordsFault::BadWords) => Ended {
            status: Status::Words,
            keeper,
            rounds: Seq::new(alloc),
        },
        Err(WordsFault::OutOfMemory) => Ended {
            status: Status::OutOfMemory,
            keeper,
            rounds: Seq::new(alloc),
        },
    }
}

/// Carries out the command of the words, which are those after the program's name. `play` plays the script on `input`
/// and writes its transcript to `output`. It holds one line of the input and the bytes of one read, at most 65,536.
/// `load` loads the CSV on `input` into a new table, by the schema that is fetched from its location, and writes a line
/// to `output` for each call. `harvest` makes a job of a source and runs a round of harvests, and writes a line to
/// `output` for each. `serve` serves the links of the desk, one after another. `report` writes a report to `output`.
/// The commands work on the portal of the portal file that the words name, or on the default portal. The first fetcher
/// fetches the portal file and the schema, and the rounds of `play` and `harvest` have all fetchers. The portal is
/// opened over the keeper, which is handed back. Every status but 0 writes its line to `faults`.
pub fn run<S: Source, O: Sink, E: Sink, P: Keeper, F: Fetcher, L: Listener, C: Clock, N: Nonces>(
    alloc: Global,
    words: &[String],
    input: &mut S,
    output: &mut O,
    faults: &mut E,
    keeper: P,
    fetchers: &mut Vec<F>,
    desks: &mut Vec<Desk<L, C, N>>,
    clock: &mut C,
    nonces: &mut N,
) -> Ended<P>
    requires fetchers { (1 ≤ length fetchers.old.items) × (length fetchers.old.items ≤ 16) }
    requires desk { length desks.old.items ≡ 1 }
    requires home { All (λ desk. L.is_out desk.listener ≡ false) desks.old.items }
    // No link is out: each accepted link was given back.
    ensures home { All (λ desk. L.is_out desk.listener ≡ false) desks.new.items }

    // The status is 2 exactly if the words name no command, unless memory runs out. Then nothing is touched.
    ensures words { result.status ≡ Status.Words → command_of (map string_bytes words.now) ≡ None }
    ensures no_command { command_of (map string_bytes words.now) ≡ None →
        (result.status ≡ Status.Words) ⊎ (result.status ≡ Status.OutOfMemory) }
    // What was played, loaded, harvested, served or reported, by the command and the status: the portal that the run
    // began with, or why it began with none; what was read, written and drawn; each link that came, was served and was
    // given back, at most `--links`; the answers of the rounds; and, where the rows of the keeper are observable, that
    // they are those of the portal's state in the end.
    ensures runs { HoldsOfOnly desks.old.items desks.new.items (λ desk left.
        Runs (λ peer. link_trace (L.Peer.to_come peer) (L.Peer.taken peer) (L.Peer.faults peer)) F.held F.faults
        (command_of (map string_bytes words.now)) fetchers.old.items fetchers.new.items
        (store_trace (P.rows keeper) (P.faults keeper) (P.rows result.keeper) (P.faults result.keeper))
        (run_trace (device_trace (S.to_come input.old) (O.taken output.old) (C.given clock.old) (N.given nonces.old))
        (desk_trace (L.to_come desk.listener) (L.taken_back desk.listener) (L.count desk.listener)
        (L.is_at_end desk.listener) (L.faults desk.listener) (C.given desk.clock) (N.given desk.nonces)))
        (run_trace (device_trace (S.to_come input.new) (O.taken output.new) (C.given clock.new) (N.given nonces.new))
        (desk_trace (L.to_come left.listener) (L.taken_back left.listener) (L.count left.listener)
        (L.is_at_end left.listener) (L.faults left.listener) (C.given left.clock) (N.given left.nonces)))
        result.rounds result.status) }
    // If the portal file breaks a rule, status 7 reports it.
    ensures rule { ReportsRule (first_fetch F.held F.faults fetchers.old.items fetchers.new.items)
        (portal_of (command_of (map string_bytes words.now))) result.status }
    // Devices that the command doesn't use stay as they were: the first fetcher, if the words name no file and ask for
    // no round, and the other fetchers, if they ask for no round.
    ensures no_input { ReadsNone (command_of (map string_bytes words.now)) → input.new ≡ input.old }
    ensures no_script { PlaysNone (command_of (map string_bytes words.now)) →
        (clock.new ≡ clock.old) × (nonces.new ≡ nonces.old) }
    ensures no_output { WritesNone (command_of (map string_bytes words.now)) → output.new ≡ output.old }
    ensures no_store { command_of (map string_bytes words.now) ≡ None → result.keeper ≡ keeper }
    ensures no_links { ServesNone (command_of (map string_bytes words.now)) → desks.new.items ≡ desks.old.items }
    ensures no_file { NamesNoFile (command_of (map string_bytes words.now))
        → fetchers.new.items ≡ fetchers.old.items }
    ensures no_rounds { HarvestsNone (command_of (map string_bytes words.now))
        → (drop 1 fetchers.new.items ≡ drop 1 fetchers.old.items) × (result.rounds ≡ []) }
    // The fetchers are as many as before, hold the same documents, and no count of faults fell.
    ensures fetchers { AreSameFetchers F.held F.faults fetchers.old.items fetchers.new.items }

    // Every status but 0 writes its one line, whole unless `faults` fails. Status 0 writes nothing to `faults`.
    ensures line { TakesOrFails (E.taken faults.old) (E.faults faults.old) (status_line result.status)
        (E.taken faults.new) (E.faults faults.new) }
    ensures silent { result.status ≡ Status.Done → faults.new ≡ faults.old }

    ensures read_fault { result.status ≡ Status.ReadFault → Rose (S.faults input.old) (S.faults input.new) }
    ensures write_fault { result.status ≡ Status.WriteFault → Rose (O.faults output.old) (O.faults output.new) }
    ensures keeper_fault { result.status ≡ Status.KeeperFault → Rose (P.faults keeper) (P.faults result.keeper) }
    ensures counts { P.faults keeper ≤ P.faults result.keeper }
    ensures listen_fault { result.status ≡ Status.ListenFault → HoldsOfOnly desks.old.items desks.new.items
        (λ desk left. Rose (L.faults desk.listener) (L.faults left.listener)) }
    // The status reports input that is too long exactly if it gave more than 2^40 bytes.
    ensures too_much { (whole : List ℕ) → S.to_come input.old ≡ Some whole →
        ((result.status ≡ Status.DataFault (codes "input too long")) ↔ GaveTooMuch whole (S.to_come input.new)) }
{
    let Ended {
        status,
        keeper,
        rounds,
    } = carry_out(
        alloc,
        words,
        input,
        output,
        keeper,
        fetchers,
        &mut desks[0],
        clock,
        nonces,
    );
    Ended {
        status: report(faults, status),
        keeper,
        rounds,
    }
}
