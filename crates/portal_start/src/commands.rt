//! The commands that play a script, serve links and print a report, on a portal that is opened over the store for it.
ghost use Rattle.std.specs.Prelude.{◌≡◌, ◌↔◌, ◌≤◌, ℕ, List, [], Some, Ok, false, codes, length, map, IfOk, IsTrue};
ghost use Rattle.portal_base.specs.Outside.{Rose};
ghost use Rattle.portal_state.specs.Opened.{is_opening};
ghost use Rattle.portal_start.specs.Commands.{ListsReports, PlaysFrom, PlaysWith, ReportsWith, ServesWith, WritesWith};
ghost use Rattle.portal_start.specs.Commands.{report_for, status_for, status_for_desk, status_unlisted};
ghost use Rattle.portal_start.specs.Fetchers.{UsesFirst, first_fetch};
ghost use Rattle.portal_start.specs.OverStore.{BeginsOver, WorksOver, store_trace};
ghost use Rattle.portal_links.specs.Desk.{desk_trace};
ghost use Rattle.portal_serve.specs.Rounds.{AreSameFetchers, pool_trace};
ghost use Rattle.portal_serve.specs.Run.{device_trace, GaveTooMuch};
ghost use Rattle.portal_links.specs.Written.{link_trace};

use crate::over_store::{Ended, end_with, open_portal};
use crate::start::{Start, start_with};
use harvest_pool::{RoundFault, RoundReport};
use portal_base::outside::{Clock, Desk, Failed, Fetcher, Listener, Nonces, Sink, Source};
use portal_base::seq::Seq;
use portal_base::text::Text;
use portal_core::portal::Portal;
use portal_keeper::keeper::Keeper;
use portal_lines::write::write_whole;
use portal_reports::report::report;
use portal_serve::desk::serve_desk;
use portal_serve::play::{PlayEnd, play};
use portal_status::status::Status;
use portal_words::{PlayOptions, ReportOptions, ServeOptions};
use std::alloc::{AllocError, Global};

/// The status for the end of playing.
fn status_of_end(end: PlayEnd) -> Status
    ensures { result ≡ status_for end }
{
    match end {
        PlayEnd::Done => Status::Done,
        PlayEnd::ReadFault => Status::ReadFault,
        PlayEnd::WriteFault => Status::WriteFault,
        PlayEnd::KeeperFault => Status::KeeperFault,
        PlayEnd::TooLong => Status::DataFault(Text::from_static("input too long")),
        PlayEnd::OutOfMemory => Status::OutOfMemory,
    }
}

/// The status for this end of playing if memory ran out for the list of its rounds.
fn status_unlisted(end: PlayEnd) -> Status
    ensures { result ≡ status_unlisted end }
{
    match end {
        PlayEnd::Done => Status::OutOfMemory,
        _ => status_of_end(end),
    }
}

/// The reports of rounds as the answers of these rounds.
fn answers_of(
    alloc: Global,
    reports: Seq<RoundReport>,
) -> Result<Seq<Result<RoundReport, RoundFault>>, AllocError>
    ensures { IfOk result (λ rounds. rounds ≡ map Ok reports) }
{
    let mut answers = Vec::with_capacity(alloc, reports.len())?;
    for report in reports.into_vec() {
        answers.push(Ok(report))?;
    }
    Ok(Seq::from(answers))
}

/// The status for the end of playing, and the answers of the rounds that gave these reports.
fn list_rounds(
    alloc: Global,
    end: PlayEnd,
    reports: Seq<RoundReport>,
) -> (Status, Seq<Result<RoundReport, RoundFault>>)
    ensures { ListsReports end reports result.1 result.0 }
{
    match answers_of(alloc, reports) {
        Ok(answers) => (status_of_end(end), answers),
        Err(AllocError) => (status_unlisted(end), Seq::new(alloc)),
    }
}

/// Plays the script on input, on the portal that `start` opens over the keeper.
fn play_script<S: Source, O: Sink, P: Keeper, F: Fetcher, C: Clock, N: Nonces>(
    alloc: Global,
    start: &Start,
    input: &mut S,
    output: &mut O,
    keeper: P,
    fetchers: &mut Vec<F>,
    clock: &mut C,
    nonces: &mut N,
) -> Ended<P>
    requires opening { IsTrue (is_opening start.now.opening) }
    requires fetchers { (1 ≤ length fetchers.old.items) × (length fetchers.old.items ≤ 16) }
    ensures plays { WorksOver start.now.opening
        (store_trace (P.rows keeper) (P.faults keeper) (P.rows result.keeper) (P.faults result.keeper)) result.status
        (λ state after. PlaysWith state after
        (device_trace (S.to_come input.old) (O.taken output.old) (C.given clock.old) (N.given nonces.old))
        (device_trace (S.to_come input.new) (O.taken output.new) (C.given clock.new) (N.given nonces.new))
        (pool_trace F.held F.faults fetchers.old.items []) (pool_trace F.held F.faults fetchers.new.items [])
        result.rounds result.status)
        ((device_trace (S.to_come input.new) (O.taken output.new) (C.given clock.new) (N.given nonces.new)
        ≡ device_trace (S.to_come input.old) (O.taken output.old) (C.given clock.old) (N.given nonces.old))
        × (fetchers.new.items ≡ fetchers.old.items) × (result.rounds ≡ [])) }
    ensures fetchers { AreSameFetchers F.held F.faults fetchers.old.items fetchers.new.items }
    ensures read_fault { result.status ≡ Status.ReadFault → Rose (S.faults input.old) (S.faults input.new) }
    ensures write_fault { result.status ≡ Status.WriteFault → Rose (O.faults output.old) (O.faults output.new) }
    ensures keeper_fault { result.status ≡ Status.KeeperFault → Rose (P.faults keeper) (P.faults result.keeper) }
    ensures too_much { (whole : List ℕ) → S.to_come input.old ≡ Some whole →
        ((result.status ≡ Status.DataFault (codes "input too long")) ↔ GaveTooMuch whole (S.to_come input.new)) }
    ensures counts { P.faults keeper ≤ P.faults result.keeper }
{
    match open_portal(alloc, keeper, &start.opening) {
        Ok(mut portal) => {
            let (end, reports) = play(alloc, &mut portal, input, output, fetchers, clock, nonces);
            let (status, rounds) = list_rounds(alloc, end, reports);
            end_with(portal, status, rounds)
        }
        Err(ended) => ended,
    }
}

/// Carries out `play`: plays the script on input, on the portal that the options name, over the keeper. The first
/// fetcher fetches the portal file, and all of them are for the script's rounds.
pub fn play_from<S: Source, O: Sink, P: Keeper, F: Fetcher, C: Clock, N: Nonces>(
    alloc: Global,
    options: &PlayOptions,
    input: &mut S,
    output: &mut O,
    keeper: P,
    fetchers: &mut Vec<F>,
    clock: &mut C,
    nonces: &mut N,
) -> Ended<P>
    requires { (1 ≤ length fetchers.old.items) × (length fetchers.old.items ≤ 16) }
    ensures plays { BeginsOver (first_fetch F.held F.faults fetchers.old.items fetchers.new.items) options.now.portal
        (store_trace (P.rows keeper) (P.faults keeper) (P.rows result.keeper) (P.faults result.keeper)) result.status
        (λ beginning state after. PlaysFrom F.held F.faults options.now.portal state after
        (device_trace (S.to_come input.old) (O.taken output.old) (C.given clock.old) (N.given nonces.old))
        (device_trace (S.to_come input.new) (O.taken output.new) (C.given clock.new) (N.given nonces.new))
        fetchers.old.items fetchers.new.items result.rounds result.status)
        ((device_trace (S.to_come input.new) (O.taken output.new) (C.given clock.new) (N.given nonces.new)
        ≡ device_trace (S.to_come input.old) (O.taken output.old) (C.given clock.old) (N.given nonces.old))
        × UsesFirst F.held F.faults options.now.portal fetchers.old.items fetchers.new.items × (result.rounds ≡ [])) }
    ensures fetchers { AreSameFetchers F.held F.faults fetchers.old.items fetchers.new.items }
    ensures read_fault { result.status ≡ Status.ReadFault → Rose (S.faults input.old) (S.faults input.new) }
    ensures write_fault { result.status ≡ Status.WriteFault → Rose (O.faults output.old) (O.faults output.new) }
    ensures keeper_fault { result.status ≡ Status.KeeperFault → Rose (P.faults keeper) (P.faults result.keeper) }
    ensures too_much { (whole : List ℕ) → S.to_come input.old ≡ Some whole →
        ((result.status ≡ Status.DataFault (codes "input too long")) ↔ GaveTooMuch whole (S.to_come input.new)) }
    ensures counts { P.faults keeper ≤ P.faults result.keeper }
{
    match start_with(alloc, fetchers, &options.portal) {
        Ok(start) => play_script(
            alloc, &start, input, output, keeper, fetchers, clock, nonces,
        ),
        Err(status) => Ended {
            status,
            keeper,
            rounds: Seq::new(alloc),
        },
    }
}

/// The status for a desk that was served.
fn status_of_desk(served: Result<(), Failed>) -> Status
    ensures { result ≡ status_for_desk served }
{
    match served {
        Ok(()) => Status::Done,
        Err(_failed) => Status::ListenFault,
    }
}

/// Serves at most `links` links of the desk, from the portal that `start` opens over the keeper.
fn serve_links<P: Keeper, L: Listener, C: Clock, N: Nonces>(
    alloc: Global,
    start: &Start,
    keeper: P,
    desk: &mut Desk<L, C, N>,
    links: u64,
) -> Ended<P>
    requires opening { IsTrue (is_opening start.now.opening) }
    requires home { L.is_out desk.old.listener ≡ false }
    ensures home { L.is_out desk.new.listener ≡ false }
    ensures serves { WorksOver start.now.opening
        (store_trace (P.rows keeper) (P.faults keeper) (P.rows result.keeper) (P.faults result.keeper)) result.status
        (λ state after. ServesWith (λ peer. link_trace (L.Peer.to_come peer) (L.Peer.taken peer) (L.Peer.faults peer))
        start.now.tokens state after links
        (desk_trace (L.to_come desk.old.listener) (L.taken_back desk.old.listener) (L.count desk.old.listener)
        (L.is_at_end desk.old.listener) (L.faults desk.old.listener) (C.given desk.old.clock) (N.given desk.old.nonces))
        (desk_trace (L.to_come desk.new.listener) (L.taken_back desk.new.listener) (L.count desk.new.listener)
        (L.is_at_end desk.new.listener) (L.faults desk.new.listener) (C.given desk.new.clock) (N.given desk.new.nonces))
        result.status)
        ((desk_trace (L.to_come desk.new.listener) (L.taken_back desk.new.listener) (L.count desk.new.listener)
        (L.is_at_end desk.new.listener) (L.faults desk.new.listener) (C.given desk.new.clock) (N.given desk.new.nonces))
        ≡ (desk_trace (L.to_come desk.old.listener) (L.taken_back desk.old.listener) (L.count desk.old.listener)
        (L.is_at_end desk.old.listener) (L.faults desk.old.listener) (C.given desk.old.clock) (N.given desk.old.nonces))) }
    ensures listen_fault { result.status ≡ Status.ListenFault →
        Rose (L.faults desk.old.listener) (L.faults desk.new.listener) }
    ensures keeper_fault { result.status ≡ Status.KeeperFault → Rose (P.faults keeper) (P.faults result.keeper) }
    ensures no_rounds { result.rounds ≡ [] }
    ensures counts { P.faults keeper ≤ P.faults result.keeper }
{
    match open_portal(alloc, keeper, &start.opening) {
        Ok(mut portal) => {
            let served = serve_desk(alloc, &mut portal, &start.tokens, desk, links);
            end_with(portal, status_of_desk(served), Seq::new(alloc))
        }
        Err(ended) => ended,
    }
}

/// Carries out `serve`: serves the desk's links from the portal that the options name, over the keeper.
pub fn serve_from<P: Keeper, F: Fetcher, L: Listener, C: Clock, N: Nonces>(
    alloc: Global,
    options: &ServeOptions,
    keeper: P,
    fetchers: &mut Vec<F>,
    desk: &mut Desk<L, C, N>,
) -> Ended<P>
    requires fetchers { 1 ≤ length fetchers.old.items }
    requires home { L.is_out desk.old.listener ≡ false }
    ensures home { L.is_out desk.new.listener ≡ false }
    ensures serves { BeginsOver (first_fetch F.held F.faults fetchers.old.items fetchers.new.items)
        options.now.portal
        (store_trace (P.rows keeper) (P.faults keeper) (P.rows result.keeper) (P.faults result.keeper)) result.status
        (λ beginning state after. ServesWith (λ peer. link_trace (L.Peer.to_come peer) (L.Peer.taken peer) (L.Peer.faults peer))
        beginning.digests state after options.now.links
        (desk_trace (L.to_come desk.old.listener) (L.taken_back desk.old.listener) (L.count desk.old.listener)
        (L.is_at_end desk.old.listener) (L.faults desk.old.listener) (C.given desk.old.clock) (N.given desk.old.nonces))
        (desk_trace (L.to_come desk.new.listener) (L.taken_back desk.new.listener) (L.count desk.new.listener)
        (L.is_at_end desk.new.listener) (L.faults desk.new.listener) (C.given desk.new.clock) (N.given desk.new.nonces))
        result.status)
        ((desk_trace (L.to_come desk.new.listener) (L.taken_back desk.new.listener) (L.count desk.new.listener)
        (L.is_at_end desk.new.listener) (L.faults desk.new.listener) (C.given desk.new.clock) (N.given desk.new.nonces))
        ≡ (desk_trace (L.to_come desk.old.listener) (L.taken_back desk.old.listener) (L.count desk.old.listener)
        (L.is_at_end desk.old.listener) (L.faults desk.old.listener) (C.given desk.old.clock) (N.given desk.old.nonces))) }
    ensures fetchers { UsesFirst F.held F.faults options.now.portal fetchers.old.items fetchers.new.items }
    ensures listen_fault { result.status ≡ Status.ListenFault →
        Rose (L.faults desk.old.listener) (L.faults desk.new.listener) }
    ensures keeper_fault { result.status ≡ Status.KeeperFault → Rose (P.faults keeper) (P.faults result.keeper) }
    ensures no_rounds { result.rounds ≡ [] }
    ensures counts { P.faults keeper ≤ P.faults result.keeper }
{
    match start_with(alloc, fetchers, &options.portal) {
        Ok(start) => serve_links(alloc, &start, keeper, desk, options.links),
        Err(status) => Ended {
            status,
            keeper,
            rounds: Seq::new(alloc),
        },
    }
}

/// Writes the report that the options ask for.
fn write_report<O: Sink, P: Keeper>(
    alloc: Global,
    portal: &Portal<P>,
    options: &ReportOptions,
    output: &mut O,
) -> Status
    ensures writes { WritesWith (report_for options.now portal.now.state) (O.taken output.old) (O.taken output.new)
        result }
    ensures write_fault { result ≡ Status.WriteFault → Rose (O.faults output.old) (O.faults output.new) }
{
    let Ok(text) = report(alloc, portal, &options.caller, options.kind) else {
        return Status::OutOfMemory;
    };
    match write_whole(output, text.as_bytes()) {
        Ok(()) => Status::Done,
        Err(_failed) => Status::WriteFault,
    }
}

/// Writes the report on the portal that `start` opens over the keeper.
fn report_over<O: Sink, P: Keeper>(
    alloc: Global,
    start: &Start,
    options: &ReportOptions,
    output: &mut O,
    keeper: P,
) -> Ended<P>
    requires { IsTrue (is_opening start.now.opening) }
    ensures reports { WorksOver start.now.opening
        (store_trace (P.rows keeper) (P.faults keeper) (P.rows result.keeper) (P.faults result.keeper)) result.status
        (λ state after. ReportsWith options.now state after (O.taken output.old) (O.taken output.new) result.status)
        (O.taken output.new ≡ O.taken output.old) }
    ensures write_fault { result.status ≡ Status.WriteFault → Rose (O.faults output.old) (O.faults output.new) }
    ensures keeper_fault { result.status ≡ Status.KeeperFault → Rose (P.faults keeper) (P.faults result.keeper) }
    ensures no_rounds { result.rounds ≡ [] }
    ensures counts { P.faults keeper ≤ P.faults result.keeper }
{
    match open_portal(alloc, keeper, &start.opening) {
        Ok(portal) => {
            let status = write_report(alloc, &portal, options, output);
            end_with(portal, status, Seq::new(alloc))
        }
        Err(ended) => ended,
    }
}

/// Carries out `report`: writes the report that the options ask for, on the portal that they name, over the keeper.
pub fn report_from<O: Sink, P: Keeper, F: Fetcher>(
    alloc: Global,
    options: &ReportOptions,
    output: &mut O,
    keeper: P,
    fetchers: &mut Vec<F>,
) -> Ended<P>
    requires { 1 ≤ length fetchers.old.items }
    ensures reports { BeginsOver (first_fetch F.held F.faults fetchers.old.items fetchers.new.items)
        options.now.portal
        (store_trace (P.rows keeper) (P.faults keeper) (P.rows result.keeper) (P.faults result.keeper)) result.status
        (λ beginning state after. ReportsWith options.now state after (O.taken output.old) (O.taken output.new)
        result.status)
        (O.taken output.new ≡ O.taken output.old) }
    ensures fetchers { UsesFirst F.held F.faults options.now.portal fetchers.old.items fetchers.new.items }
    ensures write_fault { result.status ≡ Status.WriteFault → Rose (O.faults output.old) (O.faults output.new) }
    ensures keeper_fault { result.status ≡ Status.KeeperFault → Rose (P.faults keeper) (P.faults result.keeper) }
    ensures no_rounds { result.rounds ≡ [] }
    ensures counts { P.faults keeper ≤ P.faults result.keeper }
{
    match start_with(alloc, fetchers, &options.portal) {
        Ok(start) => report_over(alloc, &start, options, output, keeper),
        Err(status) => Ended {
            status,
            keeper,
            rounds: Seq::new(alloc),
        },
    }
}
