//! Commands over devices in memory. Each device passes one byte at a time, and fails at a given call.
ghost use Rattle.std.specs.Prelude.{◌≡◌, ◌≤◌, false, IfOk, IsTrue, length};
ghost use Rattle.portal_state.specs.Opened.{is_opening};
ghost use Rattle.portal_words.specs.Commands.{HasWorkers};

use portal_base::counted::{CountNonces, ScriptClock};
use portal_base::memory::{MemoryFetcher, MemoryLink, MemoryListener, MemorySink, MemorySource};
use portal_base::outside::{Desk, Failed, Sink, Source};
use portal_base::seq::Seq;
use portal_base::text::Text;
use portal_core::portal::Portal;
use portal_keeper::keeper::Keeper;
use portal_keeper::memory::MemoryKeeper;
use portal_load::schema_file::load_csv;
use portal_start::commands::{play_from, report_from, serve_from};
use portal_start::harvest::harvest_from;
use portal_start::over_store::{Ended, end_with, open_portal};
use portal_start::start::{Start, start_of};
use portal_status::status::{Status, report};
use portal_words::{Command, HarvestOptions, LoadOptions, PlayOptions, WordsFault};
use std::alloc::{AllocError, Global};
use std::test::Fail;

/// Two changes, each of which gives a dataset.
pub const SCRIPT: &str =
    r#"{"action":"package_create","as":"ann","body":{"name":"trees","owner_org":"city"}}
{"action":"package_create","as":"ann","body":{"name":"lamps","owner_org":"city"}}
"#;

pub const TRANSCRIPT: &str =
    "200 {\"help\":\"/api/3/action/help_show?name=package_create\",\"result\":{\"author\":\"\",\
    \"creator_user_id\":\"ann\",\"id\":\"00000000-0000-0000-0000-000000000001\",\"license_id\":\"\",\
    \"maintainer\":\"\",\"metadata_created\":\"2024-01-01T00:00:00\",\"metadata_modified\":\"2024-01-01T00:00:00\",\
    \"name\":\"trees\",\"notes\":\"\",\"num_resources\":0,\"num_tags\":0,\"organization\":{\"id\":\"city\",\
    \"name\":\"city\",\"title\":\"City\"},\"owner_org\":\"city\",\"private\":false,\"resources\":[],\
    \"state\":\"active\",\"tags\":[],\"title\":\"trees\",\"type\":\"dataset\",\"url\":\"\",\"version\":\"\"},\
    \"success\":true}\n\
    200 {\"help\":\"/api/3/action/help_show?name=package_create\",\"result\":{\"author\":\"\",\
    \"creator_user_id\":\"ann\",\"id\":\"00000000-0000-0000-0000-000000000002\",\"license_id\":\"\",\
    \"maintainer\":\"\",\"metadata_created\":\"2024-01-01T00:00:01\",\"metadata_modified\":\"2024-01-01T00:00:01\",\
    \"name\":\"lamps\",\"notes\":\"\",\"num_resources\":0,\"num_tags\":0,\"organization\":{\"id\":\"city\",\
    \"name\":\"city\",\"title\":\"City\"},\"owner_org\":\"city\",\"private\":false,\"resources\":[],\
    \"state\":\"active\",\"tags\":[],\"title\":\"lamps\",\"type\":\"dataset\",\"url\":\"\",\"version\":\"\"},\
    \"success\":true}\n";

/// A portal file with the default portal's organization.
const PORTAL: &str = r#"user = [{ name = "ann" }]
organization = [{ name = "city", title = "City", roles = { ann = "editor" } }]
"#;

const REQUEST: &str = "GET /api/3/action/user_list HTTP/1.1\r\n\r\n";

/// A device that passes one byte at a time.
#[derive(Drop)]
struct Narrow<D> {
    inner: D,
}

impl<S: Source> Source for Narrow<S> {
    ghost use Rattle.std.specs.Prelude.{None};

    ghost to_come = { λ _. None };

    ghost faults = { λ s. S.faults s.inner };

    fn read(&mut self, into: &mut [u8]) -> Result<usize, Failed> {
        if into.is_empty() {
            return Ok(0);
        }
        self.inner.read(&mut into[..1])
    }
}

impl<O: Sink> Sink for Narrow<O> {
    ghost use Rattle.std.specs.Prelude.{None};

    ghost taken = { λ _. None };

    ghost faults = { λ s. O.faults s.inner };

    fn write(&mut self, piece: &[u8]) -> Result<usize, Failed> {
        if piece.is_empty() {
            return Ok(0);
        }
        self.inner.write(&piece[..1])
    }
}

/// What comes on input; the numbers of the calls at which devices fail, from 1, or 0 if a device doesn't fail; the count
/// of bytes that output takes; and the file at `p.toml`.
#[derive(Clone, Copy)]
pub struct Ends {
    pub input: &'static str,
    pub read: usize,
    pub write: usize,
    pub room: usize,
    pub line: usize,
    pub fetch: usize,
    pub accept: usize,
    pub keep: usize,
    pub file: &'static str,
}

/// The script is on input, and no device fails.
pub const NEVER: Ends = Ends {
    input: SCRIPT,
    read: 0,
    write: 0,
    room: 4_000,
    line: 0,
    fetch: 0,
    accept: 0,
    keep: 0,
    file: PORTAL,
};

/// A desk in memory.
type MemoryDesk = Desk<MemoryListener, ScriptClock, CountNonces>;

/// The devices of a run.
#[derive(Drop)]
struct Devices {
    input: Narrow<MemorySource>,
    output: Narrow<MemorySink>,
    faults: Narrow<MemorySink>,
    fetchers: Vec<MemoryFetcher>,
    desk: MemoryDesk,
}

/// The number of the call that fails.
fn failing(alloc: Global, call: usize) -> Result<Seq<u64>, AllocError> {
    Ok(Seq::from([call as u64].to_vec(alloc)?))
}

fn source(alloc: Global, ends: Ends) -> Result<Narrow<MemorySource>, AllocError> {
    let bytes = Seq::from(ends.input.as_bytes().to_vec(alloc)?);
    let failing = failing(alloc, ends.read)?;
    Ok(Narrow {
        inner: MemorySource::new(bytes, failing),
    })
}

fn sink(alloc: Global, room: usize, write: usize) -> Result<Narrow<MemorySink>, AllocError> {
    let failing = failing(alloc, write)?;
    Ok(Narrow {
        inner: MemorySink::new(alloc, room, failing)?,
    })
}

/// A fetcher that holds the file at `p.toml`.
fn fetcher(alloc: Global, ends: Ends) -> Result<MemoryFetcher, AllocError> {
    let failing = failing(alloc, ends.fetch)?;
    let bytes = Seq::from(ends.file.as_bytes().to_vec(alloc)?);
    let held = Vec::from_array(alloc, [(Text::from_static("p.toml"), bytes)])?;
    Ok(MemoryFetcher::new(Seq::from(held), failing))
}

/// That fetcher alone.
fn fetchers(alloc: Global, ends: Ends) -> Result<Vec<MemoryFetcher>, AllocError>
    ensures { IfOk result (λ fetchers. length fetchers.items ≡ 1) }
{
    Ok(Vec::from_array(alloc, [fetcher(alloc, ends)?])?)
}

/// A link over which the request comes, whose call of that number fails.
fn link(alloc: Global, request: &str, failing: u64) -> Result<MemoryLink, AllocError> {
    let bytes = Seq::from(request.as_bytes().to_vec(alloc)?);
    let failing = Seq::from([failing].to_vec(alloc)?);
    MemoryLink::new(alloc, bytes, 1_000, failing)
}

/// A link with a request, one whose first read fails, and one whose input ends early.
fn links(alloc: Global) -> Result<Seq<MemoryLink>, AllocError> {
    let links = [
        link(alloc, REQUEST, 0)?,
        link(alloc, REQUEST, 1)?,
        link(alloc, "GET /", 0)?,
    ];
    Ok(Seq::from(Vec::from_array(alloc, links)?))
}

fn desk(alloc: Global, accept: usize) -> Result<MemoryDesk, AllocError>
    ensures { IfOk result (λ desk. desk.listener.is_out ≡ false) }
{
    let links = links(alloc)?;
    let failing = failing(alloc, accept)?;
    Ok(Desk {
        listener: MemoryListener::new(alloc, links, failing)?,
        clock: ScriptClock::new(),
        nonces: CountNonces::new(),
    })
}

fn devices_with(alloc: Global, ends: Ends) -> Result<Devices, AllocError>
    ensures desk { IfOk result (λ devices. devices.desk.listener.is_out ≡ false) }
    ensures fetchers { IfOk result (λ devices. length devices.fetchers.items ≡ 1) }
{
    Ok(Devices {
        input: source(alloc, ends)?,
        output: sink(alloc, ends.room, ends.write)?,
        faults: sink(alloc, 100, ends.line)?,
        fetchers: fetchers(alloc, ends)?,
        desk: desk(alloc, ends.accept)?,
    })
}

/// A store without rows.
pub fn empty_store(alloc: Global, ends: Ends) -> Result<MemoryKeeper, AllocError> {
    let failing = failing(alloc, ends.keep)?;
    Ok(MemoryKeeper::new(alloc, Seq::new(alloc), failing))
}

/// The rows of a store, a line each: the number of the kind, the key and the body.
pub fn rows_of(alloc: Global, keeper: &mut MemoryKeeper) -> Result<String, Fail> {
    let mut text = String::new(alloc);
    for row in keeper.load(alloc)?.as_slice() {
        let number = row.kind.number();
        let key = row.key.as_str();
        let body = row.body.as_str();
        text.push_str(format!(in alloc; "{number} {key} {body}\n")?.as_str())?;
    }
    Ok(text)
}

/// The end of a run.
#[derive(Drop)]
pub struct Outcome {
    code: u8,
    devices: Devices,
    keeper: MemoryKeeper,
}

impl Outcome {
    pub fn code(&self) -> u8 {
        self.code
    }

    /// The bytes that output took.
    pub fn output(&self) -> &[u8] {
        self.devices.output.inner.taken()
    }

    /// The bytes that the sink for faults took.
    pub fn faults(&self) -> &[u8] {
        self.devices.faults.inner.taken()
    }

    /// The rows of the store, a line each.
    pub fn rows(&mut self, alloc: Global) -> Result<String, Fail> {
        rows_of(alloc, &mut self.keeper)
    }

    /// The store, for the next run.
    pub fn into_keeper(self) -> MemoryKeeper {
        self.keeper
    }

    /// The links that were taken back.
    pub fn links(&self) -> &[MemoryLink] {
        self.devices.desk.listener.taken_back()
    }
}

/// Loads the CSV on input into a table of the portal.
fn load_on(
    alloc: Global,
    portal: Portal<MemoryKeeper>,
    options: LoadOptions,
    devices: &mut Devices,
) -> Ended<MemoryKeeper>
    requires { length devices.old.fetchers.items ≡ 1 }
{
    let mut portal = portal;
    let status = load_csv(
        alloc,
        &mut portal,
        options,
        &mut devices.input,
        &mut devices.output,
        &mut devices.fetchers[0],
        &mut ScriptClock::new(),
        &mut CountNonces::new(),
    );
    end_with(portal, status, Seq::new(alloc))
}

/// Loads the CSV on input into a table of a portal with that opening.
fn load_over(
    alloc: Global,
    start: &Start,
    options: LoadOptions,
    keeper: MemoryKeeper,
    devices: &mut Devices,
) -> Ended<MemoryKeeper>
    requires opening { IsTrue (is_opening start.now.opening) }
    requires fetchers { length devices.old.fetchers.items ≡ 1 }
{
    match open_portal(alloc, keeper, &start.opening) {
        Ok(portal) => load_on(alloc, portal, options, devices),
        Err(ended) => ended,
    }
}

/// Loads the CSV on input into a table of the portal that the options name.
fn load_from(
    alloc: Global,
    options: LoadOptions,
    keeper: MemoryKeeper,
    devices: &mut Devices,
) -> Ended<MemoryKeeper>
    requires { length devices.old.fetchers.items ≡ 1 }
{
    match start_of(alloc, &mut devices.fetchers[0], &options.portal) {
        Ok(start) => load_over(alloc, &start, options, keeper, devices),
        Err(status) => ended(alloc, status, keeper),
    }
}

/// The end of a command without rounds.
fn ended(alloc: Global, status: Status, keeper: MemoryKeeper) -> Ended<MemoryKeeper> {
    let rounds = Seq::new(alloc);
    Ended {
        status,
        keeper,
        rounds,
    }
}

/// Plays the script on input.
fn play_with(
    alloc: Global,
    options: &PlayOptions,
    keeper: MemoryKeeper,
    devices: &mut Devices,
) -> Ended<MemoryKeeper>
    requires { length devices.old.fetchers.items ≡ 1 }
{
    play_from(
        alloc,
        options,
        &mut devices.input,
        &mut devices.output,
        keeper,
        &mut devices.fetchers,
        &mut ScriptClock::new(),
        &mut CountNonces::new(),
    )
}

/// Harvests the source of the options.
fn harvest_with(
    alloc: Global,
    options: &HarvestOptions,
    keeper: MemoryKeeper,
    devices: &mut Devices,
) -> Ended<MemoryKeeper>
    requires workers { (1 ≤ options.now.workers) × (options.now.workers ≤ 16) }
    requires fetchers { length devices.old.fetchers.items ≡ 1 }
{
    harvest_from(
        alloc,
        options,
        &mut devices.output,
        keeper,
        &mut devices.fetchers,
        &mut ScriptClock::new(),
        &mut CountNonces::new(),
    )
}

/// Carries out the command, as the program does.
fn carry_out(
    alloc: Global,
    command: Command,
    keeper: MemoryKeeper,
    devices: &mut Devices,
) -> Ended<MemoryKeeper>
    requires workers { HasWorkers command }
    requires desk { devices.old.desk.listener.is_out ≡ false }
    requires fetchers { length devices.old.fetchers.items ≡ 1 }
{
    match command {
        Command::Play(options) => play_with(alloc, &options, keeper, devices),
        Command::Load(options) => load_from(alloc, options, keeper, devices),
        Command::Harvest(options) => harvest_with(alloc, &options, keeper, devices),
        Command::Serve(options) => serve_from(
            alloc,
            &options,
            keeper,
            &mut devices.fetchers,
            &mut devices.desk,
        ),
        Command::Report(options) => report_from(
            alloc,
            &options,
            &mut devices.output,
            keeper,
            &mut devices.fetchers,
        ),
    }
}

/// Carries out the command of the words, if they name one.
fn carry_out_words(
    alloc: Global,
    words: &[String],
    keeper: MemoryKeeper,
    devices: &mut Devices,
) -> Ended<MemoryKeeper>
    requires desk { devices.old.desk.listener.is_out ≡ false }
    requires fetchers { length devices.old.fetchers.items ≡ 1 }
{
    match Command::read(alloc, words) {
        Ok(command) => carry_out(alloc, command, keeper, devices),
        Err(WordsFault::BadWords) => ended(alloc, Status::Words, keeper),
        Err(WordsFault::OutOfMemory) => ended(alloc, Status::OutOfMemory, keeper),
    }
}

/// The words of a line, between spaces.
fn words_of(alloc: Global, line: &str) -> Result<Vec<String>, AllocError> {
    let mut words = Vec::new(alloc);
    for word in line.split(' ') {
        words.push(String::from_str(alloc, word)?)?;
    }
    Ok(words)
}

/// The end of the command of the words of a line, over a store that another run may have left.
pub fn ran_over(
    alloc: Global,
    line: &str,
    ends: Ends,
    keeper: MemoryKeeper,
) -> Result<Outcome, AllocError> {
    let words = words_of(alloc, line)?;
    let mut devices = devices_with(alloc, ends)?;
    let Ended { status, keeper, .. } = carry_out_words(
        alloc,
        words.as_slice(),
        keeper,
        &mut devices,
    );
    let code = report(&mut devices.faults, status).code();
    Ok(Outcome {
        code,
        devices,
        keeper,
    })
}

/// The end of the command of the words of a line.
pub fn ran(alloc: Global, line: &str, ends: Ends) -> Result<Outcome, AllocError> {
    ran_over(alloc, line, ends, empty_store(alloc, ends)?)
}
