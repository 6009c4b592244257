//! Commands, read from words.
ghost use Rattle.std.specs.Prelude.{◌≡◌, ◌≤◌, map, string_bytes, option_and_then, option_map, Some, None, IfOk, IfSome};
ghost use Rattle.std.specs.Prelude.{IsErrOf};
ghost use Rattle.portal_words.specs.Commands.{HasWorkers, caller_for, command_of, harvest_with, kind_for, load_with, play_with};
ghost use Rattle.portal_words.specs.Commands.{report_with, serve_with, workers_for};
ghost use Rattle.portal_words.specs.Grammar.{options_in};

use crate::options::options_in;
use crate::values::{number_of, required_text_of, text_of};
use clap::error::ErrorKind;
use portal_base::caller::Caller;
use portal_base::text::Text;
use std::alloc::{AllocError, Global};
use thiserror::Error;

/// A command of the program.
#[derive(Drop)]
pub enum Command {
    /// Plays the script on input.
    Play(PlayOptions),
    /// Loads the CSV on input into a new table.
    Load(LoadOptions),
    /// Makes a job of a harvest source, and runs a round of harvests.
    Harvest(HarvestOptions),
    /// Serves links.
    Serve(ServeOptions),
    /// Prints a report.
    Report(ReportOptions),
}

/// The options of `play`.
#[derive(Drop)]
pub struct PlayOptions {
    /// The location of the portal file.
    pub portal: Option<Text>,
}

/// The options of `load`. The last three are required.
#[derive(Drop)]
pub struct LoadOptions {
    /// The location of the portal file.
    pub portal: Option<Text>,
    /// The name of the user who calls, known or not.
    pub caller: Text,
    /// The name or id of the resource.
    pub resource: Text,
    /// The location of the table's schema (Table Schema v1).
    pub schema: Text,
}

/// The options of `harvest`. The caller and the source are required.
#[derive(Drop)]
pub struct HarvestOptions {
    /// The location of the portal file.
    pub portal: Option<Text>,
    /// The name of the user who calls, known or not.
    pub caller: Text,
    /// The name of the source.
    pub source: Text,
    /// The most workers of the round, from 1 to 16.
    pub workers: u32,
}

/// The options of `serve`.
#[derive(Drop)]
pub struct ServeOptions {
    /// The location of the portal file.
    pub portal: Option<Text>,
    /// The most links to serve, from 1 to 1,000,000,000.
    pub links: u64,
}

/// What is reported.
#[derive(Clone, Copy, Debug, PartialEq, Eq)]
pub enum ReportKind {
    /// The organizations, with the numbers of their datasets.
    Datasets,
    /// The tables, with the numbers of their rows and columns.
    Tables,
}

/// The options of `report`. The kind is required.
#[derive(Drop)]
pub struct ReportOptions {
    /// The location of the portal file.
    pub portal: Option<Text>,
    /// What is reported.
    pub kind: ReportKind,
    /// Who asks for the report: the user of this name, known or not, or nobody.
    pub caller: Caller,
}

/// Why words name no command. `OutOfMemory` says nothing about the words.
#[derive(Clone, Copy, Debug, PartialEq, Eq, Error)]
pub enum WordsFault {
    #[error("bad words")]
    BadWords,
    #[error("out of memory")]
    OutOfMemory,
}

impl From<AllocError> for WordsFault {
    ghost use Rattle.std.specs.Prelude.{◌≡◌};
    ghost use Rattle.portal_words.specs.declared.command.WordsFault.TheVariants.{OutOfMemory};

    ghost from_gives = { λ _ fault. fault ≡ OutOfMemory };

    fn from(_refused: AllocError) -> WordsFault {
        WordsFault::OutOfMemory
    }
}

impl From<clap::Error> for WordsFault {
    ghost use Rattle.std.specs.Prelude.{◌≡◌};
    ghost use Rattle.clap.specs.Words.{kind_of};
    ghost use Rattle.portal_words.specs.Options.{fault_for};

    ghost from_gives = { λ error fault. fault ≡ fault_for (kind_of error) };

    fn from(error: clap::Error) -> WordsFault {
        match error.kind() {
            ErrorKind::OutOfMemory => WordsFault::OutOfMemory,
            _ => WordsFault::BadWords,
        }
    }
}

static OPTIONS_OF_PLAY: [&str; 1] = ["portal"];

static OPTIONS_OF_LOAD: [&str; 4] = ["portal", "as", "resource", "schema"];

static OPTIONS_OF_HARVEST: [&str; 4] = ["portal", "as", "source", "workers"];

static OPTIONS_OF_SERVE: [&str; 2] = ["portal", "links"];

static OPTIONS_OF_REPORT: [&str; 3] = ["portal", "kind", "as"];

/// The largest value of `--links`, which is also its default.
const MOST_LINKS: u64 = 1_000_000_000;

/// The largest value of `--workers`.
const MOST_WORKERS: u64 = 16;

/// The workers of a round if `--workers` is absent.
const DEFAULT_WORKERS: u64 = 4;

/// The command `play` with the options in the words.
fn play(alloc: Global, words: &[String]) -> Result<Command, WordsFault>
    ensures ok { IfOk result (λ command. option_and_then play_with (options_in (map string_bytes words.now))
        ≡ Some command) }
    ensures bad { IsErrOf result WordsFault.BadWords
        → option_and_then play_with (options_in (map string_bytes words.now)) ≡ None }
    ensures workers { IfOk result HasWorkers }
{
    let given = options_in(alloc, OPTIONS_OF_PLAY.as_slice(), words)?;
    let portal = text_of(alloc, given.get_str("portal"))?;
    Ok(Command::Play(PlayOptions { portal }))
}

/// The command `load` with the options in the words.
fn load(alloc: Global, words: &[String]) -> Result<Command, WordsFault>
    ensures ok { IfOk result (λ command. option_and_then load_with (options_in (map string_bytes words.now))
        ≡ Some command) }
    ensures bad { IsErrOf result WordsFault.BadWords
        → option_and_then load_with (options_in (map string_bytes words.now)) ≡ None }
    ensures workers { IfOk result HasWorkers }
{
    let given = options_in(alloc, OPTIONS_OF_LOAD.as_slice(), words)?;
    let portal = text_of(alloc, given.get_str("portal"))?;
    let caller = required_text_of(alloc, given.get_str("as"))?;
    let resource = required_text_of(alloc, given.get_str("resource"))?;
    let schema = required_text_of(alloc, given.get_str("schema"))?;
    Ok(Command::Load(LoadOptions {
        portal,
        caller,
        resource,
        schema,
    }))
}

/// The workers of a round, by the value of `--workers`.
fn workers_of(value: Option<&str>) -> Option<u32>
    ensures workers { result ≡ workers_for (option_map (λ v. v.now) value.entry) }
    ensures within { IfSome result (λ workers. (1 ≤ workers) × (workers ≤ 16)) }
{
    match number_of(1, MOST_WORKERS, DEFAULT_WORKERS, value) {
        Some(workers) => Some(workers as u32),
        None => None,
    }
}

/// The command `harvest` with the options in the words.
fn harvest(alloc: Global, words: &[String]) -> Result<Command, WordsFault>
    ensures ok { IfOk result (λ command. option_and_then harvest_with (options_in (map string_bytes words.now))
        ≡ Some command) }
    ensures bad { IsErrOf result WordsFault.BadWords
        → option_and_then harvest_with (options_in (map string_bytes words.now)) ≡ None }
    ensures workers { IfOk result HasWorkers }
{
    let given = options_in(alloc, OPTIONS_OF_HARVEST.as_slice(), words)?;
    let Some(workers) = workers_of(given.get_str("workers")) else {
        return Err(WordsFault::BadWords);
    };
    let portal = text_of(alloc, given.get_str("portal"))?;
    let caller = required_text_of(alloc, given.get_str("as"))?;
    let source = required_text_of(alloc, given.get_str("source"))?;
    Ok(Command::Harvest(HarvestOptions {
        portal,
        caller,
        source,
        workers,
    }))
}

/// The command `serve` with the options in the words.
fn serve(alloc: Global, words: &[String]) -> Result<Command, WordsFault>
    ensures ok { IfOk result (λ command. option_and_then serve_with (options_in (map string_bytes words.now))
        ≡ Some command) }
    ensures bad { IsErrOf result WordsFault.BadWords
        → option_and_then serve_with (options_in (map string_bytes words.now)) ≡ None }
    ensures workers { IfOk result HasWorkers }
{
    let given = options_in(alloc, OPTIONS_OF_SERVE.as_slice(), words)?;
    let portal = text_of(alloc, given.get_str("portal"))?;
    match number_of(1, MOST_LINKS, MOST_LINKS, given.get_str("links")) {
        Some(links) => Ok(Command::Serve(ServeOptions { portal, links })),
        None => Err(WordsFault::BadWords),
    }
}

/// What is reported, by the value of `--kind`.
fn kind_of(value: Option<&str>) -> Option<ReportKind>
    ensures { result ≡ kind_for (option_map (λ v. v.now) value.entry) }
{
    match value? {
        "datasets" => Some(ReportKind::Datasets),
        "tables" => Some(ReportKind::Tables),
        _ => None,
    }
}

/// Who calls, by the name of a user.
fn caller_of(name: Option<Text>) -> Caller
    ensures { result ≡ caller_for name }
{
    match name {
        Some(name) => Caller::Named(name),
        None => Caller::Anonymous,
    }
}

/// The command `report` with the options in the words.
fn report(alloc: Global, words: &[String]) -> Result<Command, WordsFault>
    ensures ok { IfOk result (λ command. option_and_then report_with (options_in (map string_bytes words.now))
        ≡ Some command) }
    ensures bad { IsErrOf result WordsFault.BadWords
        → option_and_then report_with (options_in (map string_bytes words.now)) ≡ None }
    ensures workers { IfOk result HasWorkers }
{
    let given = options_in(alloc, OPTIONS_OF_REPORT.as_slice(), words)?;
    let portal = text_of(alloc, given.get_str("portal"))?;
    let Some(kind) = kind_of(given.get_str("kind")) else {
        return Err(WordsFault::BadWords);
    };
    let caller = caller_of(text_of(alloc, given.get_str("as"))?);
    Ok(Command::Report(ReportOptions {
        portal,
        kind,
        caller,
    }))
}

impl Command {
    /// Reads the command from the words after the program's name. If they name no command, the fault is `BadWords`,
    /// unless memory runs out.
    pub fn read(alloc: Global, words: &[String]) -> Result<Command, WordsFault>
        ensures ok { IfOk result (λ command. command_of (map string_bytes words.now) ≡ Some command) }
        ensures bad { IsErrOf result WordsFault.BadWords → command_of (map string_bytes words.now) ≡ None }
        ensures workers { IfOk result HasWorkers }
    {
        let Some((name, words)) = words.split_first() else {
            return Err(WordsFault::BadWords);
        };
        match name.as_str() {
            "play" => play(alloc, words),
            "load" => load(alloc, words),
            "harvest" => harvest(alloc, words),
            "serve" => serve(alloc, words),
            "report" => report(alloc, words),
            _ => Err(WordsFault::BadWords),
        }
    }
}
