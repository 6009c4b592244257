//! Scripts and their transcripts: `NAME.script` is played, and `NAME.transcript` has what is expected: the lines that are
//! written, and after them `status N` where the run ends with another status than 0. So a further case is two files. Rounds
//! fetch the documents of the folder `documents`. In `NAME--3--5.transcript` is what is expected of `NAME.script` where the
//! third and the fifth fetch fail.
//!
//! `store_failed.reply` and `out_of_memory.reply` have what is written for a call that the store doesn't keep and for one for
//! which there is no memory, to which no script comes.
ghost use Rattle.std.specs.Prelude.{◌≡◌, length};

use crate::documents::{alone, fetcher_for};
use action_api::reply::reply_text;
use cases::{Buffer, Location, Tally, invalid};
use portal_base::counted::{CountNonces, ScriptClock};
use portal_base::memory::{MemoryFetcher, MemorySink, MemorySource};
use portal_base::seq::Seq;
use portal_core::event::{Refusal, Reply};
use portal_core::portal::Portal;
use portal_keeper::memory::MemoryKeeper;
use portal_serve::defaults::default_portal;
use portal_serve::play::{PlayEnd, play};
use std::alloc::{AllocError, Global};
use std::{fs, io};

/// How many bytes of a transcript there is room for.
const ROOM: usize = 100_000;

/// The program's status for a run that ends so.
fn status_of(end: PlayEnd) -> u8 {
    match end {
        PlayEnd::Done => 0,
        PlayEnd::ReadFault => 3,
        PlayEnd::WriteFault => 4,
        PlayEnd::KeeperFault => 5,
        PlayEnd::OutOfMemory => 6,
        PlayEnd::TooLong => 9,
    }
}

/// The program's status after the script was played on the portal.
fn status_after(
    alloc: Global,
    portal: &mut Portal<MemoryKeeper>,
    input: &mut MemorySource,
    output: &mut MemorySink,
    fetchers: &mut Vec<MemoryFetcher>,
) -> u8
    requires { length fetchers.old.items ≡ 1 }
{
    let (end, _reports) = play(
        alloc,
        portal,
        input,
        output,
        fetchers,
        &mut ScriptClock::new(),
        &mut CountNonces::new(),
    );
    status_of(end)
}

/// What was written, and after it the status where that isn't 0.
fn transcript_of(alloc: Global, written: &[u8], status: u8) -> Buffer {
    let mut transcript = Buffer::new(alloc);
    transcript.push_bytes(written);
    if status != 0 {
        transcript.push("status ");
        transcript.push_value(&status);
        transcript.push("\n");
    }
    transcript
}

/// Plays the script on the portal, with the fetcher alone: the transcript, and after it the status where that isn't 0.
pub fn play_on(
    alloc: Global,
    portal: &mut Portal<MemoryKeeper>,
    script: Vec<u8>,
    fetcher: MemoryFetcher,
) -> Result<Buffer, AllocError> {
    let mut fetchers = alone(alloc, fetcher)?;
    let mut output = MemorySink::new(alloc, ROOM, Seq::new(alloc))?;
    let mut input = MemorySource::new(Seq::from(script), Seq::new(alloc));
    let status = status_after(alloc, portal, &mut input, &mut output, &mut fetchers);
    Ok(transcript_of(alloc, output.taken(), status))
}

/// The line of the first byte in which the two differ, the first one 1.
fn line_of_difference(expected: &[u8], found: &[u8]) -> u64 {
    let mut line: u64 = 1;
    for (one, other) in expected.iter().zip(found.iter()) {
        if one != other {
            return line;
        }
        if *one == b'\n' {
            line = line.saturating_add(1);
        }
    }
    line
}

/// The name of a file with that ending.
fn file_name(alloc: Global, name: &str, ending: &str) -> Result<String, AllocError> {
    format!(in alloc; "{name}{ending}")
}

/// Compares what was written with the content of the file with that ending.
pub fn compare_with(
    rt: &HostRuntime,
    tally: &mut Tally,
    name: &str,
    ending: &str,
    found: &[u8],
) -> io::Result<()> {
    let file = file_name(rt.alloc(), name, ending)?;
    let file = file.as_str();
    let expected = fs::read(rt, file)?;
    let line = line_of_difference(expected.as_slice(), found);
    tally.compare(rt, Location { file, line }, expected.as_slice(), found);
    Ok(())
}

/// The content of the file with that ending.
pub fn content_of(rt: &HostRuntime, name: &str, ending: &str) -> io::Result<Vec<u8>> {
    fs::read(rt, file_name(rt.alloc(), name, ending)?)
}

/// The name of the script to which the transcript of this name belongs.
fn script_of(name: &str) -> &str {
    match name.split_once("--") {
        Some((script, _numbers)) => script,
        None => name,
    }
}

/// The numbers of the fetches that fail, which the name of a transcript has behind that of the script.
fn failing_fetches(alloc: Global, name: &str) -> io::Result<Vec<u64>> {
    let mut failing = Vec::new(alloc);
    for number in name.split("--").skip(1) {
        match number.parse::<u64>() {
            Ok(number) => failing.push(number)?,
            Err(_) => return Err(invalid()),
        }
    }
    Ok(failing)
}

/// The transcript of the script on the default portal, with the fetcher alone.
fn played(alloc: Global, script: Vec<u8>, fetcher: MemoryFetcher) -> Result<Buffer, AllocError> {
    let mut portal = default_portal(alloc)?;
    play_on(alloc, &mut portal, script, fetcher)
}

/// Plays the script of the transcript of this name, and compares what it writes with the transcript.
fn check_script(rt: &HostRuntime, tally: &mut Tally, name: &str) -> io::Result<()> {
    let script = content_of(rt, script_of(name), ".script")?;
    let failing = failing_fetches(rt.alloc(), name)?;
    let fetcher = fetcher_for(rt, script.as_slice(), failing)?;
    let found = played(rt.alloc(), script, fetcher)?;
    compare_with(rt, tally, name, ".transcript", found.bytes()?)
}

/// What is written for a call that is refused like this.
fn refusal_line(alloc: Global, refusal: Refusal) -> Result<Buffer, AllocError> {
    let reply = Ok(Reply::Refused(refusal));
    let (status, text) = reply_text(alloc, Some("package_show"), &reply)?;
    let mut written = Buffer::of_value(alloc, &status);
    written.push(" ");
    written.push_bytes(text.as_slice());
    written.push("\n");
    Ok(written)
}

/// Compares what is written for a call that is refused like this with the reply of that name.
fn check_refusal(
    rt: &HostRuntime,
    tally: &mut Tally,
    name: &str,
    refusal: Refusal,
) -> io::Result<()> {
    let found = refusal_line(rt.alloc(), refusal)?;
    compare_with(rt, tally, name, ".reply", found.bytes()?)
}

/// Adds what comes before the ending in the file's name, where it has that ending.
fn push_name(
    alloc: Global,
    names: &mut Vec<String>,
    file: &str,
    ending: &str,
) -> Result<(), AllocError> {
    if let Some(name) = file.strip_suffix(ending) {
        names.push(String::from_str(alloc, name)?)?;
    }
    Ok(())
}

/// What comes before the ending in the names of the folder's files with it, ascending.
pub fn names_with(rt: &HostRuntime, ending: &str) -> io::Result<Vec<String>> {
    let mut names = Vec::new(rt.alloc());
    for entry in fs::read_dir(rt, ".")? {
        let entry = entry?;
        push_name(rt.alloc(), &mut names, entry.file_name(), ending)?;
    }
    names.sort()?;
    Ok(names)
}

/// Plays the scripts of all transcripts of the folder, and writes the refusals to which none comes.
pub fn check_scripts(rt: &HostRuntime, tally: &mut Tally) -> io::Result<()> {
    for name in names_with(rt, ".transcript")?.iter() {
        check_script(rt, tally, name.as_str())?;
    }
    check_refusal(rt, tally, "store_failed", Refusal::KeeperFault)?;
    check_refusal(rt, tally, "out_of_memory", Refusal::OutOfMemory)
}
