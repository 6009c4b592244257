//! Runs over devices in memory, with a catalogue at `a.nt`.
ghost use Rattle.std.specs.Prelude.{◌≡◌, IfOk, length};

use portal_base::counted::{CountNonces, ScriptClock};
use portal_base::memory::{MemoryFetcher, MemorySink, MemorySource};
use portal_base::seq::Seq;
use portal_base::text::Text;
use portal_keeper::keeper::Keeper;
use portal_keeper::memory::MemoryKeeper;
use portal_start::commands::play_from;
use portal_start::harvest::harvest_from;
use portal_start::over_store::Ended;
use portal_words::{HarvestOptions, PlayOptions};
use std::alloc::{AllocError, Global};
use std::test::Fail;

/// A catalogue with two datasets.
const CATALOGUE: &str =
    "_:c <http://www.w3.org/1999/02/22-rdf-syntax-ns#type> <http://www.w3.org/ns/dcat#Catalog> .\n\
    _:c <http://www.w3.org/ns/dcat#dataset> <abc> .\n\
    _:c <http://www.w3.org/ns/dcat#dataset> <hello> .\n\
    <abc> <http://www.w3.org/1999/02/22-rdf-syntax-ns#type> <http://www.w3.org/ns/dcat#Dataset> .\n\
    <abc> <http://purl.org/dc/terms/title> \"A\" .\n\
    <hello> <http://www.w3.org/1999/02/22-rdf-syntax-ns#type> <http://www.w3.org/ns/dcat#Dataset> .\n\
    <hello> <http://purl.org/dc/terms/title> \"B\" .\n";

/// The end of a run: its status, what it wrote, the count of its rounds, and its store for the next run.
#[derive(Drop)]
pub struct Outcome {
    pub code: u8,
    output: MemorySink,
    pub rounds: usize,
    pub keeper: MemoryKeeper,
}

impl Outcome {
    /// Whether the run ended with this status and these lines.
    pub fn is(&self, code: u8, lines: &str) -> bool {
        self.code == code && self.output.taken() == lines.as_bytes()
    }
}

/// A store without rows whose call of that number fails, the first one 1.
pub fn store_failing_at(alloc: Global, call: u64) -> Result<MemoryKeeper, AllocError> {
    let failing = Seq::from([call].to_vec(alloc)?);
    Ok(MemoryKeeper::new(alloc, Seq::new(alloc), failing))
}

/// A fetcher that holds the catalogue, alone.
fn fetchers(alloc: Global) -> Result<Vec<MemoryFetcher>, AllocError>
    ensures { IfOk result (λ fetchers. length fetchers.items ≡ 1) }
{
    let catalogue = Seq::from(CATALOGUE.as_bytes().to_vec(alloc)?);
    let held = Vec::from_array(alloc, [(Text::from_static("a.nt"), catalogue)])?;
    let fetcher = MemoryFetcher::new(Seq::from(held), Seq::new(alloc));
    Ok(Vec::from_array(alloc, [fetcher])?)
}

fn outcome_of(output: MemorySink, ended: Ended<MemoryKeeper>) -> Outcome {
    let Ended {
        status,
        keeper,
        rounds,
    } = ended;
    Outcome {
        code: status.code(),
        output,
        rounds: rounds.len(),
        keeper,
    }
}

/// Plays the script on the default portal over the store.
pub fn played(alloc: Global, script: &str, keeper: MemoryKeeper) -> Result<Outcome, AllocError> {
    let bytes = Seq::from(script.as_bytes().to_vec(alloc)?);
    let mut input = MemorySource::new(bytes, Seq::new(alloc));
    let mut output = MemorySink::new(alloc, 4_000, Seq::new(alloc))?;
    let ended = play_from(
        alloc,
        &PlayOptions { portal: None },
        &mut input,
        &mut output,
        keeper,
        &mut fetchers(alloc)?,
        &mut ScriptClock::new(),
        &mut CountNonces::new(),
    );
    Ok(outcome_of(output, ended))
}

/// Harvests the source as that caller on the default portal over the store. Output takes that many bytes.
pub fn harvested(
    alloc: Global,
    source: &'static str,
    caller: &'static str,
    room: usize,
    keeper: MemoryKeeper,
) -> Result<Outcome, AllocError> {
    let mut output = MemorySink::new(alloc, room, Seq::new(alloc))?;
    let options = HarvestOptions {
        portal: None,
        caller: Text::from_static(caller),
        source: Text::from_static(source),
        workers: 4,
    };
    let ended = harvest_from(
        alloc,
        &options,
        &mut output,
        keeper,
        &mut fetchers(alloc)?,
        &mut ScriptClock::new(),
        &mut CountNonces::new(),
    );
    Ok(outcome_of(output, ended))
}

/// The rows of a store, a line each: the number of the kind, the key and the body.
pub fn rows_of(alloc: Global, keeper: &mut MemoryKeeper) -> Result<String, Fail> {
    let mut text = String::new(alloc);
    for row in keeper.load(alloc)?.as_slice() {
        let number = row.kind.number();
        let key = row.key.as_str();
        let body = row.body.as_str();
        text.push_str(format!(in alloc; "{number} {key} {body}\n")?.as_str())?;
    }
    Ok(text)
}
