//! A portal that is opened again on what its keeper has: in memory, and over SQLite.
ghost use Rattle.std.specs.Prelude.{◌≡◌, IfOk, length};

use keeper_sqlite::SqliteKeeper;
use portal_base::counted::{CountNonces, ScriptClock};
use portal_base::memory::{MemoryFetcher, MemorySink, MemorySource};
use portal_base::seq::Seq;
use portal_base::text::Text;
use portal_keeper::keeper::Keeper;
use portal_keeper::memory::MemoryKeeper;
use portal_start::commands::play_from;
use portal_start::over_store::Ended;
use portal_words::PlayOptions;
use sqlite::{Connection, MemStore};
use std::alloc::{AllocError, Global};
use std::test::Fail;

/// A table that is made and changed, a source that is harvested, and another one that gets a job.
const SCRIPT: &str =
    r#"{"action":"package_create","as":"ann","body":{"name":"keys","owner_org":"city","resources":[{"name":"t"}]}}
{"action":"datastore_create","as":"ann","body":{"resource_id":"keys.1","fields":[{"id":"k","type":"int"},{"id":"v"}],"primary_key":"k","records":[{"k":1,"v":"a"}]}}
{"action":"datastore_upsert","as":"ann","body":{"resource_id":"keys.1","records":[{"k":2,"v":"b"},{"k":2,"v":"c"}]}}
{"action":"datastore_upsert","as":"ann","body":{"resource_id":"keys.1","method":"insert","records":[{"k":3},{"k":1}]}}
{"action":"datastore_upsert","as":"ann","body":{"resource_id":"keys.1","method":"update","records":[{"k":9,"v":"z"}]}}
{"action":"datastore_upsert","as":"ann","body":{"resource_id":"keys.1","method":"insert","records":[{"k":3}]}}
{"action":"harvest_source_create","as":"cyn","body":{"name":"pond","url":"a.nt","owner_org":"city"}}
{"action":"harvest_job_create","as":"cyn","body":{"source_id":"pond"}}
{"round":1}
{"action":"harvest_source_create","as":"cyn","body":{"name":"lake","url":"a.nt","owner_org":"city"}}
{"action":"harvest_job_create","as":"cyn","body":{"source_id":"lake"}}
"#;

/// The catalogue of both sources.
const CATALOGUE: &str =
    "_:c <http://www.w3.org/1999/02/22-rdf-syntax-ns#type> <http://www.w3.org/ns/dcat#Catalog> .\n\
    _:c <http://www.w3.org/ns/dcat#dataset> <abc> .\n\
    <abc> <http://www.w3.org/1999/02/22-rdf-syntax-ns#type> <http://www.w3.org/ns/dcat#Dataset> .\n\
    <abc> <http://purl.org/dc/terms/title> \"A\" .\n";

const SEARCH: &str = r#"{"action":"datastore_search","body":{"resource_id":"keys.1"}}
{"action":"harvest_job_show","as":"cyn","body":{"id":"lake.1"}}
{"action":"package_list"}
{"round":1}
"#;

const FOUND: &str =
    "200 {\"help\":\"/api/3/action/help_show?name=datastore_search\",\"result\":{\"fields\":\
    [{\"id\":\"_id\",\"type\":\"int\"},{\"id\":\"k\",\"type\":\"int\"},{\"id\":\"v\",\"type\":\"text\"}],\"limit\":100,\
    \"offset\":0,\"records\":[{\"_id\":1,\"k\":1,\"v\":\"a\"},{\"_id\":2,\"k\":2,\"v\":\"c\"},{\"_id\":3,\"k\":3,\"v\":null}],\
    \"resource_id\":\"00000000-0000-0000-0000-000000000001.1\",\"total\":3},\"success\":true}\n\
    200 {\"help\":\"/api/3/action/help_show?name=harvest_job_show\",\"result\":{\"created\":\"2024-01-01T00:00:09\",\
    \"id\":\"lake.1\",\"source_id\":\"lake\",\"state\":\"New\",\"stats\":{\"added\":0,\"bad\":[],\"cause\":\"\",\"deleted\":0,\
    \"source\":\"lake\",\"state\":\"New\",\"unchanged\":0,\"unnamed\":0,\"updated\":0}},\"success\":true}\n\
    200 {\"help\":\"/api/3/action/help_show?name=package_list\",\"result\":\
    [\"hv-pond-ba7816bf8f01cfea414140de5dae2223b00361a3\",\"keys\"],\"success\":true}\n\
    round {\"sources\":[{\"added\":1,\"bad\":[],\"cause\":\"\",\"deleted\":0,\"source\":\"lake\",\"state\":\"Finished\",\
    \"unchanged\":0,\"unnamed\":0,\"updated\":0}]}\n";

/// A fetcher that holds the catalogue, alone.
fn fetchers(alloc: Global) -> Result<Vec<MemoryFetcher>, AllocError>
    ensures { IfOk result (λ fetchers. length fetchers.items ≡ 1) }
{
    let catalogue = Seq::from(CATALOGUE.as_bytes().to_vec(alloc)?);
    let held = Vec::from_array(alloc, [(Text::from_static("a.nt"), catalogue)])?;
    let fetcher = MemoryFetcher::new(Seq::from(held), Seq::new(alloc));
    Ok(Vec::from_array(alloc, [fetcher])?)
}

/// The end of a played script, and its output.
#[derive(Drop)]
struct Played<K> {
    ended: Ended<K>,
    output: MemorySink,
}

/// Plays the script on the default portal over the keeper.
fn play_over<K: Keeper + Drop>(
    alloc: Global,
    script: &str,
    keeper: K,
) -> Result<Played<K>, AllocError> {
    let bytes = Seq::from(script.as_bytes().to_vec(alloc)?);
    let mut input = MemorySource::new(bytes, Seq::new(alloc));
    let mut output = MemorySink::new(alloc, 8_000, Seq::new(alloc))?;
    let ended = play_from(
        alloc,
        &PlayOptions { portal: None },
        &mut input,
        &mut output,
        keeper,
        &mut fetchers(alloc)?,
        &mut ScriptClock::new(),
        &mut CountNonces::new(),
    );
    Ok(Played { ended, output })
}

/// Whether the portal over this keeper finds the rows, the job and the harvested dataset that the script left, and its next round
/// ends the job.
fn finds_rows<K: Keeper + Drop>(alloc: Global, keeper: K) -> Result<bool, AllocError> {
    let Played { ended, output } = play_over(alloc, SEARCH, keeper)?;
    Ok(ended.status.code() == 0 && output.taken() == FOUND.as_bytes())
}

#[test]
fn rows_in_memory_are_found_again(rt: HostRuntime) -> Result<(), Fail> {
    let alloc = rt.alloc();
    let keeper = MemoryKeeper::new(alloc, Seq::new(alloc), Seq::new(alloc));
    let Ended { status, keeper, .. } = play_over(alloc, SCRIPT, keeper)?.ended;
    assert!(rt; status.code() == 0);
    assert!(rt; finds_rows(alloc, keeper)?);
    Ok(())
}

// One connection is adopted twice.
#[test]
fn rows_over_sqlite_are_found_again(rt: HostRuntime) -> Result<(), Fail> {
    let alloc = rt.alloc();
    let connection: Connection<MemStore> = Connection::open_in_memory(alloc)?;
    let Ended { status, keeper, .. } = play_over(
        alloc,
        SCRIPT,
        SqliteKeeper::adopt(connection),
    )?.ended;
    assert!(rt; status.code() == 0);
    assert!(rt; finds_rows(alloc, SqliteKeeper::adopt(keeper.into_connection()))?);
    Ok(())
}
