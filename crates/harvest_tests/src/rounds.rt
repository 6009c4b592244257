//! Stores that fail at each call of a round, and the round after.
use crate::memory::{Outcome, harvested, played, rows_of, store_failing_at};
use portal_keeper::memory::MemoryKeeper;
use std::alloc::Global;
use std::test::Fail;

/// A source. Over a store without rows its creation is the third call of the store.
const SOURCE: &str =
    r#"{"action":"harvest_source_create","as":"cyn","body":{"name":"aa","url":"a.nt","owner_org":"city"}}
"#;

/// A job, and a round of it.
const JOB_AND_ROUND: &str = r#"{"action":"harvest_job_create","as":"cyn","body":{"source_id":"aa"}}
{"round":1}
"#;

const ROUND: &str = "{\"round\":1}\n";

const SOURCE_CREATED: &str =
    "200 {\"help\":\"/api/3/action/help_show?name=harvest_source_create\",\"result\":{\"id\":\"aa\",\"name\":\"aa\",\
    \"owner_org\":\"city\",\"title\":\"aa\",\"url\":\"a.nt\"},\"success\":true}\n";

const JOB_CREATED: &str =
    "200 {\"help\":\"/api/3/action/help_show?name=harvest_job_create\",\"result\":{\"created\":\"2024-01-01T00:00:00\",\
    \"id\":\"aa.1\",\"source_id\":\"aa\",\"state\":\"New\",\"stats\":{\"added\":0,\"bad\":[],\"cause\":\"\",\"deleted\":0,\
    \"source\":\"aa\",\"state\":\"New\",\"unchanged\":0,\"unnamed\":0,\"updated\":0}},\"success\":true}\n";

const JOB_REFUSED: &str =
    "409 {\"error\":{\"__type\":\"Validation Error\",\"source_id\":[\"A job of this source is not finished\"]},\
    \"help\":\"/api/3/action/help_show?name=harvest_job_create\",\"success\":false}\n";

const NOT_FOUND: &str =
    "404 {\"error\":{\"__type\":\"Not Found Error\",\"message\":\"Not found: Harvest source\"},\
    \"help\":\"/api/3/action/help_show?name=harvest_job_create\",\"success\":false}\n";

/// The rows before those of datasets.
const FIRST_ROWS: &str = "1 portal 1\n\
    2 city {\"created\":\"1970-01-01T00:00:00\",\"description\":\"\",\"roles\":{\"ann\":\"editor\",\"bob\":\"member\",\
    \"cyn\":\"admin\"},\"title\":\"City\"}\n";

/// The row of the dataset that is settled first.
const FIRST_DATASET: &str =
    "3 hv-aa-ba7816bf8f01cfea414140de5dae2223b00361a3 {\"author\":\"\",\"created\":\"1970-01-01T00:00:00\",\"creator\":\"\",\
    \"iri\":\"abc\",\"license_id\":\"\",\"maintainer\":\"\",\"modified\":\"1970-01-01T00:00:00\",\
    \"name\":\"hv-aa-ba7816bf8f01cfea414140de5dae2223b00361a3\",\"next_resource\":1,\"notes\":\"\",\"owner_org\":\"city\",\
    \"private\":false,\"resources\":[],\"source\":\"aa\",\"state\":\"active\",\"tags\":[],\"title\":\"A\",\"url\":\"\",\
    \"version\":\"\"}\n";

/// The row of the dataset that is settled second. It is kept before the first.
const SECOND_DATASET: &str =
    "3 hv-aa-2cf24dba5fb0a30e26e83b2ac5b9e29e1b161e5c {\"author\":\"\",\"created\":\"1970-01-01T00:00:00\",\"creator\":\"\",\
    \"iri\":\"hello\",\"license_id\":\"\",\"maintainer\":\"\",\"modified\":\"1970-01-01T00:00:00\",\
    \"name\":\"hv-aa-2cf24dba5fb0a30e26e83b2ac5b9e29e1b161e5c\",\"next_resource\":1,\"notes\":\"\",\"owner_org\":\"city\",\
    \"private\":false,\"resources\":[],\"source\":\"aa\",\"state\":\"active\",\"tags\":[],\"title\":\"B\",\"url\":\"\",\
    \"version\":\"\"}\n";

/// A call of the store that fails, the first one 1: whether the job is kept before it, and how many datasets are.
#[derive(Clone, Copy)]
struct Case {
    call: u64,
    has_job: bool,
    datasets: u8,
}

fn before_the_job(call: u64) -> Case {
    Case {
        call,
        has_job: false,
        datasets: 0,
    }
}

fn in_the_round(call: u64, datasets: u8) -> Case {
    Case {
        call,
        has_job: true,
        datasets,
    }
}

/// The calls of the second run over a store: one that gives the rows, one that puts the job, and one for each step of the
/// round, which are its begin, the job's begin, the list, a claim and a settlement for each of two datasets, and the end.
fn cases() -> [Case; 10] {
    [
        before_the_job(4),
        before_the_job(5),
        in_the_round(6, 0),
        in_the_round(7, 0),
        in_the_round(8, 0),
        in_the_round(9, 0),
        in_the_round(10, 0),
        in_the_round(11, 1),
        in_the_round(12, 1),
        in_the_round(13, 2),
    ]
}

/// The rows of that count of datasets.
fn dataset_rows(datasets: u8) -> [&'static str; 2] {
    match datasets {
        0 => ["", ""],
        1 => ["", FIRST_DATASET],
        _ => [SECOND_DATASET, FIRST_DATASET],
    }
}

/// The report of the source's job in that state.
fn report_text(alloc: Global, state: &str, added: u8, unchanged: u8) -> Result<String, Fail> {
    Ok(format!(in alloc;
        "{{\"added\":{added},\"bad\":[],\"cause\":\"\",\"deleted\":0,\"source\":\"aa\",\"state\":\"{state}\",\"unchanged\":{unchanged},\"unnamed\":0,\"updated\":0}}"
    )?)
}

/// The row of the job with this report.
fn job_row(alloc: Global, state: &str, report: &str) -> Result<String, Fail> {
    Ok(format!(in alloc;
        "7 aa.1 {{\"created\":\"2024-01-01T00:00:00\",\"state\":\"{state}\",\"stats\":{report}}}\n"
    )?)
}

/// The row of the source whose next job has that number.
fn source_row(alloc: Global, next_job: u8) -> Result<String, Fail> {
    Ok(format!(in alloc;
        "6 aa {{\"next_job\":{next_job},\"owner_org\":\"city\",\"title\":\"aa\",\"url\":\"a.nt\"}}\n"
    )?)
}

/// The rows with that count of datasets, the number of the source's next job, and the row of the job.
fn rows_with(alloc: Global, datasets: u8, next_job: u8, job: &str) -> Result<String, Fail> {
    let mut rows = String::from_str(alloc, FIRST_ROWS)?;
    for row in dataset_rows(datasets) {
        rows.push_str(row)?;
    }
    rows.push_str(source_row(alloc, next_job)?.as_str())?;
    rows.push_str(job)?;
    Ok(rows)
}

/// The rows that are kept before the call that fails.
fn rows_before(alloc: Global, case: Case) -> Result<String, Fail> {
    if !case.has_job {
        return rows_with(alloc, case.datasets, 1, "");
    }
    let report = report_text(alloc, "New", 0, 0)?;
    let job = job_row(alloc, "New", report.as_str())?;
    rows_with(alloc, case.datasets, 2, job.as_str())
}

/// The report of the round after the call that fails.
fn report_after(alloc: Global, case: Case) -> Result<String, Fail> {
    report_text(
        alloc,
        "Finished",
        2u8.saturating_sub(case.datasets),
        case.datasets,
    )
}

/// The rows after that round.
fn rows_after(alloc: Global, case: Case) -> Result<String, Fail> {
    if !case.has_job {
        return rows_before(alloc, case);
    }
    let report = report_after(alloc, case)?;
    let job = job_row(alloc, "Finished", report.as_str())?;
    rows_with(alloc, 2, 2, job.as_str())
}

/// The line of that round.
fn line_after(alloc: Global, case: Case) -> Result<String, Fail> {
    let report = if case.has_job {
        report_after(alloc, case)?
    } else {
        String::new(alloc)
    };
    let report = report.as_str();
    Ok(format!(in alloc; "round {{\"sources\":[{report}]}}\n")?)
}

/// A store with the source, whose call of that number fails.
fn store_with_source(alloc: Global, failing: u64) -> Result<MemoryKeeper, Fail> {
    let outcome = played(alloc, SOURCE, store_failing_at(alloc, failing)?)?;
    if !outcome.is(0, SOURCE_CREATED) {
        return Err("no source")?;
    }
    Ok(outcome.keeper)
}

/// What is written before the call that fails.
fn written_before(case: Case) -> &'static str {
    if case.has_job { JOB_CREATED } else { "" }
}

/// Whether the run stopped at the call that fails, with that count of answers of rounds and the rows that were kept
/// before it.
fn is_stopped(
    alloc: Global,
    case: Case,
    answers: usize,
    stopped: &mut Outcome,
) -> Result<bool, Fail> {
    let is_stopped = stopped.is(5, written_before(case)) && stopped.rounds == answers;
    let rows = rows_of(alloc, &mut stopped.keeper)?;
    Ok(is_stopped && rows.as_str() == rows_before(alloc, case)?.as_str())
}

/// Whether the next round over the store ends the job.
fn is_ended(alloc: Global, case: Case, keeper: MemoryKeeper) -> Result<bool, Fail> {
    let mut ended = played(alloc, ROUND, keeper)?;
    let line = line_after(alloc, case)?;
    let is_ended = ended.is(0, line.as_str()) && ended.rounds == 1;
    let rows = rows_of(alloc, &mut ended.keeper)?;
    Ok(is_ended && rows.as_str() == rows_after(alloc, case)?.as_str())
}

/// Whether the run stopped at the call that fails, with that count of answers of rounds, and the next round ends the job.
fn is_mended(alloc: Global, case: Case, answers: usize, stopped: Outcome) -> Result<bool, Fail> {
    let mut stopped = stopped;
    if !is_stopped(alloc, case, answers, &mut stopped)? {
        return Ok(false);
    }
    is_ended(alloc, case, stopped.keeper)
}

// Playing answers with the rounds that went to their end.
#[test]
fn a_round_ends_what_a_failing_store_left_of_the_one_before(rt: HostRuntime) -> Result<(), Fail> {
    let alloc = rt.alloc();
    for case in cases() {
        let store = store_with_source(alloc, case.call)?;
        let stopped = played(alloc, JOB_AND_ROUND, store)?;
        assert!(rt;
            is_mended(alloc, case, 0, stopped)?,
            "after call {}",
            case.call
        );
    }
    Ok(())
}

// A harvest answers with its round, however it ended.
#[test]
fn a_round_ends_what_a_failing_store_left_of_a_harvest(rt: HostRuntime) -> Result<(), Fail> {
    let alloc = rt.alloc();
    for case in cases() {
        let store = store_with_source(alloc, case.call)?;
        let stopped = harvested(alloc, "aa", "cyn", 4_000, store)?;
        let answers = if case.has_job { 1 } else { 0 };
        assert!(rt;
            is_mended(alloc, case, answers, stopped)?,
            "after call {}",
            case.call
        );
    }
    Ok(())
}

// The first call that fails is after all calls of the run.
#[test]
fn a_harvest_writes_its_job_and_its_round(rt: HostRuntime) -> Result<(), Fail> {
    let alloc = rt.alloc();
    let lines = harvest_lines(alloc)?;
    let harvest = harvested(alloc, "aa", "cyn", 4_000, store_with_source(alloc, 14)?)?;
    assert!(rt; harvest.is(0, lines.as_str()) && harvest.rounds == 1);
    let job = JOB_CREATED.len();
    for room in [
        0,
        1,
        job.saturating_sub(1),
        job,
        job.saturating_add(1),
        lines.len().saturating_sub(1),
    ] {
        let cut = harvested(alloc, "aa", "cyn", room, store_with_source(alloc, 14)?)?;
        let written = lines.as_str().get(..room).unwrap_or("");
        assert!(rt; cut.is(4, written), "with room for {room}");
    }
    Ok(())
}

/// What a harvest of the source writes.
fn harvest_lines(alloc: Global) -> Result<String, Fail> {
    let mut lines = String::from_str(alloc, JOB_CREATED)?;
    let case = in_the_round(0, 0);
    lines.push_str(line_after(alloc, case)?.as_str())?;
    Ok(lines)
}

#[test]
fn a_harvest_without_a_job_makes_no_round(rt: HostRuntime) -> Result<(), Fail> {
    let alloc = rt.alloc();
    for (source, caller) in [("aa", "bob"), ("aa", "nobody"), ("bb", "cyn")] {
        let refused = harvested(alloc, source, caller, 4_000, store_with_source(alloc, 0)?)?;
        assert!(rt;
            refused.is(10, NOT_FOUND) && refused.rounds == 0,
            "as {caller}"
        );
    }
    let stopped = harvested(alloc, "aa", "cyn", 4_000, store_with_source(alloc, 6)?)?;
    let again = harvested(alloc, "aa", "cyn", 4_000, stopped.keeper)?;
    assert!(rt; again.is(10, JOB_REFUSED) && again.rounds == 0);
    Ok(())
}
