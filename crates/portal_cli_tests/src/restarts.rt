//! Runs over rows that another run left, and over such rows with a fault.
use crate::memory::{Ends, NEVER, empty_store, ran, ran_over, rows_of};
use portal_base::seq::Seq;
use portal_base::text::Text;
use portal_keeper::change::Change;
use portal_keeper::keeper::Keeper;
use portal_keeper::memory::MemoryKeeper;
use portal_keeper::row::{KeptRow, RowKind};
use std::alloc::Global;
use std::str::Split;
use std::test::Fail;

const CREATE: &str =
    r#"{"action":"package_create","as":"ann","body":{"name":"air-quality","owner_org":"city","title":"Air quality"}}"#;

const SHOW: &str = r#"{"action":"package_show","body":{"id":"air-quality"}}"#;

/// What the store has after the dataset was made.
const ROWS: &str = "1 portal 1\n\
    2 city {\"created\":\"1970-01-01T00:00:00\",\"description\":\"\",\"roles\":{\"ann\":\"editor\",\"bob\":\"member\",\
    \"cyn\":\"admin\"},\"title\":\"City\"}\n\
    3 00000000-0000-0000-0000-000000000001 {\"author\":\"\",\"created\":\"2024-01-01T00:00:00\",\"creator\":\"ann\",\
    \"iri\":\"\",\"license_id\":\"\",\"maintainer\":\"\",\"modified\":\"2024-01-01T00:00:00\",\
    \"name\":\"air-quality\",\"next_resource\":1,\"notes\":\"\",\"owner_org\":\"city\",\"private\":false,\
    \"resources\":[],\"source\":\"\",\"state\":\"active\",\"tags\":[],\"title\":\"Air quality\",\"url\":\"\",\
    \"version\":\"\"}\n";

const SHOWN: &str =
    "200 {\"help\":\"/api/3/action/help_show?name=package_show\",\"result\":{\"author\":\"\",\
    \"creator_user_id\":\"ann\",\"id\":\"00000000-0000-0000-0000-000000000001\",\"license_id\":\"\",\
    \"maintainer\":\"\",\"metadata_created\":\"2024-01-01T00:00:00\",\"metadata_modified\":\"2024-01-01T00:00:00\",\
    \"name\":\"air-quality\",\"notes\":\"\",\"num_resources\":0,\"num_tags\":0,\"organization\":{\"id\":\"city\",\
    \"name\":\"city\",\"title\":\"City\"},\"owner_org\":\"city\",\"private\":false,\"resources\":[],\
    \"state\":\"active\",\"tags\":[],\"title\":\"Air quality\",\"type\":\"dataset\",\"url\":\"\",\"version\":\"\"},\
    \"success\":true}\n";

#[test]
fn a_dataset_is_shown_by_the_next_run(rt: HostRuntime) -> Result<(), Fail> {
    let create = Ends {
        input: CREATE,
        ..NEVER
    };
    let mut made = ran(rt.alloc(), "play", create)?;
    assert_eq!(rt; made.rows(rt.alloc())?.as_str(), ROWS);
    let show = Ends {
        input: SHOW,
        ..NEVER
    };
    let shown = ran_over(rt.alloc(), "play", show, made.into_keeper())?;
    assert!(rt; shown.code() == 0 && shown.output() == SHOWN.as_bytes());
    Ok(())
}

// ---- rows of no state

/// Two datasets, and two tables of one of them. A row of the second table references one of the first.
const TABLES: &str =
    r#"{"action":"package_create","as":"ann","body":{"name":"trees","owner_org":"city","resources":[{"name":"kinds"},{"name":"streets"}],"tags":[{"name":"green"},{"name":"park"}]}}
{"action":"package_create","as":"ann","body":{"name":"lamps","owner_org":"city"}}
{"action":"datastore_create","as":"ann","body":{"resource_id":"trees.1","fields":[{"id":"id","type":"int"},{"id":"name"}],"primary_key":"id","records":[{"id":1,"name":"oak"},{"id":2,"name":"elm"}]}}
{"action":"datastore_create","as":"ann","body":{"resource_id":"trees.2","schema":{"fields":[{"name":"kind","type":"integer"}],"foreignKeys":[{"fields":"kind","reference":{"resource":"kinds","fields":"id"}}]},"records":[{"kind":1}]}}
"#;

/// Faults by which rows are no state's, a line each: the number of the row's kind, its key, and what happens to it. It is
/// gone; or this body is put there; or in its body a text is changed to another.
const FAULTS: &str = r#"1|portal|put|2
1|portal|gone
1|city|put|1
2|city|gone
2|city|change|editor|owner
2|city|change|{"created|{"a":0,"created
2|city|change|City"}|City" }
3|x|put|{}
3|00000000-0000-0000-0000-000000000001|change|{"author|{"a":0,"author
3|00000000-0000-0000-0000-000000000001|change|"owner_org":"city|"owner_org":"lake
3|00000000-0000-0000-0000-000000000001|change|green","park|park","green
3|00000000-0000-0000-0000-000000000001|change|next_resource":3|next_resource":2
3|00000000-0000-0000-0000-000000000001|change|number":2|number":1
3|00000000-0000-0000-0000-000000000001|change|source":"|source":"a
3|00000000-0000-0000-0000-000000000001|change|name":"trees|name":"lamps
3|00000000-0000-0000-0000-000000000002|change|name":"lamps|name":"Lamps
3|00000000-0000-0000-0000-000000000001|gone
4|00000000-0000-0000-0000-000000000001.1|gone
4|00000000-0000-0000-0000-000000000001.2|change|targets":[1]|targets":[2]
4|00000000-0000-0000-0000-000000000001.2|change|targets":[1]|targets":[0]
4|00000000-0000-0000-0000-000000000001.2|change|targets":[1]|targets":[]
4|00000000-0000-0000-0000-000000000001.1|change|next_id":3|next_id":2
4|00000000-0000-0000-0000-000000000001.2|change|integer|string
5|00000000-0000-0000-0000-000000000001.1/00000000000000000001|gone
5|00000000-0000-0000-0000-000000000001.1/00000000000000000001|put|[1]
5|00000000-0000-0000-0000-000000000001.1/00000000000000000001|put|[null,"oak"]
5|00000000-0000-0000-0000-000000000001.1/00000000000000000001|put|["1","oak"]
5|00000000-0000-0000-0000-000000000001.1/00000000000000000002|put|[1,"elm"]
5|00000000-0000-0000-0000-000000000001.2/00000000000000000001|put|[3]
5|00000000-0000-0000-0000-000000000002.1/00000000000000000001|put|[1]
5|00000000-0000-0000-0000-000000000001.1/0000000000000000002|put|[3,"ash"]
6|lake|put|{}
7|lake|put|{}"#;

/// The body of the row, if it is among them.
fn body_of<'a>(rows: &'a [KeptRow], kind: RowKind, key: &str) -> Option<&'a str> {
    for row in rows {
        if row.kind == kind && row.key.as_str() == key {
            return Some(row.body.as_str());
        }
    }
    None
}

/// The body with another text in the place of this one.
fn changed_body(alloc: Global, body: &str, from: &str, to: &str) -> Result<Text, Fail> {
    let at = body.find(from).ok_or("no such text")?;
    let before = body.get(..at).ok_or("no beginning")?;
    let rest = body.get(at..).ok_or("no rest")?;
    let after = rest.strip_prefix(from).ok_or("no end")?;
    Ok(Text::from(format!(in alloc; "{before}{to}{after}")?))
}

/// The next field of a line.
fn next_field<'a>(fields: &mut Split<'a, char>) -> Result<&'a str, Fail> {
    match fields.next() {
        Some(field) => Ok(field),
        None => Err("no more fields")?,
    }
}

/// The kind of row with this number.
fn kind_of(number: &str) -> Result<RowKind, Fail> {
    match number.parse::<u8>() {
        Ok(number) => Ok(RowKind::of_number(number).ok_or("no such kind")?),
        Err(_) => Err("no number")?,
    }
}

/// The body of a row with the fault that the other fields say, or none if the row is gone.
fn faulty_body(
    alloc: Global,
    body: Option<&str>,
    fields: &mut Split<'_, char>,
) -> Result<Option<Text>, Fail> {
    let fault = next_field(fields)?;
    if fault == "gone" {
        return Ok(None);
    }
    let first = next_field(fields)?;
    if fault == "put" {
        return Ok(Some(Text::from_str(alloc, first)?));
    }
    let body = body.ok_or("no such row")?;
    Ok(Some(changed_body(alloc, body, first, next_field(fields)?)?))
}

/// The change that makes the fault of a line.
fn change_for(alloc: Global, rows: &[KeptRow], line: &str) -> Result<Change, Fail> {
    let mut fields = line.split('|');
    let kind = kind_of(next_field(&mut fields)?)?;
    let key = next_field(&mut fields)?;
    let body = faulty_body(alloc, body_of(rows, kind, key), &mut fields)?;
    let key = Text::from_str(alloc, key)?;
    match body {
        Some(body) => Ok(Change::Put(KeptRow { kind, key, body })),
        None => Ok(Change::Remove(kind, key)),
    }
}

/// A store with the rows that the script leaves.
fn store_with_tables(alloc: Global) -> Result<MemoryKeeper, Fail> {
    let script = Ends {
        input: TABLES,
        ..NEVER
    };
    let outcome = ran(alloc, "play", script)?;
    if outcome.code() != 0 {
        return Err("not played")?;
    }
    Ok(outcome.into_keeper())
}

#[test]
fn rows_of_no_state_end_a_run_with_12_and_stay(rt: HostRuntime) -> Result<(), Fail> {
    let alloc = rt.alloc();
    for line in FAULTS.split('\n') {
        let mut keeper = store_with_tables(alloc)?;
        let kept = keeper.load(alloc)?;
        let change = change_for(alloc, kept.as_slice(), line)?;
        keeper.apply(alloc, &Seq::from(vec![in alloc; change]?))?;
        let rows = rows_of(alloc, &mut keeper)?;
        let mut outcome = ran_over(alloc, "play", NEVER, keeper)?;
        assert!(rt;
            outcome.code() == 12
                && outcome.output().is_empty()
                && outcome.faults() == "portal: stored rows are no portal's\n".as_bytes()
                && outcome.rows(alloc)?.as_str() == rows.as_str(),
            "at {line}"
        );
    }
    Ok(())
}
