//! The inserts of a CSV, worked on a portal as `load` plays them.
use crate::count::reply_to;
use crate::session::Session;
use cases::{Buffer, Case, invalid};
use portal_base::dictionary::Value;
use portal_base::json_value::Json;
use portal_base::memory::MemorySource;
use portal_base::outside::Source;
use portal_base::seq::Seq;
use portal_calls::action::Action;
use portal_core::event::Reply;
use row_inserts::Inserts;
use std::alloc::Global;
use std::io;
use table_schema::Schema;

/// The id of the resource whose table takes the rows.
const RESOURCE: &str = "rows.1";

/// The body that makes its dataset.
const DATASET: &[u8] = br#"{"name":"rows","owner_org":"city","resources":[{"name":"rows"}]}"#;

/// The count of records that an accepted call's result says, 0 if it says none.
fn accepted_count(reply: &Reply) -> io::Result<u64> {
    match reply {
        Reply::Accepted(result) => Ok(count_in(result)),
        _ => Err(invalid()),
    }
}

/// Works a call that has to be accepted, and gives the count of records that its result says.
fn accepted(session: &mut Session, action: Action, body: Json) -> io::Result<u64> {
    let reply = reply_to(session, action, body);
    accepted_count(&reply)
}

fn json_of(alloc: Global, bytes: &[u8]) -> io::Result<Json> {
    match Json::read(alloc, bytes) {
        Ok(json) => Ok(json),
        Err(_fault) => Err(invalid()),
    }
}

/// The body that makes a table of that description.
fn table_body(alloc: Global, descriptor: &str) -> io::Result<Json> {
    let resource = Value::Static(RESOURCE);
    let schema = Value::Json(json_of(alloc, descriptor.as_bytes())?);
    Ok(Json::dictionary(alloc, [("resource_id", resource), ("schema", schema)])?)
}

/// Makes an empty table of that description.
fn make_table(alloc: Global, session: &mut Session, descriptor: &str) -> io::Result<()> {
    accepted(session, Action::PackageCreate, json_of(alloc, DATASET)?)?;
    let body = table_body(alloc, descriptor)?;
    accepted(session, Action::DatastoreCreate, body)?;
    Ok(())
}

/// How many records an insert's result says that it had.
fn count_in(outcome: &Json) -> u64 {
    match outcome.get("count") {
        Some(Json::Whole(count)) => u64::try_from(*count).unwrap_or(0),
        _ => 0,
    }
}

/// Puts the inserts that come into the table, and says how many rows were taken.
fn put_inserts<S: Source>(session: &mut Session, inserts: &mut Inserts<S>) -> io::Result<u64> {
    let mut rows: u64 = 0;
    for _ in 0..u64::MAX {
        match inserts.next() {
            Ok(Some(insert)) => {
                let count = accepted(session, Action::DatastoreUpsert, insert.body)?;
                rows = rows.saturating_add(count);
            }
            Ok(None) => break,
            Err(_fault) => return Err(invalid()),
        }
    }
    Ok(rows)
}

/// Makes a table of that description, loads the CSV into it, and says how many rows were taken.
fn load<S: Source + Drop>(
    alloc: Global,
    session: &mut Session,
    descriptor: &str,
    source: S,
) -> io::Result<u64> {
    make_table(alloc, session, descriptor)?;
    let Ok(schema) = Schema::read(alloc, descriptor.as_bytes()) else {
        return Err(invalid());
    };
    match Inserts::start(alloc, schema, RESOURCE, source) {
        Ok(mut inserts) => put_inserts(session, &mut inserts),
        Err(_refused) => Err(invalid()),
    }
}

/// How many rows of the CSV a table of that description takes, in words.
fn rows_in_words<S: Source + Drop>(
    alloc: Global,
    session: &mut Session,
    descriptor: &str,
    source: S,
) -> io::Result<Buffer> {
    let rows = load(alloc, session, descriptor, source)?;
    let mut text = Buffer::of_value(alloc, &rows);
    text.push(" rows");
    Ok(text)
}

/// The same, on a portal without datasets.
pub fn rows_text<S: Source + Drop>(
    alloc: Global,
    descriptor: &str,
    source: S,
) -> io::Result<Buffer> {
    let mut session = Session::new(alloc)?;
    rows_in_words(alloc, &mut session, descriptor, source)
}

/// A descriptor, and a text of CSV: how many of its rows a table of that description takes.
pub fn rows(alloc: Global, case: &Case, answer: &mut Buffer) -> io::Result<()> {
    let bytes = Seq::from(case.bytes(1).to_vec(alloc)?);
    let source = MemorySource::new(bytes, Seq::new(alloc));
    answer.push_buffer(&rows_text(alloc, case.text(0)?, source)?);
    Ok(())
}
