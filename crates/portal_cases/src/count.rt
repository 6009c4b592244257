//! Calls of `root` on many datasets, which are counted.
use crate::session::Session;
use cases::{Buffer, Case, invalid};
use portal_base::caller::Caller;
use portal_base::dictionary::Value;
use portal_base::json_value::Json;
use portal_base::nonce::{Nonce, id_of};
use portal_base::text::Text;
use portal_calls::action::Action;
use portal_calls::call::Request;
use portal_core::event::Reply;
use std::alloc::{AllocError, Global};
use std::io;

/// How many bytes each call has.
const SIZE: u64 = 100;

/// A kind of calls.
#[derive(Clone, Copy)]
pub enum Kind {
    Create,
    ShowByName,
    ShowById,
    Patch,
}

impl Kind {
    /// The kind that the word names.
    pub fn named(word: &str) -> Option<Kind> {
        match word {
            "create" => Some(Kind::Create),
            "show_by_name" => Some(Kind::ShowByName),
            "show_by_id" => Some(Kind::ShowById),
            "patch" => Some(Kind::Patch),
            _ => None,
        }
    }
}

/// The reply to a call of `root`.
pub fn reply_to(session: &mut Session, action: Action, body: Json) -> Reply {
    let root = Caller::Named(Text::from_static("root"));
    session.act(root, Request { action, body }, SIZE)
}

/// The body that creates a dataset of that name.
fn creation(alloc: Global, name: &str) -> Result<Json, AllocError> {
    let org = Value::Static("city");
    Json::dictionary(alloc, [("name", Value::Str(name)), ("owner_org", org)])
}

/// The body that gives the dataset of that name a title.
fn patch(alloc: Global, name: &str) -> Result<Json, AllocError> {
    let title = Value::Static("Trees");
    Json::dictionary(alloc, [("id", Value::Str(name)), ("title", title)])
}

/// The body that shows the dataset of that name or id.
fn showing(alloc: Global, name_or_id: &str) -> Result<Json, AllocError> {
    Json::dictionary(alloc, [("id", Value::Str(name_or_id))])
}

fn action_of(kind: Kind) -> Action {
    match kind {
        Kind::Create => Action::PackageCreate,
        Kind::ShowByName | Kind::ShowById => Action::PackageShow,
        Kind::Patch => Action::PackagePatch,
    }
}

/// The name of the dataset with this index, or for a call by id its id: the datasets were made with the first numbers,
/// from 1.
fn address_of(alloc: Global, kind: Kind, index: u64) -> Result<Text, AllocError> {
    match kind {
        Kind::ShowById => id_of(alloc, Nonce(u128::from(index) + 1)),
        _ => Ok(Text::from(format!(in alloc; "set-{index}")?)),
    }
}

/// The body of a call of that kind on the dataset of that name or id.
fn body_at(alloc: Global, kind: Kind, address: &str) -> Result<Json, AllocError> {
    match kind {
        Kind::Create => creation(alloc, address),
        Kind::ShowByName | Kind::ShowById => showing(alloc, address),
        Kind::Patch => patch(alloc, address),
    }
}

/// The body of a call of that kind on the dataset with this index.
fn body_of(alloc: Global, kind: Kind, index: u64) -> Result<Json, AllocError> {
    let address = address_of(alloc, kind, index)?;
    body_at(alloc, kind, address.as_str())
}

/// Works a call of that kind on the dataset with this index, and says whether it is accepted or shown.
fn is_good(
    alloc: Global,
    session: &mut Session,
    kind: Kind,
    index: u64,
) -> Result<bool, AllocError> {
    let body = body_of(alloc, kind, index)?;
    let reply = reply_to(session, action_of(kind), body);
    Ok(!matches!(reply, Reply::Refused(_)))
}

/// Works a call of that kind on each of the datasets, and says how many were accepted or shown.
fn count_good(
    alloc: Global,
    session: &mut Session,
    kind: Kind,
    datasets: u64,
) -> Result<u64, AllocError> {
    let mut good: u64 = 0;
    for index in 0..datasets {
        if is_good(alloc, session, kind, index)? {
            good = good.saturating_add(1);
        }
    }
    Ok(good)
}

/// How many datasets are made, and how many further calls of the kind are accepted or shown.
fn counts_of(
    alloc: Global,
    session: &mut Session,
    kind: Kind,
    datasets: u64,
) -> Result<(u64, u64), AllocError> {
    let made = count_good(alloc, session, Kind::Create, datasets)?;
    let good = match kind {
        Kind::Create => 0,
        kind => count_good(alloc, session, kind, datasets)?,
    };
    Ok((made, good))
}

/// The same, in words.
fn counts_in_words(
    alloc: Global,
    session: &mut Session,
    kind: Kind,
    datasets: u64,
) -> io::Result<Buffer> {
    let (made, good) = counts_of(alloc, session, kind, datasets)?;
    let mut counts = Buffer::of_value(alloc, &made);
    counts.push(" ");
    counts.push_value(&good);
    Ok(counts)
}

/// The same, on a portal without datasets.
pub fn counts_text(alloc: Global, kind: Kind, datasets: u64) -> io::Result<Buffer> {
    let mut session = Session::new(alloc)?;
    counts_in_words(alloc, &mut session, kind, datasets)
}

/// A kind of calls, and a number of datasets: how many were made, and how many further calls were accepted or shown.
pub fn counts(alloc: Global, case: &Case, answer: &mut Buffer) -> io::Result<()> {
    let Some(kind) = Kind::named(case.text(0)?) else {
        return Err(invalid());
    };
    answer.push_buffer(&counts_text(alloc, kind, case.parsed(1)?)?);
    Ok(())
}
