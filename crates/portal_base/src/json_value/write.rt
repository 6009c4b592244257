//! Serialization of `Json` with serde.
ghost use Rattle.std.specs.Prelude.{OnOk};
ghost use Rattle.serde_json.specs.Data.{array, object, number};
ghost use Rattle.serde_json.specs.Events.{SendsValue};
ghost use Rattle.serde_json.specs.Find.{of_integer};
ghost use Rattle.portal_base.specs.Json.{data_of, items_data, members_data};

use super::Json;
use crate::text::Text;
use serde::{Described, Serialize, Serializer};

impl Described for Json {
    ghost writes = { λ j. SendsValue (data_of j) };
}

impl Serialize for Json {
    fn serialize<S: Serializer>(&self, out: &mut S) -> Result<(), S::Error> {
        send(self, out)
    }
}

#[cycle(send)]
fn send<S: Serializer>(value: &Json, out: &mut S) -> Result<(), S::Error>
    ensures { OnOk result (SendsValue (data_of value.now) (S.written out.old) (S.written out.new)) }
{
    match value {
        Json::Null => out.unit(),
        Json::Truth(truth) => out.bool(*truth),
        Json::Whole(whole) => send_whole(*whole, out),
        Json::Text(text) => out.str(text.as_str()),
        Json::List(items) => send_items(items.as_slice(), out),
        Json::Map(entries) => send_entries(entries.as_slice(), out),
    }
}

fn send_whole<S: Serializer>(whole: i128, out: &mut S) -> Result<(), S::Error>
    ensures { OnOk result (SendsValue (number (of_integer whole))
        (S.written out.old) (S.written out.new)) }
{
    if whole < 0 {
        out.i128(whole)
    } else {
        out.u128(whole as u128)
    }
}

#[cycle(send)]
fn send_items<S: Serializer>(items: &[Json], out: &mut S) -> Result<(), S::Error>
    ensures { OnOk result (SendsValue (array (items_data items.now))
        (S.written out.old) (S.written out.new)) }
{
    out.begin_seq(Some(items.len()))?;
    for item in items {
        send(item, out)?;
    }
    out.end_seq()
}

#[cycle(send)]
fn send_entries<S: Serializer>(entries: &[(Text, Json)], out: &mut S) -> Result<(), S::Error>
    ensures { OnOk result (SendsValue (object (members_data entries.now))
        (S.written out.old) (S.written out.new)) }
{
    out.begin_map(Some(entries.len()))?;
    for entry in entries {
        out.key(entry.0.as_str())?;
        send(&entry.1, out)?;
    }
    out.end_map()
}
