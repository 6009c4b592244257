//! The calls of a sysadmin, as events.
use portal_base::caller::Caller;
use portal_base::json_value::Json;
use portal_base::moment::Moment;
use portal_base::nonce::Nonce;
use portal_base::seq::Seq;
use portal_base::text::Text;
use portal_calls::action::Action;
use portal_calls::call::{Call, Request};
use portal_events::Event;
use std::alloc::{AllocError, Global};

/// The user who makes each call.
pub const SYSADMIN: &str = "root";

/// The organization that owns each dataset.
const ORGANIZATION: &str = "city";

/// A call with this body, and with a nonce of that number.
fn event_of(action: Action, body: Seq<(Text, Json)>, moment: Moment, nonce: u64) -> Event {
    Event::Call(Call {
        caller: Caller::Named(Text::from_static(SYSADMIN)),
        request: Request {
            action,
            body: Json::Map(body),
        },
        size: 1,
        moment,
        nonce: Nonce(u128::from(nonce)),
    })
}

/// A key of a body with its text.
fn member(key: &'static str, text: Text) -> (Text, Json) {
    (Text::from_static(key), Json::Text(text))
}

/// The name of the dataset with that number.
fn name_of(alloc: Global, number: u64) -> Result<Text, AllocError> {
    Ok(Text::from(format!(in alloc; "set-{number}")?))
}

/// Creates the organization that owns each dataset.
pub fn create_organization(alloc: Global, moment: Moment) -> Result<Event, AllocError> {
    let name = member("name", Text::from_static(ORGANIZATION));
    let body = Seq::from(vec![in alloc; name]?);
    Ok(event_of(Action::OrganizationCreate, body, moment, 0))
}

/// Creates the dataset with that number. Its id is made of the nonce.
pub fn create_dataset(
    alloc: Global,
    moment: Moment,
    number: u64,
    nonce: u64,
) -> Result<Event, AllocError> {
    let name = member("name", name_of(alloc, number)?);
    let owner = member("owner_org", Text::from_static(ORGANIZATION));
    let body = Seq::from(vec![in alloc; name, owner]?);
    Ok(event_of(Action::PackageCreate, body, moment, nonce))
}

/// Shows the dataset with that number.
pub fn show_dataset(alloc: Global, moment: Moment, number: u64) -> Result<Event, AllocError> {
    let id = member("id", name_of(alloc, number)?);
    let body = Seq::from(vec![in alloc; id]?);
    Ok(event_of(Action::PackageShow, body, moment, 0))
}

/// Lists the names of the datasets.
pub fn list_datasets(alloc: Global, moment: Moment) -> Event {
    event_of(Action::PackageList, Seq::new(alloc), moment, 0)
}
