//! Events of a portal and the replies to them, which portal_events defines.
pub use portal_events::{Event, Refusal, Reply};
