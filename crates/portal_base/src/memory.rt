//! Devices in memory, which fail at planned calls. The contracts fix what each call does.

mod buffers;
mod fetcher;
mod link;
mod listener;
mod plan;
mod sink;
mod source;

pub use fetcher::{MemoryFetcher, are_distinct};
pub use link::MemoryLink;
pub use listener::MemoryListener;
pub use sink::MemorySink;
pub use source::MemorySource;
