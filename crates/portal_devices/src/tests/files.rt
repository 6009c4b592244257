//! The host's files.
use crate::files::HostFetcher;
use portal_base::outside::{FetchFault, Fetcher};
use std::test::Fail;

/// The result of a fetch.
#[derive(Clone, Copy, Debug, PartialEq, Eq)]
enum Came {
    Bytes(usize),
    Failed,
    Missing,
    TooLong,
    OutOfMemory,
}

#[test]
fn files_are_fetched(rt: HostRuntime) -> Result<(), Fail> {
    let alloc = rt.alloc();
    let mut fetcher = HostFetcher::new(&rt);
    for (location, expected) in [
        ("/proc/sys/kernel/ostype", Came::Bytes(6)),
        ("/proc/self/status", Came::TooLong),
        ("/dev/null", Came::Failed),
        ("/dev/zero", Came::Failed),
        ("/dev/nothing", Came::Missing),
        ("/dev/null/file", Came::Missing),
        ("/dev", Came::Failed),
        ("http://127.0.0.1:1/", Came::Failed),
        ("http://city.example/", Came::Missing),
        ("https://127.0.0.1/", Came::Missing),
        ("file:/dev/null", Came::Missing),
    ] {
        let came = match fetcher.fetch(alloc, location, 100) {
            Ok(bytes) => Came::Bytes(bytes.len()),
            Err(FetchFault::Failed) => Came::Failed,
            Err(FetchFault::Missing) => Came::Missing,
            Err(FetchFault::TooLong) => Came::TooLong,
            Err(FetchFault::OutOfMemory) => Came::OutOfMemory,
        };
        assert_eq!(rt; came, expected, "at {location}");
    }
    Ok(())
}
