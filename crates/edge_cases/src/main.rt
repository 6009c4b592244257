//! Worked examples of what a run starts with and of its connections: words of the command line, portal files, requests
//! that are received, responses that are sent, fetches, and locations of this machine.
#![tactic(auto)]

mod fetched;
mod file;
mod links;
mod location;
mod received;
mod sent;
mod words;

use cases::Tally;
use std::io;
use std::process::ExitCode;

fn main(rt: HostRuntime) -> io::Result<ExitCode> {
    let mut tally = Tally::new();
    tally.check(&rt, "words", 2, words::command);
    tally.check(&rt, "files", 2, file::content);
    tally.check(&rt, "requests", 2, received::request);
    tally.check(&rt, "long_requests", 3, received::long_request);
    tally.check(&rt, "left", 3, received::left);
    tally.check(&rt, "cut_requests", 2, received::prefixes);
    tally.check(&rt, "failing_links", 3, received::failing);
    tally.check(&rt, "responses", 3, sent::response);
    tally.check(&rt, "full_links", 4, sent::beginning);
    tally.check(&rt, "fetches", 3, fetched::content);
    tally.check(&rt, "long_fetches", 4, fetched::length);
    tally.check(&rt, "fetch_requests", 3, fetched::request);
    tally.check(&rt, "failing_fetches", 4, fetched::failing);
    tally.check(&rt, "locations", 2, location::parts);
    tally.end(&rt)
}
