//! Worked examples of the search of datasets: which queries a dataset matches, also after a change.
#![tactic(auto)]

mod matching;

use cases::Tally;
use std::io;
use std::process::ExitCode;

fn main(rt: HostRuntime) -> io::Result<ExitCode> {
    let mut tally = Tally::new();
    tally.check(&rt, "matches", 4, matching::of_new);
    tally.check(&rt, "alphabets", 4, matching::of_new);
    tally.check(&rt, "changes", 4, matching::of_changed);
    tally.end(&rt)
}
