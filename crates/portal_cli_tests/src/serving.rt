//! A desk of three links: one with a request, one whose first read fails, and one whose input ends early.
use crate::memory::{Ends, NEVER, ran};
use portal_base::memory::MemoryLink;
use std::test::Fail;

/// Whether something was written to the first link alone.
fn are_served(links: &[MemoryLink]) -> bool {
    links.iter().zip([true, false, false]).all(|(link, is_written)| !link.taken().is_empty()
        == is_written)
}

#[test]
fn links_are_served_and_given_back(rt: HostRuntime) -> Result<(), Fail> {
    for (words, accept, code, count, line) in [
        ("serve", 0, 0, 3, ""),
        ("serve --links 2", 0, 0, 2, ""),
        ("serve", 2, 11, 1, "portal: listener failed\n"),
    ] {
        let outcome = ran(rt.alloc(), words, Ends { accept, ..NEVER })?;
        assert!(rt;
            outcome.code() == code
                && outcome.faults() == line.as_bytes()
                && outcome.links().len() == count
                && are_served(outcome.links()),
            "with status {code}"
        );
    }
    Ok(())
}
