//! Which locations are this machine's.
use cases::{Buffer, Case};
use http_front::loopback::loopback;
use std::alloc::Global;
use std::io;

/// A location: its host, port and request target, if it is this machine's.
pub fn parts(alloc: Global, case: &Case, answer: &mut Buffer) -> io::Result<()> {
    match loopback(alloc, case.text(0)?)? {
        None => answer.push("none"),
        Some((host, port, target)) => {
            answer.push(host.as_str());
            answer.push(" ");
            answer.push_value(&port);
            answer.push(" ");
            answer.push(target.as_str());
        }
    }
    Ok(())
}
