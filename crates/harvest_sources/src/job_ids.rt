//! The ids of jobs.
ghost use Rattle.std.specs.Prelude.{◌≡◌, IfOk, option_map};
ghost use Rattle.std.specs.Str.{bytes_eq};
ghost use Rattle.harvest_sources.specs.Jobs.{job_id, split_job_id};

use itoa::Buffer;
use portal_base::text::Text;
use std::alloc::{AllocError, Global};

/// The id of the source's job of this number: the source's name, a dot, and the number.
pub fn job_id(alloc: Global, source: &str, number: u64) -> Result<Text, AllocError>
    ensures { IfOk result (λ id. id ≡ job_id source.now number) }
{
    let id = format!(in alloc; "{source}.{number}")?;
    Ok(Text::from(id))
}

/// What precedes the last dot of an id, and what follows it, or `None` if there is no dot. In the id of a job
/// the first is the source's name, and the second the job's number.
pub fn split_job_id(id: &str) -> Option<(&str, &str)>
    ensures { option_map (λ parts. (parts.0.now, parts.1.now)) result ≡ split_job_id id.now }
{
    match id.rsplit_once('.') {
        Some((source, number)) => Some((source, number)),
        None => None,
    }
}

/// Whether this is the id of the source's job of this number. It takes no memory.
pub fn is_job_id(id: &str, source: &str, number: u64) -> bool
    ensures { result ≡ bytes_eq (job_id source.now number) id.now }
{
    let mut buffer = Buffer::new();
    let digits = buffer.format(number);
    match id.as_bytes().strip_prefix(source.as_bytes()) {
        Some(rest) => match rest.strip_prefix(b".") {
            Some(suffix) => digits.as_bytes() == suffix,
            None => false,
        },
        None => false,
    }
}
