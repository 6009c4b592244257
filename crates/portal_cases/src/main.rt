//! Worked examples of a portal: who sees and edits which dataset, the replies to calls, the transcripts of scripts, reports,
//! and what is written to links.
//!
//! By one of the words `create`, `show_by_name`, `show_by_id` and `patch` and a number it makes that many datasets
//! instead, works one more call of the kind on each (none for `create`), and prints how many were made and how many
//! calls were accepted or shown. By the word `load` and a descriptor of Table Schema v1 it loads standard input as CSV
//! into a table, and prints how many rows were taken.
#![tactic(auto)]

mod calls;
mod count;
mod documents;
mod links;
mod load;
mod opening;
mod people;
mod reply_text;
mod reports;
mod rights;
mod scripts;
mod session;
mod steps;

use cases::{Buffer, Tally, print_counts};
use count::{Kind, counts_text};
use load::rows_text;
use portal_base::std_adapters::StdSource;
use std::alloc::Global;
use std::process::ExitCode;
use std::{env, io};

/// What is counted in place of cases.
#[derive(Drop)]
enum Task {
    /// Calls of this kind on that number of datasets.
    Calls(Kind, u64),
    /// The rows that are loaded by this descriptor.
    Load(String),
}

/// The first two words, if there are two.
fn two_words(rt: &(impl env::Env + Alloc<A = Global>)) -> Option<(String, String)> {
    let mut words = env::args(rt).ok()?.skip(1);
    Some((words.next()?, words.next()?))
}

/// The task that the words give, if they give one.
fn task_of(first: &str, second: String) -> Option<Task> {
    if first == "load" {
        return Some(Task::Load(second));
    }
    let kind = Kind::named(first)?;
    Some(Task::Calls(kind, second.as_str().parse::<u64>().ok()?))
}

fn task_of_words(rt: &(impl env::Env + Alloc<A = Global>)) -> Option<Task> {
    let (first, second) = two_words(rt)?;
    task_of(first.as_str(), second)
}

/// Counts what the task says.
fn count_task(rt: &HostRuntime, task: &Task) -> io::Result<Buffer> {
    match task {
        Task::Calls(kind, datasets) => counts_text(rt.alloc(), *kind, *datasets),
        Task::Load(descriptor) => {
            rows_text(rt.alloc(), descriptor.as_str(), StdSource::new(rt.reader()))
        }
    }
}

fn main(rt: HostRuntime) -> io::Result<ExitCode> {
    if let Some(task) = task_of_words(&rt) {
        return print_counts(&rt, &Ok(count_task(&rt, &task)?));
    }
    let mut tally = Tally::new();
    tally.check(&rt, "rights", 3, rights::of_caller);
    tally.check(&rt, "classes", 2, rights::class);
    tally.check(&rt, "roles", 3, rights::role);
    tally.check(&rt, "counted_calls", 3, count::counts);
    tally.check(&rt, "loaded_rows", 3, load::rows);
    calls::check_calls(&rt, &mut tally)?;
    scripts::check_scripts(&rt, &mut tally)?;
    reports::check_reports(&rt, &mut tally)?;
    links::check_links(&rt, &mut tally)?;
    tally.end(&rt)
}
