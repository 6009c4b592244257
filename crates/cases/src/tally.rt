//! How many cases hold.
ghost use Rattle.std.specs.Prelude.{◌≡◌, not};
ghost use Rattle.cases.specs.Tally.{counted_if};

use crate::buffer::Buffer;
use crate::case::{BadLine, Case};
use crate::escape::escaped;
use std::alloc::Global;
use std::process::ExitCode;
use std::rt::Files;
use std::{fmt, fs, io};

/// A line of a file, the first one 1.
#[derive(Clone, Copy)]
pub struct Location<'a> {
    pub file: &'a str,
    pub line: u64,
}

/// How many cases hold, and how many don't. A line that can't be printed counts as a case that doesn't hold.
#[derive(Drop)]
pub struct Tally {
    pub held: u64,
    pub failed: u64,
}

/// What the columns of a file's cases are.
#[derive(Clone, Copy)]
enum Columns {
    Themselves,
    Files,
}

/// Prints both answers.
fn print_difference<R: AllocGlobal + Print>(
    rt: &R,
    location: Location<'_>,
    expected: &[u8],
    found: &[u8],
) -> io::Result<()> {
    let Location { file, line } = location;
    let expected = escaped(rt.alloc(), expected)?;
    println!(rt; "{file}:{line}: expected {expected}")?;
    let found = escaped(rt.alloc(), found)?;
    println!(rt; "{file}:{line}: found    {found}")
}

impl Tally {
    pub fn new() -> Tally {
        Tally { held: 0, failed: 0 }
    }

    /// Counts a case.
    pub fn count(&mut self, holds: bool)
        ensures held { self.new.held ≡ counted_if holds self.old.held }
        ensures failed { self.new.failed ≡ counted_if (not holds) self.old.failed }
    {
        if holds {
            self.held = self.held.saturating_add(1);
        } else {
            self.failed = self.failed.saturating_add(1);
        }
    }

    /// Compares an answer with the expected one, and prints both where they differ.
    pub fn compare<R: AllocGlobal + Print>(
        &mut self,
        rt: &R,
        location: Location<'_>,
        expected: &[u8],
        found: &[u8],
    ) {
        self.count(found == expected);
        if found != expected && print_difference(rt, location, expected, found).is_err() {
            self.count(false);
        }
    }

    /// Compares an answer with the expected one, unless there is none.
    pub fn compare_answer<R: AllocGlobal + Print>(
        &mut self,
        rt: &R,
        location: Location<'_>,
        expected: &[u8],
        answer: &Buffer,
    ) {
        match answer.bytes() {
            Ok(found) => self.compare(rt, location, expected, found),
            Err(error) => self.refuse(rt, location, error),
        }
    }

    /// Counts a line that doesn't hold, and prints why.
    pub fn refuse<D: fmt::Display + Drop>(
        &mut self,
        rt: &impl Print,
        location: Location<'_>,
        reason: D,
    ) {
        self.count(false);
        let Location { file, line } = location;
        if println!(rt; "{file}:{line}: {reason}").is_err() {
            self.count(false);
        }
    }

    /// Compares the answers to the cases of the file, which has `count` columns, with its last column.
    pub fn check<
        R: Files + AllocGlobal + Print,
        F: Fn(Global, &Case, &mut Buffer) -> io::Result<()>,
    >(&mut self, rt: &R, file: &str, count: usize, answer: F)
        requires { F.IsAlwaysCallable answer }
    {
        check_file(rt, self, file, count, Columns::Themselves, &answer);
    }

    /// As `check`, where each column names a file, whose content is the column.
    pub fn check_files<
        R: Files + AllocGlobal + Print,
        F: Fn(Global, &Case, &mut Buffer) -> io::Result<()>,
    >(&mut self, rt: &R, file: &str, count: usize, answer: F)
        requires { F.IsAlwaysCallable answer }
    {
        check_file(rt, self, file, count, Columns::Files, &answer);
    }

    /// Prints how many cases hold, and gives the program's status: a failure where there is none, or one doesn't hold.
    pub fn end(&self, rt: &impl Print) -> io::Result<ExitCode> {
        let held = self.held;
        let failed = self.failed;
        println!(rt; "{held} cases hold, {failed} don't")?;
        if failed == 0 && held > 0 {
            Ok(ExitCode::SUCCESS)
        } else {
            Ok(ExitCode::FAILURE)
        }
    }
}

/// What a line of a case file is.
enum Line<'a> {
    /// Neither a case nor what cases share.
    Note,
    /// The first column of the cases below, if they share one.
    Shared(Option<&'a str>),
    /// A case.
    Columns,
}

/// What the line is.
fn kind_of(line: &str) -> Line<'_> {
    let kept = line.trim_matches(' ');
    if kept.is_empty() || kept.starts_with('#') {
        return Line::Note;
    }
    match kept.strip_prefix('@') {
        Some("") => Line::Shared(None),
        Some(shared) => Line::Shared(Some(shared)),
        None => Line::Columns,
    }
}

/// Compares the answer to a case with its last column.
fn check_case<R: AllocGlobal + Print, F: Fn(Global, &Case, &mut Buffer) -> io::Result<()>>(
    rt: &R,
    tally: &mut Tally,
    location: Location<'_>,
    case: &Case,
    answer: &F,
)
    requires { F.IsAlwaysCallable answer.now }
{
    let mut found = Buffer::new(rt.alloc());
    match answer(rt.alloc(), case, &mut found) {
        Ok(()) => tally.compare_answer(rt, location, case.last(), &found),
        Err(error) => tally.refuse(rt, location, error),
    }
}

/// Compares the answer to the case of a line. A line that is no case is refused.
fn check_line<R: Files + AllocGlobal + Print, F: Fn(Global, &Case, &mut Buffer) -> io::Result<()>>(
    rt: &R,
    tally: &mut Tally,
    location: Location<'_>,
    line: Result<Case, BadLine>,
    columns: Columns,
    answer: &F,
)
    requires { F.IsAlwaysCallable answer.now }
{
    let case = match line {
        Ok(case) => case,
        Err(fault) => return tally.refuse(rt, location, fault),
    };
    match columns {
        Columns::Themselves => check_case(rt, tally, location, &case, answer),
        Columns::Files => match case.of_files(rt) {
            Ok(contents) => check_case(rt, tally, location, &contents, answer),
            Err(error) => tally.refuse(rt, location, error),
        },
    }
}

/// Compares the answers to all cases of the file.
fn check_file<R: Files + AllocGlobal + Print, F: Fn(Global, &Case, &mut Buffer) -> io::Result<()>>(
    rt: &R,
    tally: &mut Tally,
    file: &str,
    count: usize,
    columns: Columns,
    answer: &F,
)
    requires { F.IsAlwaysCallable answer.now }
{
    let mut line: u64 = 0;
    let text = match fs::read_to_string(rt, file) {
        Ok(text) => text,
        Err(error) => return tally.refuse(rt, Location { file, line }, error),
    };
    let mut shared = None;
    for words in text.as_str().lines() {
        line = line.saturating_add(1);
        match kind_of(words) {
            Line::Note => {}
            Line::Shared(column) => shared = column,
            Line::Columns => {
                let case = Case::read(rt.alloc(), shared, words, count);
                check_line(rt, tally, Location { file, line }, case, columns, answer);
            }
        }
    }
}
