//! The cases of a file.
use crate::escape::{EscapeFault, unescaped};
use std::alloc::Global;
use std::io::{self, ErrorKind};
use std::rt::Files;
use std::str::FromStr;
use std::{fmt, fs};

/// A case: its columns.
#[derive(Drop)]
pub struct Case {
    columns: Vec<Vec<u8>>,
}

/// Why a line is no case.
#[derive(Drop)]
pub enum BadLine {
    /// The text after a `\` is no escape.
    Escape,
    /// It has this number of columns, and its file should have another.
    Columns(usize),
    OutOfMemory,
}

impl fmt::Display for BadLine {
    fn fmt<W: fmt::Write>(&self, f: &mut fmt::Formatter<W>) -> fmt::Result {
        match self {
            BadLine::Escape => f.write_str("a `\\` that begins no escape"),
            BadLine::Columns(count) => write!(f, "{count} columns"),
            BadLine::OutOfMemory => f.write_str("out of memory"),
        }
    }
}

/// The error of a case whose columns have another form than its file should have.
pub fn invalid() -> io::Error {
    io::Error::from(ErrorKind::InvalidData)
}

/// Adds the bytes that the column stands for.
fn push_column(alloc: Global, columns: &mut Vec<Vec<u8>>, column: &str) -> Result<(), BadLine> {
    match unescaped(alloc, column.trim_matches(' ').as_bytes()) {
        Ok(bytes) => match columns.push(bytes) {
            Ok(()) => Ok(()),
            Err(_) => Err(BadLine::OutOfMemory),
        },
        Err(EscapeFault::NotEscape) => Err(BadLine::Escape),
        Err(EscapeFault::OutOfMemory) => Err(BadLine::OutOfMemory),
    }
}

impl Case {
    /// The case of a line of a file with `count` columns, of which the first may be shared.
    pub fn read(
        alloc: Global,
        shared: Option<&str>,
        line: &str,
        count: usize,
    ) -> Result<Case, BadLine> {
        let mut columns = Vec::new(alloc);
        if let Some(shared) = shared {
            push_column(alloc, &mut columns, shared)?;
        }
        for column in line.split('|') {
            push_column(alloc, &mut columns, column)?;
        }
        if columns.len() != count {
            return Err(BadLine::Columns(columns.len()));
        }
        Ok(Case { columns })
    }

    /// The case whose columns are the contents of the files that the columns name.
    pub fn of_files<R: Files + AllocGlobal>(&self, rt: &R) -> io::Result<Case> {
        let mut columns = Vec::new(rt.alloc());
        for index in 0..self.columns.len() {
            columns.push(fs::read(rt, self.text(index)?)?)?;
        }
        Ok(Case { columns })
    }

    /// The last column.
    pub fn last(&self) -> &[u8] {
        self.bytes(self.columns.len().saturating_sub(1))
    }

    /// The column, the first one 0; nothing where there is none.
    pub fn bytes(&self, column: usize) -> &[u8] {
        match self.columns.get(column) {
            Some(bytes) => bytes.as_slice(),
            None => &[],
        }
    }

    /// The column as text; `InvalidData` where it isn't UTF-8.
    pub fn text(&self, column: usize) -> io::Result<&str> {
        match std::str::from_utf8(self.bytes(column)) {
            Ok(text) => Ok(text),
            Err(_) => Err(invalid()),
        }
    }

    /// The first two columns as texts.
    pub fn two_texts(&self) -> io::Result<(&str, &str)> {
        Ok((self.text(0)?, self.text(1)?))
    }

    /// The first three columns as texts.
    pub fn three_texts(&self) -> io::Result<(&str, &str, &str)> {
        Ok((self.text(0)?, self.text(1)?, self.text(2)?))
    }

    /// The first four columns as texts.
    pub fn four_texts(&self) -> io::Result<(&str, &str, &str, &str)> {
        Ok((self.text(0)?, self.text(1)?, self.text(2)?, self.text(3)?))
    }

    /// The value that the column's text says; `InvalidData` where it says none.
    pub fn parsed<T: FromStr>(&self, column: usize) -> io::Result<T>
    where
        T::Err: Drop,
    {
        match self.text(column)?.parse::<T>() {
            Ok(value) => Ok(value),
            Err(_) => Err(invalid()),
        }
    }
}
