//! Bytes that a program writes: the answer to a case, a document or a table that a case says in short.
use std::alloc::{AllocError, Global};
use std::fmt;
use std::io::{self, Write};
use std::process::ExitCode;

/// Bytes as they are written. Writing takes no `?`: where memory runs out, the buffer is incomplete from then on.
#[derive(Drop)]
pub struct Buffer {
    bytes: Vec<u8>,
    is_complete: bool,
}

impl Buffer {
    /// An empty buffer.
    pub fn new(alloc: Global) -> Buffer {
        Buffer {
            bytes: Vec::new(alloc),
            is_complete: true,
        }
    }

    /// A buffer with the value as it is displayed.
    pub fn of_value<D: fmt::Display>(alloc: Global, value: &D) -> Buffer {
        let mut buffer = Buffer::new(alloc);
        buffer.push_value(value);
        buffer
    }

    /// All that was written; an error where memory ran out.
    pub fn bytes(&self) -> Result<&[u8], AllocError> {
        if self.is_complete {
            Ok(self.bytes.as_slice())
        } else {
            Err(AllocError)
        }
    }

    /// As `bytes`, as text; `InvalidData` where it isn't UTF-8.
    pub fn text(&self) -> io::Result<&str> {
        match std::str::from_utf8(self.bytes()?) {
            Ok(text) => Ok(text),
            Err(_) => Err(io::Error::from(io::ErrorKind::InvalidData)),
        }
    }

    /// Notes that memory ran out.
    pub fn run_out(&mut self) {
        self.is_complete = false;
    }

    /// Whether nothing was written.
    pub fn is_empty(&self) -> bool {
        self.bytes.is_empty()
    }

    /// Writes the text.
    pub fn push(&mut self, text: &str) {
        self.push_bytes(text.as_bytes());
    }

    /// Writes the bytes.
    pub fn push_bytes(&mut self, bytes: &[u8]) {
        if self.bytes.extend_from_slice(bytes).is_err() {
            self.run_out();
        }
    }

    /// Writes the texts, one after another.
    pub fn push_all(&mut self, texts: &[&str]) {
        for text in texts {
            self.push(text);
        }
    }

    /// Writes the text `count` times.
    pub fn push_times(&mut self, text: &str, count: usize) {
        for _ in 0..count {
            self.push(text);
        }
    }

    /// Writes the bytes in brackets.
    pub fn push_bracketed(&mut self, bytes: &[u8]) {
        self.push("[");
        self.push_bytes(bytes);
        self.push("]");
    }

    /// Writes the other buffer's bytes.
    pub fn push_buffer(&mut self, other: &Buffer) {
        self.push_bytes(other.bytes.as_slice());
        self.is_complete = self.is_complete && other.is_complete;
    }

    /// Writes the value as it is displayed.
    pub fn push_value<D: fmt::Display>(&mut self, value: &D) {
        if write!(self.bytes, "{value}").is_err() {
            self.run_out();
        }
    }

    /// Writes the divider, unless nothing was written before.
    pub fn divide(&mut self, divider: &str) {
        if !self.is_empty() {
            self.push(divider);
        }
    }

    /// Writes the words and the other buffer's bytes, unless all that was written before is the same.
    pub fn push_difference(&mut self, words: &str, other: &Buffer) {
        if self.bytes.as_slice() != other.bytes.as_slice() {
            self.push(words);
            self.push_bytes(other.bytes.as_slice());
        }
        self.is_complete = self.is_complete && other.is_complete;
    }
}

/// Prints what a program counted, or on standard error the fault of its input, and gives the program's status.
pub fn print_counts<R: Print + Eprint>(
    rt: &R,
    counts: &Result<Buffer, Buffer>,
) -> io::Result<ExitCode> {
    match counts {
        Ok(counts) => {
            rt.println(counts.text()?)?;
            Ok(ExitCode::SUCCESS)
        }
        Err(fault) => {
            rt.eprintln(fault.text()?)?;
            Ok(ExitCode::FAILURE)
        }
    }
}
