//! Worked examples as lines of files, and a program's answers beside the expected ones.
//!
//! A program of cases reads files of the folder that it runs in (the gate copies the crate's `data/` there):
//!
//! ```text
//! # Names: the text, and what it is.
//! ab               | a name
//! new              | reserved
//! \xC3\xA9         | length
//! @ 4
//! abcde            | too long
//! ```
//!
//! - Each line is a case. Its columns are divided by `|`; blanks (spaces) at both ends of a column don't count.
//! - A line without any but blanks, and one that begins with `#`, is no case.
//! - `@ TEXT` makes TEXT the first column of each case below it, up to the next such line; a lone `@` ends it.
//! - In a column `\n`, `\r`, `\t`, `\s` (a space), `\\` and `\xHH` (the byte HH, two hexadecimal digits) stand for
//!   what doesn't show, for a bar (`\x7C`), and for a first `#` or `@` (`\x23`, `\x40`). So columns are bytes, of any
//!   kind.
//!
//! ```text
//! fn name(alloc: Global, case: &Case, answer: &mut Buffer) -> io::Result<()> {
//!     ... case.text(0)? ... answer.push(..) ...
//! }
//!
//! fn main(rt: HostRuntime) -> io::Result<ExitCode> {
//!     let mut tally = Tally::new();
//!     tally.check(&rt, "names", 2, name);
//!     tally.end(&rt)
//! }
//! ```
//!
//! `check` asks for the answer to each case of the file, which has that many columns (a shared one counted), and
//! compares it with the last column. `check_files` does so where each column is the name of a file, as where a document
//! and its answer take many lines: their contents are the columns. Both print each case that doesn't hold with both
//! answers, and each line that is no case. An answer that is an `Err` doesn't hold, nor does a file that can't be read.
//! `end` prints how many cases hold.
//!
//! An answer is written into a `Buffer`, and so are the documents, bodies and tables that a case says in short.
//!
//! `rt ci` copies `data/` and compares what is printed with the crate's `stdout`. While writing, run the built
//! program in `data/`: `rt run; cd data; ../out/NAME`.
#![tactic(auto)]

pub mod buffer;
pub mod case;
pub mod escape;
pub mod tally;

pub use buffer::{Buffer, print_counts};
pub use case::{Case, invalid};
pub use tally::{Location, Tally};
