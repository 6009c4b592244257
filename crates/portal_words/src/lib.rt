//! The words of the command line: the command that they name, with its options.
#![tactic(auto)]

pub mod command;
pub mod first_word;
mod options;
mod values;

pub use command::{
    Command, HarvestOptions, LoadOptions, PlayOptions, ReportKind, ReportOptions, ServeOptions,
    WordsFault,
};
