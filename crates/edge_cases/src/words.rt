//! The words of the command line: the command that they say, or `bad words`.
use cases::{Buffer, Case};
use portal_base::caller::Caller;
use portal_base::text::Text;
use portal_words::{
    Command, HarvestOptions, LoadOptions, PlayOptions, ReportKind, ReportOptions, ServeOptions,
    WordsFault,
};
use std::alloc::{AllocError, Global};
use std::io;

/// The words between the spaces of the text; none where it is empty.
fn words_in(alloc: Global, text: &str) -> Result<Vec<String>, AllocError> {
    let mut words = Vec::new(alloc);
    if text.is_empty() {
        return Ok(words);
    }
    for word in text.split(' ') {
        words.push(String::from_str(alloc, word)?)?;
    }
    Ok(words)
}

/// Writes the command, and where the portal file is, in brackets.
fn push_command(answer: &mut Buffer, command: &str, portal: Option<&Text>) {
    answer.push(command);
    if let Some(location) = portal {
        answer.push(" portal [");
        answer.push(location.as_str());
        answer.push("]");
    }
}

fn push_play(answer: &mut Buffer, options: &PlayOptions) {
    push_command(answer, "play", options.portal.as_ref());
}

fn push_load(answer: &mut Buffer, options: &LoadOptions) {
    push_command(answer, "load", options.portal.as_ref());
    answer.push(" as [");
    answer.push(options.caller.as_str());
    answer.push("] resource [");
    answer.push(options.resource.as_str());
    answer.push("] schema [");
    answer.push(options.schema.as_str());
    answer.push("]");
}

fn push_harvest(answer: &mut Buffer, options: &HarvestOptions) {
    push_command(answer, "harvest", options.portal.as_ref());
    answer.push(" as [");
    answer.push(options.caller.as_str());
    answer.push("] source [");
    answer.push(options.source.as_str());
    answer.push("] workers ");
    answer.push_value(&options.workers);
}

fn push_serve(answer: &mut Buffer, options: &ServeOptions) {
    push_command(answer, "serve", options.portal.as_ref());
    answer.push(" links ");
    answer.push_value(&options.links);
}

fn kind_name(kind: ReportKind) -> &'static str {
    match kind {
        ReportKind::Datasets => "datasets",
        ReportKind::Tables => "tables",
    }
}

fn push_report(answer: &mut Buffer, options: &ReportOptions) {
    push_command(answer, "report", options.portal.as_ref());
    answer.push(" kind ");
    answer.push(kind_name(options.kind));
    if let Caller::Named(name) = &options.caller {
        answer.push(" as [");
        answer.push(name.as_str());
        answer.push("]");
    }
}

/// Words with a space between them: the command that they say, with its options, or why there is none.
pub fn command(alloc: Global, case: &Case, answer: &mut Buffer) -> io::Result<()> {
    let words = words_in(alloc, case.text(0)?)?;
    match Command::read(alloc, words.as_slice()) {
        Ok(Command::Play(options)) => push_play(answer, &options),
        Ok(Command::Load(options)) => push_load(answer, &options),
        Ok(Command::Harvest(options)) => push_harvest(answer, &options),
        Ok(Command::Serve(options)) => push_serve(answer, &options),
        Ok(Command::Report(options)) => push_report(answer, &options),
        Err(WordsFault::BadWords) => answer.push("bad words"),
        Err(WordsFault::OutOfMemory) => answer.push("out of memory"),
    }
    Ok(())
}
