//! Names, ids, moments, tokens and tags.
use cases::{Buffer, Case};
use portal_base::moment::Moment;
use portal_base::name::{Name, NameFault};
use portal_base::nonce::{Nonce, id_of};
use portal_base::tag::is_tag;
use portal_base::tokens::tokens;
use std::alloc::Global;
use std::io;

/// The most characters, and a text: what the text is as a name.
pub fn name(alloc: Global, case: &Case, answer: &mut Buffer) -> io::Result<()> {
    let name = Name::read(alloc, case.text(1)?, case.parsed(0)?);
    answer.push(match name {
        Ok(_) => "a name",
        Err(NameFault::Length) => "length",
        Err(NameFault::Character) => "character",
        Err(NameFault::Reserved) => "reserved",
        Err(NameFault::OutOfMemory) => "out of memory",
    });
    Ok(())
}

/// A number: its id.
pub fn id(alloc: Global, case: &Case, answer: &mut Buffer) -> io::Result<()> {
    let id = id_of(alloc, Nonce(case.parsed(0)?))?;
    answer.push(id.as_str());
    Ok(())
}

/// Seconds: the moment's text, which is read back as the moment.
pub fn moment_text(alloc: Global, case: &Case, answer: &mut Buffer) -> io::Result<()> {
    let Some(moment) = Moment::from_seconds(case.parsed(0)?) else {
        answer.push("none");
        return Ok(());
    };
    let text = moment.text(alloc)?;
    answer.push(text.as_str());
    if Moment::read(text.as_str()) != Some(moment) {
        answer.push(" isn't read back");
    }
    Ok(())
}

/// A text: the seconds of the moment that it names.
pub fn moment_seconds(_alloc: Global, case: &Case, answer: &mut Buffer) -> io::Result<()> {
    match Moment::read(case.text(0)?) {
        Some(moment) => answer.push_value(&moment.seconds()),
        None => answer.push("none"),
    }
    Ok(())
}

/// A text: its tokens, each in brackets.
pub fn tokens_of_text(alloc: Global, case: &Case, answer: &mut Buffer) -> io::Result<()> {
    for token in tokens(alloc, case.text(0)?)?.as_slice() {
        answer.push_bracketed(token.as_bytes());
    }
    Ok(())
}

/// A text: whether it may be a tag.
pub fn tag(_alloc: Global, case: &Case, answer: &mut Buffer) -> io::Result<()> {
    answer.push(if is_tag(case.text(0)?) {
        "a tag"
    } else {
        "none"
    });
    Ok(())
}
