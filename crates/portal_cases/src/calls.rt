//! Files of calls. Each is worked on a portal of its own, a call a line, and each line has the expected reply.
use crate::reply_text::{part_in, push_expected, push_reply};
use crate::session::{Line, Session};
use cases::{Buffer, Location, Tally};
use std::rt::Files;
use std::{fs, io};

/// Works the call of a line, and compares the reply with the expected one.
fn check_call<R: AllocGlobal + Print>(
    rt: &R,
    tally: &mut Tally,
    location: Location<'_>,
    session: &mut Session,
    line: Line<'_>,
) {
    let Some(reply) = session.work(rt.alloc(), line) else {
        return tally.refuse(rt, location, "no call");
    };
    let part = part_in(rt.alloc(), line.expected);
    let mut expected = Buffer::new(rt.alloc());
    push_expected(rt.alloc(), &mut expected, line.expected, part.as_ref());
    let mut found = Buffer::new(rt.alloc());
    push_reply(rt.alloc(), &mut found, part.as_ref(), &reply);
    match expected.bytes() {
        Ok(expected) => tally.compare_answer(rt, location, expected, &found),
        Err(error) => tally.refuse(rt, location, error),
    }
}

/// Whether a line is no call.
fn is_note(line: &str) -> bool {
    line.is_empty() || line.starts_with('#')
}

/// Works a line of a file.
fn check_line<R: AllocGlobal + Print>(
    rt: &R,
    tally: &mut Tally,
    location: Location<'_>,
    session: &mut Session,
    text: &str,
) {
    if is_note(text) {
        return;
    }
    match Line::read(text) {
        Some(line) => check_call(rt, tally, location, session, line),
        None => {
            tally.refuse(
                rt,
                location,
                "no line of the form CALLER ACTION BODY => REPLY",
            );
        }
    }
}

/// Works the calls of a file on a portal of its own.
fn check_file<R: Files + AllocGlobal + Print>(
    rt: &R,
    tally: &mut Tally,
    file: &str,
) -> io::Result<()> {
    let text = fs::read_to_string(rt, file)?;
    let mut session = Session::new(rt.alloc())?;
    let mut line: u64 = 0;
    for words in text.as_str().lines() {
        line = line.saturating_add(1);
        check_line(rt, tally, Location { file, line }, &mut session, words);
    }
    Ok(())
}

/// Works the files that the file `scripts` names.
pub fn check_calls<R: Files + AllocGlobal + Print>(rt: &R, tally: &mut Tally) -> io::Result<()> {
    let files = fs::read_to_string(rt, "scripts")?;
    for file in files.as_str().lines() {
        if !is_note(file) {
            check_file(rt, tally, file)?;
        }
    }
    Ok(())
}
