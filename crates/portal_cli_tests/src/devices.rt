//! Runs over devices that fail, each at every call that a run reaches, and runs of words that name no command.
use crate::memory::{Ends, NEVER, SCRIPT, TRANSCRIPT, ran};
use std::alloc::{AllocError, Global};
use std::test::Fail;

const READ_FAULT: &str = "portal: input failed\n";

const WRITE_FAULT: &str = "portal: output failed\n";

const KEEPER_FAULT: &str = "portal: store failed\n";

/// Words, the calls at which devices fail, and the end of the run: its status, and the counts of bytes of the
/// transcript and of the line that were written.
#[derive(Clone, Copy)]
struct Case {
    words: &'static str,
    ends: Ends,
    code: u8,
    written: usize,
    line: &'static str,
    reported: usize,
}

/// The script is played to its end.
const PLAYED: Case = Case {
    words: "play",
    ends: NEVER,
    code: 0,
    written: TRANSCRIPT.len(),
    line: "",
    reported: 0,
};

/// A run of these words that writes nothing but its line.
fn refused(words: &'static str, ends: Ends, code: u8, line: &'static str) -> Case {
    Case {
        words,
        ends,
        code,
        written: 0,
        line,
        reported: line.len(),
    }
}

/// Whether these bytes are the first `count` of the text.
fn is_prefix(taken: &[u8], text: &str, count: usize) -> bool {
    taken.len() == count && text.as_bytes().starts_with(taken)
}

/// Whether the run ends as the case says.
fn holds(alloc: Global, case: Case) -> Result<bool, AllocError> {
    let outcome = ran(alloc, case.words, case.ends)?;
    Ok(
        outcome.code() == case.code
            && is_prefix(outcome.output(), TRANSCRIPT, case.written)
            && is_prefix(outcome.faults(), case.line, case.reported),
    )
}

/// Fails if the run ends otherwise.
fn expect(alloc: Global, case: Case) -> Result<(), Fail> {
    if holds(alloc, case)? {
        return Ok(());
    }
    Err(Fail::new(format_args!(
        "{}: not {}, {} bytes written, {} reported",
        case.words, case.code, case.written, case.reported
    )))
}

/// The count of bytes of the first line.
fn first_line_length(text: &str) -> usize {
    match text.find('\n') {
        Some(at) => at.saturating_add(1),
        None => text.len(),
    }
}

/// The count of bytes that are written after `read` bytes were read.
fn written_after(read: usize) -> usize {
    if read < first_line_length(SCRIPT) {
        return 0;
    }
    if read < SCRIPT.len() {
        return first_line_length(TRANSCRIPT);
    }
    TRANSCRIPT.len()
}

/// The rows of a store after a run that played so many bytes of the script, or after none.
fn rows_after(alloc: Global, played: Option<usize>) -> Result<String, Fail> {
    let Some(played) = played else {
        return Ok(String::new(alloc));
    };
    let input = SCRIPT.get(..played).unwrap_or(SCRIPT);
    ran(alloc, "play", Ends { input, ..NEVER })?.rows(alloc)
}

#[test]
fn words_and_portal_files_are_accepted_or_reported(rt: HostRuntime) -> Result<(), Fail> {
    let repeated = Ends {
        file: r#"user = [{ name = "ann" }, { name = "ann" }]"#,
        ..NEVER
    };
    let failing = Ends { fetch: 1, ..NEVER };
    let file = "play --portal p.toml";
    for case in [
        PLAYED,
        Case {
            words: file,
            ..PLAYED
        },
        refused("Play", NEVER, 2, "portal: bad words\n"),
        refused("", NEVER, 2, "portal: bad words\n"),
        refused(file, repeated, 7, "portal: portal file: repeated user\n"),
        refused(file, failing, 8, "portal: cannot fetch p.toml\n"),
        refused("play --portal=p", NEVER, 8, "portal: cannot fetch p\n"),
    ] {
        expect(rt.alloc(), case)?;
    }
    Ok(())
}

// Each call of the source fails in turn, also the one that finds the end.
#[test]
fn each_failing_read_ends_a_run_with_3(rt: HostRuntime) -> Result<(), Fail> {
    for read in 0..=SCRIPT.len() {
        let case = Case {
            ends: Ends {
                read: read.saturating_add(1),
                ..NEVER
            },
            written: written_after(read),
            ..refused("play", NEVER, 3, READ_FAULT)
        };
        expect(rt.alloc(), case)?;
    }
    Ok(())
}

// Each call of the sink fails in turn.
#[test]
fn each_failing_write_ends_a_run_with_4(rt: HostRuntime) -> Result<(), Fail> {
    for written in 0..TRANSCRIPT.len() {
        let case = Case {
            ends: Ends {
                write: written.saturating_add(1),
                ..NEVER
            },
            written,
            ..refused("play", NEVER, 4, WRITE_FAULT)
        };
        expect(rt.alloc(), case)?;
    }
    Ok(())
}

// The keeper's calls are one that gives the rows, one that puts those of the opening, and one for each change. Output has
// the replies of the changes before the call that fails, and the store has their rows.
#[test]
fn each_failing_call_of_the_keeper_ends_a_run_with_5(rt: HostRuntime) -> Result<(), Fail> {
    let first = first_line_length(SCRIPT);
    let reply = first_line_length(TRANSCRIPT);
    for (keep, read, written) in [
        (1, None, 0),
        (2, None, 0),
        (3, Some(0), 0),
        (4, Some(first), reply),
    ] {
        let case = Case {
            written,
            ..refused("play", Ends { keep, ..NEVER }, 5, KEEPER_FAULT)
        };
        expect(rt.alloc(), case)?;
        let mut outcome = ran(rt.alloc(), case.words, case.ends)?;
        assert!(rt;
            outcome.rows(rt.alloc())?.as_str() == rows_after(rt.alloc(), read)?.as_str(),
            "after call {keep}"
        );
    }
    Ok(())
}

#[test]
fn output_is_full_after_each_byte(rt: HostRuntime) -> Result<(), Fail> {
    for room in 0..TRANSCRIPT.len() {
        let case = Case {
            ends: Ends { room, ..NEVER },
            written: room,
            ..refused("play", NEVER, 4, WRITE_FAULT)
        };
        expect(rt.alloc(), case)?;
    }
    Ok(())
}

// Each call of the sink for the line fails in turn, and the status stays the same.
#[test]
fn a_line_that_fails_changes_no_status(rt: HostRuntime) -> Result<(), Fail> {
    for reported in 0..READ_FAULT.len() {
        let ends = Ends {
            read: 1,
            line: reported.saturating_add(1),
            ..NEVER
        };
        let case = Case {
            reported,
            ..refused("play", ends, 3, READ_FAULT)
        };
        expect(rt.alloc(), case)?;
    }
    Ok(())
}
