//! Loads: by words that name no command, with missing files, faulty schemas, a missing resource, and a present one.
use crate::memory::{Ends, NEVER, Outcome, ran, ran_over};
use std::alloc::{AllocError, Global};
use std::test::Fail;

const LOAD: &str = "load --as ann --resource keys.1 --schema p.toml";

const SCHEMA: &str =
    r#"{"fields":[{"name":"id","type":"integer"},{"name":"name"}],"primaryKey":"id"}"#;

/// No device fails, and the fetcher holds this file.
fn holding(file: &'static str) -> Ends {
    Ends { file, ..NEVER }
}

/// Whether a run of these words ends with this status, and writes nothing but its line.
fn ends_untouched(
    alloc: Global,
    words: &str,
    ends: Ends,
    code: u8,
    line: &str,
) -> Result<bool, AllocError> {
    let outcome = ran(alloc, words, ends)?;
    Ok(outcome.code() == code && outcome.output().is_empty() && outcome.faults() == line.as_bytes())
}

#[test]
fn what_keeps_a_load_from_its_first_call_is_reported(rt: HostRuntime) -> Result<(), Fail> {
    let failing = Ends {
        fetch: 1,
        ..holding(SCHEMA)
    };
    for (words, ends, code, line) in [
        (
            "load --as ann --resource keys.1",
            holding(SCHEMA),
            2,
            "portal: bad words\n",
        ),
        (
            "load --as ann --resource keys.1 --schema s",
            holding(SCHEMA),
            8,
            "portal: cannot fetch s\n",
        ),
        (LOAD, failing, 8, "portal: cannot fetch p.toml\n"),
        (LOAD, holding("{"), 9, "portal: schema: not JSON\n"),
        (
            LOAD,
            holding(r#"{"fields":[{"name":"id","type":"money"}]}"#),
            9,
            "portal: schema: field 1: unknown type\n",
        ),
        (
            "load --as ann --resource keys.1 --schema s --portal p.toml",
            holding("user = 1"),
            7,
            "portal: portal file: toml\n",
        ),
        (
            LOAD,
            Ends {
                write: 1,
                ..holding(SCHEMA)
            },
            4,
            "portal: output failed\n",
        ),
    ] {
        assert!(rt;
            ends_untouched(rt.alloc(), words, ends, code, line)?,
            "at {line}"
        );
    }
    Ok(())
}

/// Whether output has one line, with another status than 200.
fn has_refusal_alone(outcome: &Outcome) -> bool {
    let output = outcome.output();
    output.ends_with("\n".as_bytes())
        && !output.starts_with("200 ".as_bytes())
        && output.iter().filter(|byte| **byte == b'\n').count() == 1
}

// Input fails at its first read, which isn't reached.
#[test]
fn a_refused_call_ends_a_load(rt: HostRuntime) -> Result<(), Fail> {
    for read in 0..2usize {
        let outcome = ran(
            rt.alloc(),
            LOAD,
            Ends {
                read,
                ..holding(SCHEMA)
            },
        )?;
        assert!(rt;
            outcome.code() == 10
                && has_refusal_alone(&outcome)
                && outcome.faults() == "portal: call refused\n".as_bytes(),
            "with {read}"
        );
    }
    Ok(())
}

/// The call that makes the dataset.
const DATASET: &str =
    r#"{"action":"package_create","as":"ann","body":{"name":"keys","owner_org":"city","resources":[{"name":"t"}]}}"#;

const CREATED: &str =
    "200 {\"help\":\"/api/3/action/help_show?name=datastore_create\",\"result\":{\"fields\":\
    [{\"id\":\"id\",\"type\":\"int\"},{\"id\":\"name\",\"type\":\"text\"}],\"primary_key\":[\"id\"],\
    \"resource_id\":\"00000000-0000-0000-0000-000000000001.1\"},\"success\":true}\n";

const INSERTED: &str =
    "200 {\"help\":\"/api/3/action/help_show?name=datastore_upsert\",\"result\":{\"count\":2,\
    \"method\":\"insert\",\"resource_id\":\"00000000-0000-0000-0000-000000000001.1\"},\"success\":true}\n";

const KEY_TAKEN: &str =
    "409 {\"error\":{\"__type\":\"Validation Error\",\"records\":[\"row 2: key taken\"]},\
    \"help\":\"/api/3/action/help_show?name=datastore_upsert\",\"success\":false}\n";

/// A run that loads the CSV over the store that a run left which made the dataset.
fn loaded(alloc: Global, csv: &'static str, read: usize) -> Result<Outcome, AllocError> {
    let script = Ends {
        input: DATASET,
        ..NEVER
    };
    let made = ran(alloc, "play", script)?;
    let load = Ends {
        input: csv,
        read,
        ..holding(SCHEMA)
    };
    ran_over(alloc, LOAD, load, made.into_keeper())
}

#[test]
fn rows_are_loaded_up_to_a_fault_or_a_refusal(rt: HostRuntime) -> Result<(), Fail> {
    for (csv, read, code, line, after) in [
        ("id,name\n1,Elm\n2,Oak\n", 0, 0, "", INSERTED),
        (
            "id,name\nx,Elm\n",
            0,
            9,
            "portal: row 1, id: not of type\n",
            "",
        ),
        (
            "id,name\n1,Elm\n,Oak\n",
            0,
            9,
            "portal: row 2, id: required\n",
            "",
        ),
        ("id,name\n1\n", 0, 9, "portal: row 1: width\n", ""),
        ("id,colour\n1,red\n", 0, 9, "portal: header 2\n", ""),
        (
            "id,name\n1,Elm\n1,Oak\n",
            0,
            10,
            "portal: call refused\n",
            KEY_TAKEN,
        ),
        ("id,name\n1,Elm\n", 1, 3, "portal: input failed\n", ""),
    ] {
        let outcome = loaded(rt.alloc(), csv, read)?;
        let rest = outcome.output().strip_prefix(CREATED.as_bytes());
        assert!(rt;
            outcome.code() == code
                && outcome.faults() == line.as_bytes()
                && rest == Some(after.as_bytes()),
            "at {csv}"
        );
    }
    Ok(())
}
