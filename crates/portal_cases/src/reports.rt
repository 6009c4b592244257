//! Reports: each file `WORLD--CALLER--KIND.report` has the report of that kind on what the caller sees after the script
//! `WORLD.world` was played on the default portal. So a further case is one file.
use crate::documents::no_documents;
use crate::people::caller_of;
use crate::scripts::{compare_with, content_of, names_with, play_on};
use cases::{Tally, invalid};
use portal_base::caller::Caller;
use portal_base::text::Text;
use portal_core::portal::Portal;
use portal_keeper::memory::MemoryKeeper;
use portal_reports::report::report;
use portal_serve::defaults::default_portal;
use portal_words::ReportKind;
use std::alloc::Global;
use std::io;

/// What the name of a file asks for.
#[derive(Clone, Copy)]
struct Asked<'a> {
    world: &'a str,
    caller: &'a str,
    kind: ReportKind,
}

impl<'a> Asked<'a> {
    /// What the name asks for, if it has the form `WORLD--CALLER--KIND`.
    fn read(name: &'a str) -> Option<Asked<'a>> {
        let (world, rest) = name.split_once("--")?;
        let (caller, kind) = rest.split_once("--")?;
        Some(Asked {
            world,
            caller,
            kind: kind_named(kind)?,
        })
    }
}

/// The kind of report of that name.
fn kind_named(name: &str) -> Option<ReportKind> {
    match name {
        "datasets" => Some(ReportKind::Datasets),
        "tables" => Some(ReportKind::Tables),
        _ => None,
    }
}

/// The report after the script was played on the portal.
fn report_on(
    alloc: Global,
    portal: &mut Portal<MemoryKeeper>,
    script: Vec<u8>,
    caller: &Caller,
    kind: ReportKind,
) -> io::Result<Text> {
    let _transcript = play_on(alloc, portal, script, no_documents(alloc))?;
    Ok(report(alloc, portal, caller, kind)?)
}

/// The report after the script was played on the default portal.
fn report_after(
    alloc: Global,
    script: Vec<u8>,
    caller: &str,
    kind: ReportKind,
) -> io::Result<Text> {
    let caller = caller_of(alloc, caller)?;
    let mut portal = default_portal(alloc)?;
    report_on(alloc, &mut portal, script, &caller, kind)
}

/// Compares the report that the file's name asks for with the file.
fn check_report(rt: &HostRuntime, tally: &mut Tally, name: &str) -> io::Result<()> {
    let Some(asked) = Asked::read(name) else {
        return Err(invalid());
    };
    let script = content_of(rt, asked.world, ".world")?;
    let found = report_after(rt.alloc(), script, asked.caller, asked.kind)?;
    compare_with(rt, tally, name, ".report", found.as_bytes())
}

/// Makes all reports of the folder.
pub fn check_reports(rt: &HostRuntime, tally: &mut Tally) -> io::Result<()> {
    for name in names_with(rt, ".report")?.iter() {
        check_report(rt, tally, name.as_str())?;
    }
    Ok(())
}
