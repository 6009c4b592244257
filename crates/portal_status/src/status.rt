//! How a run ends: its status, and the line that reports it.
ghost use Rattle.std.specs.Prelude.{◌≡◌, ◌≤◌, ◌++◌, IfOk, OnOk, OnErr};
ghost use Rattle.portal_base.specs.Outside.{Rose, Takes, TakesPrefix};
ghost use Rattle.portal_status.specs.Status.{status_code, fault_line, status_line, TakesOrFails};

use portal_base::outside::{Failed, Sink};
use portal_base::text::Text;
use portal_lines::write::write_whole;
use std::alloc::{AllocError, Global};

/// How a run ended. `code` is the exit status of the process.
#[derive(Drop)]
pub enum Status {
    /// 0: input was read to its end, or all links were served.
    Done,
    /// 2: the words name no command.
    Words,
    /// 3: input failed.
    ReadFault,
    /// 4: output failed.
    WriteFault,
    /// 5: the store failed.
    KeeperFault,
    /// 6: out of memory.
    OutOfMemory,
    /// 7: the portal file breaks a rule. The text names it.
    PortalFile(Text),
    /// 8: the portal file or the schema can't be fetched. The text names its location.
    FetchFault(Text),
    /// 9: input gave more than 2^40 bytes, or the schema or the CSV of a load has a fault. The text names it.
    DataFault(Text),
    /// 10: the reply to a call of a load has another status than 200.
    Refused,
    /// 11: the listener failed.
    ListenFault,
    /// 12: the rows of the store are those of no state.
    StoredRows,
}

impl Status {
    /// The process's exit status.
    pub fn code(&self) -> u8
        ensures { result ≡ status_code self.now }
    {
        match self {
            Status::Done => 0,
            Status::Words => 2,
            Status::ReadFault => 3,
            Status::WriteFault => 4,
            Status::KeeperFault => 5,
            Status::OutOfMemory => 6,
            Status::PortalFile(_) => 7,
            Status::FetchFault(_) => 8,
            Status::DataFault(_) => 9,
            Status::Refused => 10,
            Status::ListenFault => 11,
            Status::StoredRows => 12,
        }
    }
}

impl From<AllocError> for Status {
    ghost use Rattle.std.specs.Prelude.{◌≡◌};
    ghost use Rattle.portal_status.specs.declared.status.Status.TheVariants.{OutOfMemory};

    ghost from_gives = { λ _ status. status ≡ OutOfMemory };

    fn from(_refused: AllocError) -> Status {
        Status::OutOfMemory
    }
}

/// The two texts, one after the other.
pub fn concat(alloc: Global, first: &str, second: &str) -> Result<Text, AllocError>
    ensures { IfOk result (λ text. text ≡ first.now ++ second.now) }
{
    let mut string = String::from_str(alloc, first)?;
    string.push_str(second)?;
    Ok(Text::from(string))
}

fn write_text<E: Sink>(faults: &mut E, text: &str) -> Result<(), Failed>
    ensures ok { OnOk result (Takes (E.taken faults.old) text.now (E.taken faults.new)) }
    ensures failed { OnErr result (TakesPrefix (E.taken faults.old) text.now (E.taken faults.new)) }
    ensures fault { OnErr result (Rose (E.faults faults.old) (E.faults faults.new)) }
    ensures counts { E.faults faults.old ≤ E.faults faults.new }
{
    write_whole(faults, text.as_bytes())
}

/// Writes the line of a fault with this text. It takes no memory.
fn write_fault_line<E: Sink>(faults: &mut E, text: &str) -> Result<(), Failed>
    ensures ok { OnOk result (Takes (E.taken faults.old) (fault_line text.now) (E.taken faults.new)) }
    ensures failed { OnErr result (TakesPrefix (E.taken faults.old) (fault_line text.now) (E.taken faults.new)) }
    ensures fault { OnErr result (Rose (E.faults faults.old) (E.faults faults.new)) }
    ensures counts { E.faults faults.old ≤ E.faults faults.new }
{
    write_text(faults, "portal: ")?;
    write_text(faults, text)?;
    write_text(faults, "\n")
}

/// Writes the line of a fault with this text, unless the sink fails.
fn report_fault<E: Sink>(faults: &mut E, text: &str)
    ensures line { TakesOrFails (E.taken faults.old) (E.faults faults.old) (fault_line text.now)
        (E.taken faults.new) (E.faults faults.new) }
    ensures counts { E.faults faults.old ≤ E.faults faults.new }
{
    match write_fault_line(faults, text) {
        Ok(()) => {}
        Err(_failed) => {}
    }
}

/// Writes the line of the status to `faults`, and returns the status. It returns the same status if the write fails.
pub fn report<E: Sink>(faults: &mut E, status: Status) -> Status
    ensures status { result ≡ status }
    ensures line { TakesOrFails (E.taken faults.old) (E.faults faults.old) (status_line status)
        (E.taken faults.new) (E.faults faults.new) }
    ensures silent { status ≡ Status.Done → faults.new ≡ faults.old }
    ensures counts { E.faults faults.old ≤ E.faults faults.new }
{
    match &status {
        Status::Done => {}
        Status::Words => report_fault(faults, "bad words"),
        Status::ReadFault => report_fault(faults, "input failed"),
        Status::WriteFault => report_fault(faults, "output failed"),
        Status::KeeperFault => report_fault(faults, "store failed"),
        Status::OutOfMemory => report_fault(faults, "out of memory"),
        Status::Refused => report_fault(faults, "call refused"),
        Status::ListenFault => report_fault(faults, "listener failed"),
        Status::StoredRows => report_fault(faults, "stored rows are no portal's"),
        Status::PortalFile(text) => report_fault(faults, text.as_str()),
        Status::FetchFault(text) => report_fault(faults, text.as_str()),
        Status::DataFault(text) => report_fault(faults, text.as_str()),
    }
    status
}
