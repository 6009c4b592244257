//! The errors of a body's keys.
ghost use Rattle.std.specs.Prelude.{◌≡◌, ℕ, List, Option, Some, IsTrue, OnOk, OnErr, is_some};
ghost use Rattle.portal_base.specs.KeyErrors.{error_if};
ghost use Rattle.portal_base.specs.Kinds.{message_of};
ghost use Rattle.packages.specs.Errors.{message_unless};
ghost use Rattle.packages.specs.Reading.{HasError};

use portal_base::key_errors::KeyErrors;
use portal_base::kinds::KindFault;
use portal_base::text::Text;
use std::alloc::{AllocError, Global};

/// Why a value is not read.
#[derive(Drop)]
pub enum ReadFault {
    /// It breaks a rule, which has this message.
    Rule(Text),
    OutOfMemory,
}

impl From<AllocError> for ReadFault {
    ghost use Rattle.std.specs.Prelude.{◌≡◌};
    ghost use Rattle.packages.specs.declared.errors.ReadFault.TheVariants.{OutOfMemory};

    ghost from_gives = { λ _ fault. fault ≡ OutOfMemory };

    fn from(_refused: AllocError) -> ReadFault {
        ReadFault::OutOfMemory
    }
}

/// The message, unless the rule holds.
pub fn message_unless(holds: bool, message: &'static str) -> Option<Text>
    ensures { result ≡ message_unless holds message.now }
{
    if holds {
        None
    } else {
        Some(Text::from_static(message))
    }
}

/// Adds the error of a key, if there is one. If memory is out, nothing changes.
pub fn add_error(
    faults: &mut KeyErrors,
    key: &'static str,
    error: Option<Text>,
) -> Result<(), AllocError>
    ensures ok { OnOk result (faults.new ≡ error_if key.now error faults.old) }
    ensures err { OnErr result (faults.new ≡ faults.old) }
{
    if let Some(message) = error {
        faults.add_error(Text::from_static(key), message)?;
    }
    Ok(())
}

/// Adds the error of a key whose value is not read. If memory is or was out, nothing changes, and the result says so.
pub fn add_fault(
    faults: &mut KeyErrors,
    key: &'static str,
    fault: ReadFault,
) -> Result<(), AllocError>
    ensures ok { (error : Option (List ℕ)) → HasError error fault →
        OnOk result (faults.new ≡ error_if key.now error faults.old) }
    ensures rule { (error : Option (List ℕ)) → HasError error fault → OnOk result (IsTrue (is_some error)) }
    ensures err { OnErr result (faults.new ≡ faults.old) }
{
    match fault {
        ReadFault::Rule(message) => faults.add_error(Text::from_static(key), message),
        ReadFault::OutOfMemory => Err(AllocError),
    }
}

/// Adds the error of a key whose value has the wrong kind. If memory is out, nothing changes.
pub fn add_kind_fault(
    alloc: Global,
    faults: &mut KeyErrors,
    key: &'static str,
    fault: KindFault,
) -> Result<(), AllocError>
    ensures ok { OnOk result (faults.new ≡ error_if key.now (Some (message_of fault)) faults.old) }
    ensures err { OnErr result (faults.new ≡ faults.old) }
{
    faults.add_error(Text::from_static(key), fault.message(alloc)?)
}
