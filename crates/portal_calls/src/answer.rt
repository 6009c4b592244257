//! Answers to calls, in the order in which an answer tries its refusals: not found, not authorized, validation.
ghost use Rattle.std.specs.Prelude.{◌≡◌, IfOk, codes};
ghost use Rattle.std.specs.Option.{option_copied};
ghost use Rattle.std.specs.Result.{result_map_both};
ghost use Rattle.portal_base.specs.KeyErrors.{error_if};
ghost use Rattle.portal_calls.specs.Answer.{required_text, key_denial, denial_of, quota_error};

use portal_base::json_value::Json;
use portal_base::key_errors::KeyErrors;
use portal_base::kinds::{KindFault, text_at};
use portal_base::seq::Seq;
use portal_base::text::Text;
use std::alloc::{AllocError, Global};

/// A kind of thing that wasn't found.
#[derive(Clone, Copy, Debug, PartialEq, Eq)]
pub enum Kind {
    Dataset,
    Resource,
    Organization,
    Table,
    HarvestSource,
    HarvestJob,
}

/// A right that a caller lacks.
#[derive(Clone, Copy, Debug, PartialEq, Eq)]
pub enum Right {
    CreateDataset,
    EditDataset,
    PurgeDataset,
    CreateOrganization,
    AdministerOrganization,
}

/// Why an answer refuses a call. A name in use and out of memory aren't among these: they don't follow from what the
/// caller sees.
#[derive(Drop)]
pub enum Denial {
    /// No such thing is among what the caller sees.
    NotFound(Kind),
    /// The caller sees the thing, and lacks the right.
    NotAuthorized(Right),
    /// The body breaks rules: each key with its message.
    Validation(Seq<(Text, Text)>),
}

/// The answer to a call: a value that is shown, a refusal, or a change with the value that the reply shows for it.
#[derive(Drop)]
pub enum Answer<C> {
    Shown(Json),
    Refused(Denial),
    Accepted(Json, C),
}

/// Whether a change fits into its caller's quota of accepted bytes.
#[derive(Clone, Copy, Debug, PartialEq, Eq)]
pub enum Quota {
    Left,
    UsedUp,
}

/// The text at a key of the body that names a thing. It fails where the key is absent or its value is no text.
pub fn required_text<'a>(body: &'a Json, key: &str) -> Result<&'a Text, KindFault>
    ensures { result_map_both (λ text. text.now) (λ fault. fault) result ≡ required_text key.now body.now }
{
    match text_at(body, key) {
        Ok(Some(text)) => Ok(text),
        Ok(None) => Err(KindFault::Missing),
        Err(fault) => Err(fault),
    }
}

/// The refusal for a key that names no thing: the key's error alone, before any other rule is tried.
pub fn key_denial(alloc: Global, key: &'static str, fault: KindFault) -> Result<Denial, AllocError>
    ensures { IfOk result (λ denial. denial ≡ key_denial key.now fault) }
{
    let mut errors = Vec::with_capacity(alloc, 1)?;
    errors.push((Text::from_static(key), fault.message(alloc)?))?;
    Ok(Denial::Validation(Seq::from(errors)))
}

/// The refusal for broken rules. `None` where none is broken.
pub fn denial_of(faults: KeyErrors) -> Option<Denial>
    ensures { result ≡ denial_of faults }
{
    if faults.is_empty() {
        return None;
    }
    Some(Denial::Validation(faults.into_list()))
}

/// The refusal for the broken rules of a change, of which the quota is one. `None` where none is broken.
pub fn denial_with_quota(quota: Quota, faults: KeyErrors) -> Result<Option<Denial>, AllocError>
    ensures { IfOk result (λ denial.
        denial ≡ denial_of (error_if (codes "body") (quota_error quota) faults)) }
{
    Ok(denial_of(with_quota_error(quota, faults)?))
}

/// The errors of a change, with that of a quota that is used up.
pub fn with_quota_error(quota: Quota, faults: KeyErrors) -> Result<KeyErrors, AllocError>
    ensures { IfOk result (λ errors. errors ≡ error_if (codes "body") (quota_error quota) faults) }
{
    let mut faults = faults;
    if quota == Quota::UsedUp {
        let message = Text::from_static("Quota of accepted bytes is used up");
        faults.add_error(Text::from_static("body"), message)?;
    }
    Ok(faults)
}
