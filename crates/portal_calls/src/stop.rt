//! Why a function on the way to an answer stops before its value: a refusal, or memory that ran out. `?` passes a stop
//! up to the answer, which shows the refusal.
ghost use Rattle.std.specs.Prelude.{◌≡◌, codes, None, Some};
ghost use Rattle.portal_base.specs.KeyErrors.{error_if};
ghost use Rattle.portal_calls.specs.Answer.{authorized, denial_of, quota_error, unless_denied};
ghost use Rattle.portal_calls.specs.Stop.{Gives, answer_or_refusal};

use crate::answer::{Answer, Denial, Quota, Right, denial_of, denial_with_quota};
use portal_base::key_errors::KeyErrors;
use std::alloc::AllocError;

/// Why a function stops before its value.
#[derive(Drop)]
pub enum Stop {
    /// The call is refused.
    Refused(Denial),
    /// Memory ran out.
    OutOfMemory,
}

impl From<AllocError> for Stop {
    ghost use Rattle.std.specs.Prelude.{◌≡◌};
    ghost use Rattle.portal_calls.specs.declared.stop.Stop.TheVariants.{OutOfMemory};

    ghost from_gives = { λ _ stop. stop ≡ OutOfMemory };

    fn from(_refused: AllocError) -> Stop {
        Stop::OutOfMemory
    }
}

impl From<Denial> for Stop {
    ghost use Rattle.std.specs.Prelude.{◌≡◌};
    ghost use Rattle.portal_calls.specs.declared.stop.Stop.TheVariants.{Refused};

    ghost from_gives = { λ denial stop. stop ≡ Refused denial };

    fn from(denial: Denial) -> Stop {
        Stop::Refused(denial)
    }
}

/// Refuses a caller who lacks the right.
pub fn authorize(has_right: bool, right: Right) -> Result<(), Denial>
    ensures { result ≡ authorized has_right right tt }
{
    if has_right {
        Ok(())
    } else {
        Err(Denial::NotAuthorized(right))
    }
}

/// Refuses a body that breaks rules.
pub fn validate(faults: KeyErrors) -> Result<(), Denial>
    ensures { result ≡ unless_denied (denial_of faults) tt }
{
    match denial_of(faults) {
        Some(denial) => Err(denial),
        None => Ok(()),
    }
}

/// Refuses a change that breaks rules, of which the quota is one.
pub fn validate_change(quota: Quota, faults: KeyErrors) -> Result<(), Stop>
    ensures { Gives result (λ valid. None) Some
        (denial_of (error_if (codes "body") (quota_error quota) faults)) }
{
    match denial_with_quota(quota, faults)? {
        Some(denial) => Err(Stop::Refused(denial)),
        None => Ok(()),
    }
}

/// The answer, or the refusal as the answer.
pub fn answer_or_refusal<C: Drop>(outcome: Result<Answer<C>, Stop>) -> Result<Answer<C>, AllocError>
    ensures { result ≡ answer_or_refusal outcome }
{
    match outcome {
        Ok(answer) => Ok(answer),
        Err(Stop::Refused(denial)) => Ok(Answer::Refused(denial)),
        Err(Stop::OutOfMemory) => Err(AllocError),
    }
}
