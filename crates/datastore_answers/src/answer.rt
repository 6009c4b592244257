//! Answers on the table of a resource.
ghost use Rattle.std.specs.Prelude.{◌≡◌};
ghost use Rattle.datastore_answers.specs.TableAnswers.{table_answer_or_refusal};

use portal_calls::answer::Answer;
use portal_calls::stop::Stop;
use std::alloc::AllocError;

/// The answer to a call on the table of a resource.
#[derive(Drop)]
pub enum TableAnswer<C> {
    /// The caller sees the resource, and it has no table.
    NoTable,
    /// The answer. It is a refusal if the caller doesn't see the resource that the call names.
    Answered(Answer<C>),
}

/// The answer, or the refusal as the answer.
pub fn table_answer_or_refusal<C: Drop>(
    outcome: Result<TableAnswer<C>, Stop>,
) -> Result<TableAnswer<C>, AllocError>
    ensures { result ≡ table_answer_or_refusal outcome }
{
    match outcome {
        Ok(answer) => Ok(answer),
        Err(Stop::Refused(denial)) => Ok(TableAnswer::Answered(Answer::Refused(denial))),
        Err(Stop::OutOfMemory) => Err(AllocError),
    }
}
