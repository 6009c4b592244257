//! Laws of the definitions: functions with an empty body, whose contracts are the laws.
ghost use Rattle.std.specs.Prelude.{◌≡◌, ◌++◌, ℕ, Bool, List, Option, Result};
ghost use Rattle.portal_base.specs.declared.outside.FetchFault.{FetchFault};
ghost use Rattle.http_front.specs.Fetch.{IsFetched};
ghost use Rattle.http_front.specs.HeadParse.{IsHeadParse};
ghost use Rattle.http_front.specs.Request.{AnswersBy, IsReceived};
ghost use Rattle.http_front.specs.declared.fault.FrontFault.{FrontFault};
ghost use Rattle.http_front.specs.declared.head.Head.{Head};
ghost use Rattle.http_front.specs.declared.head.HeadParse.{HeadParse};
ghost use Rattle.http_front.specs.declared.head.HeadParse.TheVariants.{Complete, Invalid};
ghost use Rattle.http_front.specs.declared.incoming.Incoming.{Incoming};

/// The bytes of a connection determine what is received of them, given what `reading` answers for each action's name.
/// So if the bytes end before a head does, the fault is either `BadHead` or `EndedEarly`, and the bytes determine
/// which.
pub fn received_is_determined()
    ensures { (reading : List ℕ → Option Bool) (bytes : List ℕ) (one two : Result Incoming FrontFault) →
        IsReceived (AnswersBy reading) bytes one → IsReceived (AnswersBy reading) bytes two → one ≡ two }
{}

/// The bytes of a response determine what is fetched of them.
pub fn fetched_is_determined()
    ensures { (limit : ℕ) (bytes : List ℕ) (one two : Result (List ℕ) FetchFault) →
        IsFetched limit bytes one → IsFetched limit bytes two → one ≡ two }
{}

/// Bytes that follow change no head that is complete: it stays the one parse of the text. And they mend no text that is
/// invalid. So a text is not both complete and partial, or complete and invalid.
pub fn later_bytes_keep_a_parse()
    ensures complete { (text more : List ℕ) (head : Head) (parse : HeadParse) → IsHeadParse text (Complete head)
        → IsHeadParse (text ++ more) parse → parse ≡ Complete head }
    ensures invalid { (text more : List ℕ) → IsHeadParse text Invalid → IsHeadParse (text ++ more) Invalid }
{}
