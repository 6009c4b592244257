//! Laws of the definitions: functions with an empty body, whose contracts are the laws.
ghost use Rattle.std.specs.Prelude.{◌≡◌, ℕ, List, Option, Some};
ghost use Rattle.std.specs.List.{All};
ghost use Rattle.portal_base.specs.Outside.{Holdings};
ghost use Rattle.portal_core.specs.HarvestHistory.{NoneRuns};
ghost use Rattle.portal_state.specs.PortalValue.{IsOpenedOver};
ghost use Rattle.portal_state.specs.State.{State};
ghost use Rattle.portal_state.specs.Valid.{IsValid};
ghost use Rattle.portal_state.specs.declared.opening.Opening.{Opening};
ghost use Rattle.portal_keeper.specs.declared.row.KeptRow.{KeptRow};
ghost use Rattle.portal_serve.specs.Defaults.{default_state};
ghost use Rattle.portal_serve.specs.Followed.{AreDrawnAlike, FollowsRounds};
ghost use Rattle.portal_serve.specs.Rounds.{failures_of};
ghost use Rattle.portal_serve.specs.Run.{IsWhole};
ghost use Rattle.portal_serve.specs.Transcript.{AllowsRounds, AreDrawn, Drawn, script_state, state_after};
ghost use Rattle.portal_serve.specs.Transcript.{written_for};

use harvest_pool::laws::{
    a_whole_round_does_what_the_documents_say, a_whole_round_leaves_no_open_job,
    the_reports_of_a_whole_round_tell_its_failures,
};

/// The state of the default portal is valid.
pub fn the_default_state_is_valid()
    ensures { IsValid default_state }
{}

/// No job runs in the state of the default portal, nor in the state of any opening, whether over the rows of a store or not.
pub fn no_job_runs_where_a_portal_is_opened()
    ensures default { NoneRuns default_state }
    ensures opened { (opening : Opening) (rows : List KeptRow) (state : State) → IsOpenedOver opening rows state →
        NoneRuns state }
{}

/// If no job runs in a valid state, each round of a script from there follows from the documents: what it leaves and reports
/// is what the documents say of the state before its line, given the failed fetches of which its report tells, and it tells of
/// as many as failed. The state after the script is again a valid one in which no job runs.
pub fn rounds_of_a_script_follow_from_the_documents()
    ensures follow { (held : Holdings) (state : State) (d : Drawn) (lines : List (List ℕ)) →
        IsValid state → NoneRuns state → AllowsRounds held (script_state state d) lines → All IsWhole d.rounds →
        FollowsRounds held (script_state state d) lines }
    ensures valid { (held : Holdings) (state : State) (d : Drawn) (lines : List (List ℕ)) →
        IsValid state → NoneRuns state → AllowsRounds held (script_state state d) lines → All IsWhole d.rounds →
        IsValid (state_after (script_state state d) lines) }
    ensures rests { (held : Holdings) (state : State) (d : Drawn) (lines : List (List ℕ)) →
        IsValid state → NoneRuns state → AllowsRounds held (script_state state d) lines → All IsWhole d.rounds →
        NoneRuns (state_after (script_state state d) lines) }
{
    a_whole_round_does_what_the_documents_say();
    a_whole_round_leaves_no_open_job();
    the_reports_of_a_whole_round_tell_its_failures();
}

/// What a script writes and leaves follows from the state before it, its lines, the moments and nonces, the documents, and the
/// failed fetches of which its rounds report: two runs that have these in common write the same and leave the same.
pub fn a_transcript_follows_from_the_documents()
    ensures written { (documents : List ℕ → Option (List ℕ)) (state : State) (one other : Drawn) (lines : List (List ℕ)) →
        IsValid state → NoneRuns state →
        AllowsRounds (Some documents) (script_state state one) lines → All IsWhole one.rounds →
        AllowsRounds (Some documents) (script_state state other) lines → All IsWhole other.rounds →
        AreDrawnAlike one other →
        written_for (script_state state other) lines ≡ written_for (script_state state one) lines }
    ensures leaves { (documents : List ℕ → Option (List ℕ)) (state : State) (one other : Drawn) (lines : List (List ℕ)) →
        IsValid state → NoneRuns state →
        AllowsRounds (Some documents) (script_state state one) lines → All IsWhole one.rounds →
        AllowsRounds (Some documents) (script_state state other) lines → All IsWhole other.rounds →
        AreDrawnAlike one other →
        state_after (script_state state other) lines ≡ state_after (script_state state one) lines }
{
    rounds_of_a_script_follow_from_the_documents();
}

/// Where no fetch failed, reports tell of none. So two runs of a script that draw the same moments and nonces are drawn alike,
/// and what they write and leave follows from the documents alone.
pub fn scripts_without_failed_fetches_are_drawn_alike()
    ensures { (documents : List ℕ → Option (List ℕ)) (state : State) (one other : Drawn) (lines : List (List ℕ)) →
        IsValid state → NoneRuns state →
        AllowsRounds (Some documents) (script_state state one) lines → All IsWhole one.rounds →
        AllowsRounds (Some documents) (script_state state other) lines → All IsWhole other.rounds →
        AreDrawn lines one → AreDrawn lines other → other.moments ≡ one.moments → other.nonces ≡ one.nonces →
        failures_of one.rounds ≡ 0 → failures_of other.rounds ≡ 0 → AreDrawnAlike one other }
{
    rounds_of_a_script_follow_from_the_documents();
}
