//! Laws of the definitions: functions with an empty body, whose contracts are the laws.
ghost use Rattle.std.specs.Prelude.{◌≡◌, ◌+◌, ◌++◌, ℕ, IsSome, IsTrue, List, find, map, true, false};
ghost use Rattle.std.specs.List.{All, Contains};
ghost use Rattle.portal_base.specs.declared.caller.Caller.{Caller};
ghost use Rattle.portal_base.specs.declared.caller.Caller.TheVariants.{Anonymous, Named};
ghost use Rattle.portal_base.specs.declared.json_value.Json.{Json};
ghost use Rattle.org_roles.specs.PeopleLists.{is_user_in};
ghost use Rattle.org_roles.specs.declared.entry.Membership.{Membership};
ghost use Rattle.org_roles.specs.declared.entry.User.{User};
ghost use Rattle.visibility.specs.View.{administers, is_called};
ghost use Rattle.harvest_sources.specs.declared.step.Step.{Step};
ghost use Rattle.portal_calls.specs.Action.{is_reading};
ghost use Rattle.portal_events.specs.Reply.{is_change, is_name_in_use, is_of_call};
ghost use Rattle.portal_calls.specs.declared.answer.Answer.TheVariants.{Accepted};
ghost use Rattle.portal_calls.specs.declared.call.Call.{Call};
ghost use Rattle.portal_events.specs.declared.event.Event.{Event};
ghost use Rattle.portal_events.specs.declared.event.Reply.{Reply};
ghost use Rattle.portal_hall.specs.History.{replay};
ghost use Rattle.portal_state.specs.Alone.{AllDropAlone};
ghost use Rattle.portal_state.specs.Answer.{answer_to};
ghost use Rattle.portal_state.specs.Change.{Change};
ghost use Rattle.portal_state.specs.Changed.{IsUnused, applied, changed, is_in_use};
ghost use Rattle.portal_state.specs.Entries.{Entry, state_after};
ghost use Rattle.portal_state.specs.Fit.{IsFit};
ghost use Rattle.portal_state.specs.Harvest.{harvest_entries};
ghost use Rattle.portal_core.specs.Hidden.{AreUnseen, IsHidden, is_caller};
ghost use Rattle.portal_core.specs.History.{AreAlike, AreOthersHidden, calls_of, exchanges_of, has_no_name_in_use};
ghost use Rattle.portal_state.specs.Known.{known_call};
ghost use Rattle.portal_state.specs.Opened.{is_opening, opened};
ghost use Rattle.portal_core.specs.Own.{IsOwnEntry};
ghost use Rattle.portal_state.specs.Planned.{PlannedChange, entries_of};
ghost use Rattle.portal_state.specs.State.{State, accepted_bytes_of_user};
ghost use Rattle.portal_state.specs.Step.{answer_in, call_step, step_of};
ghost use Rattle.portal_state.specs.Valid.{IsValid};
ghost use Rattle.portal_state.specs.View.{view_of};
ghost use Rattle.portal_state.specs.declared.opening.Opening.{Opening};

/// A replay of events and then of more is one replay.
pub fn a_replay_goes_on()
    ensures { (state : State) (events more : List Event) →
        replay step_of state (events ++ more) ≡ replay step_of (replay step_of state events) more }
{}

/// An event is accepted as a change exactly if the reply is that a change was made.
pub fn the_reply_says_whether_something_changed()
    ensures { (state : State) (event : Event) →
        (step_of state event).is_accepted ≡ is_change (step_of state event).reply }
{}

/// The reply to a call is a reply of calls, and no answer to a step of a harvest.
pub fn a_call_gets_a_reply_of_calls()
    ensures { (state : State) (call : Call) → IsTrue (is_of_call (call_step state call).reply) }
{}

/// A caller whom no user has is nobody: its call comes to what it would come to as a call of nobody.
pub fn a_caller_without_a_user_is_nobody()
    ensures { (state : State) (call : Call) (user : List ℕ) →
        call.caller ≡ Named user → is_user_in state.people user ≡ false →
        call_step state call ≡ call_step state (record call { caller = Anonymous }) }
{}

/// No call of nobody is accepted as a change.
pub fn nobody_changes_nothing()
    ensures { (state : State) (call : Call) → call.caller ≡ Anonymous → (call_step state call).is_accepted ≡ false }
{}

/// The caller's view of the caller's view is that view.
pub fn a_view_of_a_view_is_the_view()
    ensures { (caller : Caller) (state : State) →
        view_of caller (view_of caller state) ≡ view_of caller state }
{}

/// In two states of which its caller has the same view, a call gets the same reply, unless one of the replies is that a
/// name or an id is in use.
pub fn equal_views_get_equal_replies()
    ensures { (s t : State) (call : Call) →
        view_of call.caller s ≡ view_of call.caller t →
        is_name_in_use (call_step s call).reply ≡ false →
        is_name_in_use (call_step t call).reply ≡ false →
        (call_step s call).reply ≡ (call_step t call).reply }
{}

/// In two valid states of which its caller has the same view, a call that both accept leaves states of which the caller
/// has the same view.
pub fn equal_views_stay_equal()
    ensures { (s t : State) (call : Call) → IsValid s → IsValid t →
        view_of call.caller s ≡ view_of call.caller t →
        (call_step s call).is_accepted ≡ true → (call_step t call).is_accepted ≡ true →
        view_of call.caller (call_step s call).core ≡ view_of call.caller (call_step t call).core }
{}

/// The state that a portal is opened with is valid.
pub fn an_opened_state_is_valid()
    ensures { (opening : Opening) → IsTrue (is_opening opening) → IsValid (opened opening) }
{}

/// A step of a valid state leaves a valid state.
pub fn a_step_keeps_validity()
    ensures { (state : State) (event : Event) → IsValid state → IsValid (step_of state event).core }
{}

/// Any list of events keeps a valid state valid. So every state that a portal reaches is valid.
pub fn a_replay_keeps_validity()
    ensures { (state : State) (events : List Event) → IsValid state → IsValid (replay step_of state events) }
{}

/// An event that isn't accepted changes nothing.
pub fn a_refusal_changes_nothing()
    ensures { (state : State) (event : Event) →
        (step_of state event).is_accepted ≡ false → (step_of state event).core ≡ state }
{}

/// A call of an action that only reads is never accepted as a change, and leaves the state as it is.
pub fn a_reading_changes_nothing()
    ensures { (state : State) (call : Call) → is_reading call.request.action ≡ true →
        ((call_step state call).is_accepted ≡ false) × ((call_step state call).core ≡ state) }
{}

/// A call that is accepted as a change is charged to its caller by exactly its size. Nobody else is charged, and nobody
/// for a call that isn't accepted.
pub fn a_change_is_charged_to_its_caller()
    ensures own { (state : State) (call : Call) (user : List ℕ) →
        call.caller ≡ Named user → (call_step state call).is_accepted ≡ true →
        accepted_bytes_of_user user (call_step state call).core.quota_used
        ≡ accepted_bytes_of_user user state.quota_used + call.size }
    ensures others { (state : State) (call : Call) (user : List ℕ) → is_called call.caller user ≡ false →
        accepted_bytes_of_user user (call_step state call).core.quota_used
        ≡ accepted_bytes_of_user user state.quota_used }
{}

/// Of other users a caller sees the names, and their roles only in organizations that the caller administers.
pub fn of_other_users_the_name_is_seen()
    ensures names { (caller : Caller) (state : State) →
        map (λ (u : User). u.name) (view_of caller state).people.users
        ≡ map (λ (u : User). u.name) state.people.users }
    ensures flags { (caller : Caller) (state : State) (user : User) →
        Contains (view_of caller state).people.users user → is_called caller user.name ≡ false →
        user.sysadmin ≡ false }
    ensures roles { (caller : Caller) (state : State) (role : Membership) →
        Contains (view_of caller state).people.roles role → is_called caller role.user ≡ false →
        administers state.people caller role.org ≡ true }
{}

/// A name or an id in use is refused last: everything else accepts the call, and its change claims what is in use.
pub fn a_name_in_use_is_refused_last()
    ensures { (state : State) (call : Call) → is_name_in_use (call_step state call).reply ≡ true →
        (json : Json) × (change : Change) ×
        (answer_in state (known_call state.people call) ≡ Accepted json change) ×
        IsSome (find (is_in_use state) change.claims) }
{}

/// Where the answer on its caller's view accepts a call, and nothing that its change claims is in use, the portal makes
/// the change.
pub fn a_change_that_claims_nothing_in_use_is_made()
    ensures { (state : State) (call : Call) (json : Json) (change : Change) →
        answer_in state (known_call state.people call) ≡ Accepted json change → IsUnused state change →
        call_step state call ≡ record {
          core = applied (known_call state.people call) change state;
          reply = Reply.Accepted json;
          is_accepted = true;
        } }
{}

/// Each entry of a change that is accepted on a view is its caller's own: one that the caller has the right to make.
pub fn each_entry_is_the_callers_own()
    ensures { (call : Call) (view : State) (json : Json) (change : Change) →
        answer_to call view ≡ Accepted json change → All (IsOwnEntry call.caller view) change.entries }
{}

/// An event that is hidden from a caller leaves the caller's view.
pub fn a_hidden_event_leaves_the_view()
    ensures { (caller : Caller) (state : State) (event : Event) →
        IsValid state → IsHidden caller state event →
        view_of caller (step_of state event).core ≡ view_of caller state }
{}

/// A change is hidden from another caller who sees nothing at the keys of its entries, neither before nor after.
pub fn an_unseen_change_is_hidden()
    ensures { (caller : Caller) (state : State) (call : Call) (json : Json) (change : Change) →
        is_caller caller call.caller ≡ false →
        answer_in state (known_call state.people call) ≡ Accepted json change →
        AreUnseen caller state change.entries → IsHidden caller state (Event.Call call) }
{}

/// A step of a harvest is hidden from a caller who sees nothing at the keys of its entries, neither before nor after.
pub fn an_unseen_step_is_hidden()
    ensures { (caller : Caller) (state : State) (step : Step) →
        AreUnseen caller state (harvest_entries step state) → IsHidden caller state (Event.Harvest step) }
{}

/// Isolation. Let each accepted event that is no call of the caller be hidden from the caller when it comes. Then the
/// caller's calls get the replies that they get without the other events, and the caller's view after each is the same.
/// This holds up to the first call whose reply, with the other events or without them, is that a name or an id is in
/// use.
pub fn hidden_events_change_no_reply()
    ensures { (caller : Caller) (state : State) (events : List Event) →
        IsValid state → AreOthersHidden caller state events →
        AreAlike (exchanges_of caller state events) (exchanges_of caller state (calls_of caller events)) }
{}

/// Where no call of the caller gets such a reply, the caller's view in the end is the one without the other events.
pub fn hidden_events_leave_the_last_view()
    ensures { (caller : Caller) (state : State) (events : List Event) →
        IsValid state → AreOthersHidden caller state events →
        has_no_name_in_use (exchanges_of caller state events) ≡ true →
        has_no_name_in_use (exchanges_of caller state (calls_of caller events)) ≡ true →
        view_of caller (replay step_of state events)
        ≡ view_of caller (replay step_of state (calls_of caller events)) }
{}

// ---- planned changes and their entries

/// The entries of a planned change, which are those in its caller's view, make the change in the state.
pub fn entries_make_the_change()
    ensures { (call : Call) (state : State) (planned : PlannedChange) →
        IsValid state → IsFit call (view_of call.caller state) planned →
        state_after (entries_of planned (view_of call.caller state)) state ≡ changed planned state }
{}

/// They make the same change in the caller's view.
pub fn entries_make_the_change_in_the_view()
    ensures { (call : Call) (state : State) (planned : PlannedChange) →
        IsValid state → IsFit call (view_of call.caller state) planned →
        state_after (entries_of planned (view_of call.caller state)) (view_of call.caller state)
        ≡ changed planned (view_of call.caller state) }
{}

/// A valid state gives a planned change no other entries than its caller's view: the caller sees all that goes with what
/// the change drops.
pub fn entries_are_those_in_the_view()
    ensures { (call : Call) (state : State) (planned : PlannedChange) →
        IsValid state → IsFit call (view_of call.caller state) planned →
        entries_of planned (view_of call.caller state) ≡ entries_of planned state }
{}

/// Nothing goes without an entry of its own: when an entry drops an organization, a dataset, a table or a source, its
/// roles, its tables, its rows or its jobs and datasets have been dropped by the entries before.
pub fn nothing_goes_without_an_entry()
    ensures { (call : Call) (state : State) (planned : PlannedChange) →
        IsValid state → IsFit call (view_of call.caller state) planned →
        AllDropAlone (entries_of planned (view_of call.caller state)) state }
{}

/// Entries in two lists, made one after the other, are the entries of the one list that has both.
pub fn entries_follow_one_another()
    ensures { (entries more : List Entry) (state : State) →
        state_after (entries ++ more) state ≡ state_after more (state_after entries state) }
{}
