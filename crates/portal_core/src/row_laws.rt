//! Laws of the rows of states and of their changes. Each function has an empty body, and its contract is the law.
ghost use Rattle.std.specs.Prelude.{◌≡◌, ◌↔◌, [], List, Some, map};
ghost use Rattle.std.specs.List.{Contains};
ghost use Rattle.datastore_answers.specs.Order.{table_cmp};
ghost use Rattle.harvest_rows.specs.declared.kept_harvests.KeptHarvests.{KeptHarvests};
ghost use Rattle.harvest_sources.specs.Sources.{AreSources};
ghost use Rattle.harvest_sources.specs.declared.step.Step.{Step};
ghost use Rattle.harvest_stages.specs.AtRest.{at_rest};
ghost use Rattle.portal_base.specs.Ordered.{IsAscending};
ghost use Rattle.portal_base.specs.declared.json_value.Json.{Json};
ghost use Rattle.portal_calls.specs.declared.answer.Answer.TheVariants.{Accepted};
ghost use Rattle.portal_calls.specs.declared.call.Call.{Call};
ghost use Rattle.portal_state.specs.Alone.{AllDropAlone};
ghost use Rattle.portal_state.specs.Change.{Change};
ghost use Rattle.portal_state.specs.Changed.{AreUnused, IsUnused, applied, changed};
ghost use Rattle.portal_state.specs.Entries.{Entry, state_after};
ghost use Rattle.portal_state.specs.Fit.{IsFit};
ghost use Rattle.portal_state.specs.Harvest.{state_after_step};
ghost use Rattle.portal_state.specs.Planned.{PlannedChange, claims_of};
ghost use Rattle.portal_state.specs.State.{State};
ghost use Rattle.portal_state.specs.Step.{answer_in};
ghost use Rattle.portal_state.specs.Valid.{IsValid};
ghost use Rattle.portal_keeper.specs.Changed.{rows_after};
ghost use Rattle.portal_keeper.specs.Rows.{AreInOrder, body_at};
ghost use Rattle.portal_keeper.specs.declared.row.KeptRow.{KeptRow};
ghost use Rattle.portal_state.specs.KeptRows.{IsSized, kept_rows, listed_rows};
ghost use Rattle.portal_state.specs.PortalValue.{IsReopened, reopened};
ghost use Rattle.portal_state.specs.RowChanges.{effective_changes, planned_row_changes, row_changes, step_row_changes};
ghost use Rattle.portal_state.specs.Typed.{IsTyped};
ghost use Rattle.portal_state.specs.Values.{AreRowsOf, IsStateOf, harvests_of, values_of};
ghost use Rattle.portal_state.specs.declared.opening.Opening.{Opening};
ghost use Rattle.portal_rows.specs.declared.kept_values.KeptValues.{KeptValues};

/// The rows of a valid state are in the order of a store, so that no two have the same kind and key.
pub fn rows_of_a_valid_state_are_in_order()
    ensures { (state : State) → IsValid state → IsSized state → AreInOrder (kept_rows state) }
{}

/// In the rows of a valid state a row is found at its kind and key exactly if it is one of the rows that the state's lists
/// have.
pub fn each_row_of_a_valid_state_is_found()
    ensures { (state : State) (row : KeptRow) → IsValid state → IsSized state →
        (body_at (kept_rows state) row.kind row.key ≡ Some row.body) ↔ Contains (listed_rows state) row }
{}

/// The changes of rows that follow from entries lead from the rows of the state before them to the rows of the state
/// after them. The states between need not be valid.
pub fn row_changes_follow_the_entries()
    ensures { (entries : List Entry) (state : State) → IsAscending table_cmp state.tables → AreSources state.sources →
        AllDropAlone entries state → AreInOrder (kept_rows state) → AreInOrder (kept_rows (state_after entries state)) →
        rows_after (row_changes entries (state_after entries state)) (kept_rows state)
        ≡ kept_rows (state_after entries state) }
{}

/// The changes of rows that change nothing in the rows before the entries can be left out.
pub fn effective_changes_follow_the_entries()
    ensures { (entries : List Entry) (state : State) → IsAscending table_cmp state.tables → AreSources state.sources →
        AllDropAlone entries state → AreInOrder (kept_rows state) → AreInOrder (kept_rows (state_after entries state)) →
        rows_after
        (effective_changes (kept_rows state) (row_changes entries (state_after entries state))) (kept_rows state)
        ≡ kept_rows (state_after entries state) }
{}

/// If the rows are the same before and after the entries, no change of rows changes something.
pub fn no_change_is_effective_where_no_row_changes()
    ensures { (entries : List Entry) (before after : State) → kept_rows before ≡ kept_rows after →
        effective_changes (kept_rows before) (row_changes entries after) ≡ [] }
{}

/// If the portal accepts a change in a valid state, the changes of rows that follow from its entries lead from the rows
/// of the state to those of the state after them.
pub fn row_changes_follow_an_accepted_change()
    ensures { (call : Call) (state : State) (json : Json) (change : Change) → IsValid state →
        answer_in state call ≡ Accepted json change → IsUnused state change →
        IsSized state → IsSized (state_after change.entries state) →
        rows_after (row_changes change.entries (state_after change.entries state)) (kept_rows state)
        ≡ kept_rows (state_after change.entries state) }
{}

/// If the portal accepts a change in a valid state, those of the changes of rows that change something lead from the rows
/// of the state to those of the state after its entries.
pub fn effective_changes_follow_an_accepted_change()
    ensures { (call : Call) (state : State) (json : Json) (change : Change) → IsValid state →
        answer_in state call ≡ Accepted json change → IsUnused state change →
        IsSized state → IsSized (state_after change.entries state) →
        rows_after
        (effective_changes (kept_rows state) (row_changes change.entries (state_after change.entries state)))
        (kept_rows state)
        ≡ kept_rows (state_after change.entries state) }
{}

/// What is charged for a change is in no row.
pub fn quotas_are_in_no_row()
    ensures { (call : Call) (change : Change) (state : State) →
        kept_rows (applied call change state) ≡ kept_rows (state_after change.entries state) }
{}

/// A valid state whose fields have values of their types has the rows of its values. So they can be read back as values.
pub fn a_state_has_values()
    ensures { (state : State) → IsValid state → IsTyped state →
        AreRowsOf (values_of state) (harvests_of state) (kept_rows state) }
{}

/// Two states with the same rows have the same organizations, roles, datasets and tables, and, as far as no job runs, the
/// same sources and jobs. Users and quotas are in no row.
pub fn rows_are_of_one_state()
    ensures organizations { (rows : List KeptRow) (one other : State) → IsStateOf rows one → IsStateOf rows other →
        one.people.orgs ≡ other.people.orgs }
    ensures roles { (rows : List KeptRow) (one other : State) → IsStateOf rows one → IsStateOf rows other →
        one.people.roles ≡ other.people.roles }
    ensures datasets { (rows : List KeptRow) (one other : State) → IsStateOf rows one → IsStateOf rows other →
        one.datasets ≡ other.datasets }
    ensures tables { (rows : List KeptRow) (one other : State) → IsStateOf rows one → IsStateOf rows other →
        one.tables ≡ other.tables }
    ensures sources { (rows : List KeptRow) (one other : State) → IsStateOf rows one → IsStateOf rows other →
        map at_rest one.sources ≡ map at_rest other.sources }
{}

/// Rows are those of a state exactly if they are those of some values, and some valid state has these values. Once the
/// values are read, the states of the rows are the valid ones with these values. The values are those of organizations,
/// datasets and tables, and those of sources and jobs.
pub fn rows_of_a_valid_state_are_known_by_their_values()
    ensures exist { (rows : List KeptRow) →
        ((state : State) × IsStateOf rows state) ↔ ((values : KeptValues) × (harvests : KeptHarvests) × (state : State) ×
        AreRowsOf values harvests rows × (values_of state ≡ values) × (harvests_of state ≡ harvests) ×
        IsValid state × IsTyped state) }
    ensures known { (rows : List KeptRow) (values : KeptValues) (harvests : KeptHarvests) (state : State) →
        AreRowsOf values harvests rows →
        IsStateOf rows state
        ↔ ((values_of state ≡ values) × (harvests_of state ≡ harvests) × IsValid state × IsTyped state) }
{}

/// A portal that is opened over the rows of a state has this state again, with the users of the opening, with each running
/// job new again, and with nothing accepted.
pub fn a_kept_state_is_opened_again()
    ensures { (opening : Opening) (state again : State) → IsValid state → IsTyped state →
        IsReopened opening (kept_rows state) again → again ≡ reopened opening state }
{}

/// The changes of rows for a planned change that is fit and claims nothing that is in use lead from the rows of a valid
/// state to those of the state after it. If the rows are the same, there is none.
pub fn row_changes_follow_a_planned_change()
    ensures follow { (planned : PlannedChange) (call : Call) (state : State) → IsValid state →
        IsFit call state planned → AreUnused state (claims_of planned) →
        IsSized state → IsSized (changed planned state) →
        rows_after (planned_row_changes planned state) (kept_rows state) ≡ kept_rows (changed planned state) }
    ensures none { (planned : PlannedChange) (state : State) →
        kept_rows (changed planned state) ≡ kept_rows state → planned_row_changes planned state ≡ [] }
{}

/// The changes of rows for a step of a harvest lead from the rows of a valid state to those of the state after it. If the rows
/// are the same, there is none.
pub fn row_changes_follow_a_step_of_a_harvest()
    ensures follow { (step : Step) (state : State) → IsValid state → IsSized state →
        IsSized (state_after_step step state) →
        rows_after (step_row_changes step state) (kept_rows state) ≡ kept_rows (state_after_step step state) }
    ensures none { (step : Step) (state : State) →
        kept_rows (state_after_step step state) ≡ kept_rows state → step_row_changes step state ≡ [] }
{}
