//! The changes of the store's rows for an accepted change and for a step of a harvest: only those that change something.
ghost use Rattle.std.specs.Prelude.{◌≡◌, ◌++◌, ◌∷◌, [], IfOk, OnOk, if◌then◌else◌};
ghost use Rattle.portal_state.specs.Changed.{AreUnused, changed};
ghost use Rattle.portal_state.specs.ChangedRows.{IsTypedPlan, changes_between, changes_of_plan};
ghost use Rattle.portal_state.specs.Fit.{IsFit};
ghost use Rattle.portal_state.specs.KeptRows.{IsSized};
ghost use Rattle.packages.specs.Shelf.{datasets_of};
ghost use Rattle.portal_state.specs.Parts.{GoesByName, IsConsistent, IsPlanned, IsUnrefused, state_of};
ghost use Rattle.portal_state.specs.Planned.{claims_of, planned_of};
ghost use Rattle.portal_state.specs.RowChanges.{is_body, planned_row_changes};

mod datasets;
mod harvests;
mod people;
mod sources;
mod tables;

use crate::change::Plan;
use crate::parts::Parts;
use portal_base::seq::Seq;
use portal_base::text::Text;
use portal_calls::call::Call;
use portal_keeper::change::Change;
use portal_keeper::row::{KeptRow, RowKind};
use std::alloc::{AllocError, Global};

impl Parts {
    /// The changes of the store's rows for an accepted change, before it is made: those that change something, in the
    /// order of the change's entries. It reads what the change is about, and no other row.
    pub fn row_changes(
        &self,
        alloc: Global,
        call: &Call,
        plan: &Plan,
    ) -> Result<Seq<Change>, AllocError>
        requires consistent { IsConsistent self.now }
        requires sized { IsSized (state_of self.now) }
        requires fit { IsFit call.now (state_of self.now) (planned_of plan.now) }
        requires planned { IsPlanned plan.now self.now }
        requires unused { AreUnused (state_of self.now) (claims_of (planned_of plan.now)) }
        ensures changes { IfOk result (λ changes.
            changes ≡ planned_row_changes (planned_of plan.now) (state_of self.now)) }
        ensures sized { OnOk result (IsSized (changed (planned_of plan.now) (state_of self.now))) }
    {
        let mut changes = Vec::new(alloc);
        self.push_row_changes(alloc, &mut changes, plan)?;
        Ok(Seq::from(changes))
    }

    /// Adds the changes of rows for a plan that no part refuses.
    fn push_row_changes(
        &self,
        alloc: Global,
        changes: &mut Vec<Change>,
        plan: &Plan,
    ) -> Result<(), AllocError>
        requires consistent { IsConsistent self.now }
        requires unrefused { IsUnrefused (planned_of plan.now) self.now }
        requires planned { IsPlanned plan.now self.now }
        requires named { GoesByName (planned_of plan.now) (datasets_of self.now.shelf) }
        ensures changes { OnOk result (changes.new.items ≡ changes.old.items ++ changes_of_plan plan.now self.now) }
        ensures typed { OnOk result (IsTypedPlan plan.now self.now) }
    {
        match plan {
            Plan::People(change) => people::push_changes(alloc, changes, &self.people, change),
            Plan::Datasets(change) => {
                datasets::push_changes(alloc, changes, &self.shelf, &self.tables, change)
            }
            Plan::Tables(plan) => tables::push_changes(alloc, changes, &self.tables, plan),
            Plan::Sources(change) => {
                sources::push_changes(alloc, changes, &self.shelf, &self.sources, change)
            }
        }
    }
}

/// Adds what leads at a kind and a key from the body before to the one after.
fn push_between(
    changes: &mut Vec<Change>,
    kind: RowKind,
    key: Text,
    before: Option<Text>,
    after: Option<Text>,
) -> Result<(), AllocError>
    ensures { OnOk result (changes.new.items ≡ changes.old.items ++ changes_between kind key before after) }
{
    match after {
        Some(body) => push_body(changes, KeptRow { kind, key, body }, before),
        None => push_removal_if(changes, kind, key, before.is_some()),
    }
}

/// Adds the change that puts the row, unless the body before is the same.
fn push_body(
    changes: &mut Vec<Change>,
    row: KeptRow,
    before: Option<Text>,
) -> Result<(), AllocError>
    ensures { OnOk result (changes.new.items
        ≡ changes.old.items ++ changes_between row.kind row.key before (Some row.body)) }
{
    if !is_body(&row.body, &before) {
        changes.push(Change::Put(row))?;
    }
    Ok(())
}

/// Adds the removal of a row, if there is one.
fn push_removal_if(
    changes: &mut Vec<Change>,
    kind: RowKind,
    key: Text,
    is_there: bool,
) -> Result<(), AllocError>
    ensures { OnOk result (changes.new.items
        ≡ changes.old.items ++ (if is_there then Change.Remove kind key ∷ [] else [])) }
{
    if is_there {
        changes.push(Change::Remove(kind, key))?;
    }
    Ok(())
}

/// Whether the body is this one.
fn is_body(body: &Text, other: &Option<Text>) -> bool
    ensures { result ≡ is_body body.now other.now }
{
    match other {
        Some(other) => other.as_str() == body.as_str(),
        None => false,
    }
}
