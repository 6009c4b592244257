//! What reads a portal and changes nothing: a search of datasets, and what a caller sees.
ghost use Rattle.std.specs.Prelude.{◌≡◌, IfOk, Result};
ghost use Rattle.datastore_answers.specs.Tables.{tables_of};
ghost use Rattle.packages.specs.Shelf.{datasets_of};
ghost use Rattle.portal_base.specs.declared.json_value.Json.{Json};
ghost use Rattle.portal_calls.specs.Stop.{Finds};
ghost use Rattle.portal_calls.specs.declared.action.Action.TheVariants.{PackageSearch};
ghost use Rattle.portal_calls.specs.declared.answer.Denial.{Denial};
ghost use Rattle.portal_calls.specs.declared.call.Call as calls;
ghost use Rattle.portal_state.specs.Search.{reply_if_found, search_reply};
ghost use Rattle.portal_state.specs.Step.{call_step};
ghost use Rattle.portal_state.specs.View.{view_of};

use super::Portal;
use crate::search::search;
use datastore_answers::tables::Tables;
use packages::shelf::Shelf;
use portal_base::caller::Caller;
use portal_base::json_value::Json;
use portal_base::steps::Steps;
use portal_calls::stop::Stop;
use portal_events::{Reply, refusal_of};
use portal_keeper::keeper::Keeper;
use std::alloc::AllocError;
use std::sync::ledger::Ledger;
use visibility::viewer::Viewer;

impl<K: Keeper> Portal<K> {
    /// Searches the datasets that the caller sees, as a `package_search` with this body does. A caller whom no user has is
    /// nobody.
    pub fn search<L: Ledger>(
        &self,
        caller: &Caller,
        body: &Json,
        steps: &mut Steps<L>,
    ) -> Result<Reply, AllocError>
        ensures { (call : calls.Call) → call.caller ≡ caller.now →
            call.request ≡ record { action = PackageSearch; body = body.now } →
            IfOk result (λ reply. reply ≡ (call_step self.now.state call).reply) }
    {
        if self.is_known(caller) {
            self.search_for(caller, body, steps)
        } else {
            self.search_for(&Caller::Anonymous, body, steps)
        }
    }

    /// The same for a caller as the portal knows it.
    fn search_for<L: Ledger>(
        &self,
        caller: &Caller,
        body: &Json,
        steps: &mut Steps<L>,
    ) -> Result<Reply, AllocError>
        ensures { IfOk result (λ reply. reply ≡ search_reply body.now (view_of caller.now self.now.state)) }
    {
        let viewer = self.viewer(caller);
        let parts = &self.parts;
        let (shelf, indexes) = (&parts.shelf, &parts.indexes);
        let outcome = search(
            self.alloc,
            &viewer,
            shelf,
            indexes,
            &parts.tables,
            body,
            steps,
        );
        reply_of(outcome)
    }

    /// The caller as a viewer of the people and of the datasets.
    pub fn viewer<'a>(&'a self, caller: &'a Caller) -> Viewer<'a>
        ensures { result ≡ record {
          caller = caller.now;
          people = self.now.state.people;
          datasets = self.now.state.datasets;
        } }
    {
        Viewer::new(&self.parts.people, &self.parts.shelf, caller)
    }

    /// The shelf of the datasets, also of those that a caller doesn't see.
    pub fn shelf(&self) -> &Shelf
        ensures { datasets_of result.now ≡ self.now.state.datasets }
    {
        &self.parts.shelf
    }

    /// The tables, also those of datasets that a caller doesn't see.
    pub fn tables(&self) -> &Tables
        ensures { tables_of result.now ≡ self.now.state.tables }
    {
        &self.parts.tables
    }
}

/// The reply that shows what was found, or is the refusal, unless memory ran out.
fn reply_of(outcome: Result<Json, Stop>) -> Result<Reply, AllocError>
    ensures { (expected : Result Json Denial) → Finds outcome (λ json. json) expected →
        IfOk result (λ reply. reply ≡ reply_if_found expected) }
{
    match outcome {
        Ok(json) => Ok(Reply::Shown(json)),
        Err(Stop::Refused(denial)) => Ok(Reply::Refused(refusal_of(denial))),
        Err(Stop::OutOfMemory) => Err(AllocError),
    }
}
