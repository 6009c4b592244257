//! The portal's parts as one value, and changes of it. A change first prepares all growth. Then a commit makes the
//! change: it takes no memory and can't fail.
ghost use Rattle.std.specs.Prelude.{◌≡◌, ◌≤◌, IfNone, IfOk, OnErr, OnOk, IsErrOf, IsTrue, is_none, find};
ghost use Rattle.std.specs.Option.{option_map, option_copied};
ghost use Rattle.org_roles.specs.Changed.{org_fault, IsReady};
ghost use Rattle.datastore_answers.specs.Linked.{AreLinked};
ghost use Rattle.harvest_stages.specs.Ready as stages;
ghost use Rattle.harvest_stages.specs.Stages.{sources_in};
ghost use Rattle.dataset_answers.specs.Sound.{IsSound};
ghost use Rattle.packages.specs.Shelf.{datasets_of};
ghost use Rattle.portal_state.specs.Planned.{planned_of, Datasets, Sources, claims_of};
ghost use Rattle.portal_state.specs.Changed.{AreUnused, changed, charge_of, is_in_use, key_of, with_charge, with_planned};
ghost use Rattle.portal_state.specs.Fit.{IsFit};
ghost use Rattle.portal_state.specs.Indexes.{IsIndexed};
ghost use Rattle.portal_state.specs.Parts.{state_of, planned_in, with_prepared, IsConsistent, MakesSound, IsTakenBy};
ghost use Rattle.portal_state.specs.Parts.{IsUnrefused, IsPlanned, IsPrepared, IsChangeReady, IsChargeReady, IsTakenBySources};
ghost use Rattle.portal_state.specs.Parts.{AreGoneByName, GoesByName, ids_gone};
ghost use Rattle.portal_base.specs.Outside.{Rose};
ghost use Rattle.portal_state.specs.PortalValue.{AreKept};
ghost use Rattle.portal_state.specs.State.{accepted_bytes_of};
ghost use Rattle.portal_state.specs.View.{view_of};

use crate::act_fault::ActFault;
use crate::change::Plan;
use crate::harvest::ids_gone;
use crate::indexes::{Indexes, PreparedDataset};
use crate::quota::{QuotaLedger, QuotaUsed};
use dataset_answers::change::DatasetChange;
use datastore_answers::plan::TablePlan;
use datastore_answers::tables::Tables;
use harvest_sources::{SourceChange, StageFault};
use harvest_stages::{PreparedSource, Stages};
use org_roles::change::{OrgChange, OrgFault};
use org_roles::people::People;
use org_roles::people::prepared::PreparedOrg;
use packages::package::Package;
use packages::shelf::Shelf;
use portal_base::caller::Caller;
use portal_base::copy::TryClone;
use portal_base::seq::Seq;
use portal_base::text::Text;
use portal_calls::call::Call;
use portal_keeper::keeper::Keeper;
use std::alloc::{AllocError, Global};

/// The parts of a portal.
#[derive(Drop)]
pub struct Parts {
    pub people: People,
    pub shelf: Shelf,
    pub indexes: Indexes,
    pub tables: Tables,
    pub sources: Stages,
    pub quota_used: QuotaLedger,
}

/// A change for which memory is prepared. `Parts` alone makes one.
#[derive(Drop)]
enum PreparedChange {
    People(PreparedOrg),
    /// A new dataset.
    Put(PreparedDataset),
    /// The dataset that replaces the one at its number.
    Replace(PreparedDataset),
    /// Removal of the dataset at the number, which has this id.
    Remove(u32, Text),
    /// A change of a table.
    Tables(TablePlan),
    /// A change of a source, or a new job for it, and the ids of the datasets that go with it.
    Sources(PreparedSource, Seq<Text>),
}

/// A change for which memory is prepared, with the caller's quota after it. `Parts` alone makes one.
#[derive(Drop)]
struct Prepared {
    change: PreparedChange,
    charge: Option<QuotaUsed>,
}

impl Parts {
    /// The bytes that were accepted from the caller.
    pub fn accepted_bytes_of(&self, caller: &Caller) -> u64
        ensures { result ≡ accepted_bytes_of caller.now self.now.quota_used.used }
    {
        match caller {
            Caller::Anonymous => 0,
            Caller::Named(user) => self.quota_used.bytes_of(user),
        }
    }

    /// The key of the first name or id that the change claims and that is in use.
    pub fn key_in_use(&self, plan: &Plan) -> Option<&'static str>
        requires consistent { IsConsistent self.now }
        requires sound { MakesSound (planned_of plan.now) self.now }
        ensures key { option_copied result
            ≡ option_map key_of (find (is_in_use (state_of self.now)) (claims_of (planned_of plan.now))) }
        ensures unused { IfNone result (AreUnused (state_of self.now) (claims_of (planned_of plan.now))) }
    {
        match plan {
            Plan::People(OrgChange::Create(org)) => self
                .people
                .org(&org.name)
                .is_some()
                .then_some("name"),
            Plan::Datasets(DatasetChange::Create(dataset)) => self.dataset_key_in_use(dataset),
            Plan::Sources(SourceChange::Create(source)) => self
                .sources
                .source(&source.name)
                .is_some()
                .then_some("name"),
            _ => None,
        }
    }

    /// The key in use of a new dataset. Its name comes before its id.
    #[tactic(auto, using(crate::proofs::Shelving::name_used, crate::proofs::Shelving::id_used))]
    fn dataset_key_in_use(&self, dataset: &Package) -> Option<&'static str>
        requires consistent { IsConsistent self.now }
        requires sound { IsSound self.now.people.people dataset.now }
        ensures key { option_copied result ≡ option_map key_of
            (find (is_in_use (state_of self.now)) (claims_of (Datasets (DatasetChange.Create dataset.now)))) }
        ensures unused { IfNone result
            (AreUnused (state_of self.now) (claims_of (Datasets (DatasetChange.Create dataset.now)))) }
    {
        if self.shelf.is_in_use(dataset.name.as_str()) {
            Some("name")
        } else if self.shelf.is_in_use(dataset.id.as_str()) {
            Some("id")
        } else {
            None
        }
    }

    /// Makes a change that is fit and claims nothing that is in use: the keeper changes the rows of the store, and then the
    /// parts change. The call is charged to its caller's quota. Where memory runs out or the keeper fails, nothing changes.
    #[tactic(auto, using(crate::proofs::StoreLemmas::fit_there))]
    pub fn apply<K: Keeper>(
        &mut self,
        alloc: Global,
        keeper: &mut K,
        call: &Call,
        plan: Plan,
    ) -> Result<(), ActFault>
        requires kept { AreKept (K.rows keeper.old) self.old }
        requires fit { IsFit call.now (view_of call.now.caller (state_of self.old)) (planned_of plan) }
        requires planned { IsPlanned plan self.old }
        requires unused { AreUnused (state_of self.old) (claims_of (planned_of plan)) }
        ensures parts { AreKept (K.rows keeper.new) self.new }
        ensures applied { OnOk result (state_of self.new ≡ with_planned call.now (planned_of plan) (state_of self.old)) }
        ensures kept { OnErr result (state_of self.new ≡ state_of self.old) }
        ensures fault { IsErrOf result ActFault.Keeper → Rose (K.faults keeper.old) (K.faults keeper.new) }
        ensures counts { K.faults keeper.old ≤ K.faults keeper.new }
    {
        let changes = self.row_changes(alloc, call, &plan)?;
        let prepared = self.prepare(alloc, call, plan)?;
        keeper.apply(alloc, &changes)?;
        self.commit(prepared);
        Ok(())
    }

    /// Prepares a change that is fit and claims nothing that is in use, and its charge. The state stays the same.
    #[tactic(auto, using(crate::proofs::Shelving::unrefused, crate::proofs::Settling::linked_after, crate::proofs::Gone::goes_by_name))]
    fn prepare(&mut self, alloc: Global, call: &Call, plan: Plan) -> Result<Prepared, AllocError>
        requires consistent { IsConsistent self.old }
        requires fit { IsFit call.now (state_of self.old) (planned_of plan) }
        requires planned { IsPlanned plan self.old }
        requires unused { AreUnused (state_of self.old) (claims_of (planned_of plan)) }
        ensures same { state_of self.new ≡ state_of self.old }
        ensures shelved { IsIndexed self.new.shelf self.new.indexes }
        ensures ready { IfOk result (λ prepared. IsPrepared prepared self.new) }
        ensures change { IfOk result (λ prepared. planned_in prepared.change ≡ planned_of plan) }
        ensures charge { IfOk result (λ prepared.
            prepared.charge ≡ charge_of call.now.caller call.now.size self.old.quota_used.used) }
    {
        let charge = self.prepare_charge(alloc, call)?;
        let change = self.prepare_change(alloc, plan)?;
        Ok(Prepared { change, charge })
    }

    /// Prepares a change that no part refuses.
    fn prepare_change(&mut self, alloc: Global, plan: Plan) -> Result<PreparedChange, AllocError>
        requires shelved { IsIndexed self.old.shelf self.old.indexes }
        requires unrefused { IsUnrefused (planned_of plan) self.old }
        requires planned { IsPlanned plan self.old }
        requires named { GoesByName (planned_of plan) (datasets_of self.old.shelf) }
        ensures same { state_of self.new ≡ state_of self.old }
        ensures shelved { IsIndexed self.new.shelf self.new.indexes }
        ensures quota_used { self.new.quota_used ≡ self.old.quota_used }
        ensures change { IfOk result (λ prepared. planned_in prepared ≡ planned_of plan) }
        ensures ready { IfOk result (λ prepared. IsChangeReady prepared self.new) }
    {
        match plan {
            Plan::People(change) => Ok(PreparedChange::People(prepare_people(
                &mut self.people,
                change,
            )?)),
            Plan::Datasets(change) => self.prepare_dataset(change),
            Plan::Tables(plan) => {
                self.tables.reserve()?;
                Ok(PreparedChange::Tables(plan))
            }
            Plan::Sources(change) => self.prepare_sources(alloc, change),
        }
    }

    /// Prepares a change of the sources that they don't refuse, with the ids of the datasets that go with it.
    fn prepare_sources(
        &mut self,
        alloc: Global,
        change: SourceChange,
    ) -> Result<PreparedChange, AllocError>
        requires shelved { IsIndexed self.old.shelf self.old.indexes }
        requires taken { IsTakenBySources change (sources_in self.old.sources) }
        requires named { AreGoneByName change (datasets_of self.old.shelf) }
        ensures same { state_of self.new ≡ state_of self.old }
        ensures shelved { IsIndexed self.new.shelf self.new.indexes }
        ensures quota_used { self.new.quota_used ≡ self.old.quota_used }
        ensures change { IfOk result (λ prepared. planned_in prepared ≡ Sources change) }
        ensures ready { IfOk result (λ prepared. IsChangeReady prepared self.new) }
    {
        let gone = ids_gone(alloc, &self.shelf, &change)?;
        let prepared = prepare_source(alloc, &mut self.sources, change)?;
        Ok(PreparedChange::Sources(prepared, gone))
    }

    /// Prepares a change of a dataset. A dataset that is replaced or removed is found by its id.
    #[tactic(auto, using(crate::proofs::IndexLemmas::same_indexed))]
    fn prepare_dataset(&mut self, change: DatasetChange) -> Result<PreparedChange, AllocError>
        requires shelved { IsIndexed self.old.shelf self.old.indexes }
        requires taken { IsTakenBy change self.old.shelf }
        ensures same { state_of self.new ≡ state_of self.old }
        ensures shelved { IsIndexed self.new.shelf self.new.indexes }
        ensures quota_used { self.new.quota_used ≡ self.old.quota_used }
        ensures change { IfOk result (λ prepared. planned_in prepared ≡ Datasets change) }
        ensures ready { IfOk result (λ prepared. IsChangeReady prepared self.new) }
    {
        match change {
            DatasetChange::Create(dataset) => {
                let number = self.shelf.prepare()?;
                let prepared = self.indexes.prepare(number, dataset)?;
                Ok(PreparedChange::Put(prepared))
            }
            DatasetChange::Replace(dataset) => match self.shelf.number_of(dataset.id.as_str()) {
                Some(number) => {
                    let prepared = self.indexes.prepare(number, dataset)?;
                    Ok(PreparedChange::Replace(prepared))
                }
                None => unreachable!(),
            },
            DatasetChange::Remove(id) => match self.shelf.number_of(id.as_str()) {
                Some(number) => Ok(PreparedChange::Remove(number, id)),
                None => unreachable!(),
            },
        }
    }

    /// The charge to the caller's quota, for which memory is prepared. Anonymous callers have none.
    fn prepare_charge(
        &mut self,
        alloc: Global,
        call: &Call,
    ) -> Result<Option<QuotaUsed>, AllocError>
        ensures same { state_of self.new ≡ state_of self.old }
        ensures people { self.new.people ≡ self.old.people }
        ensures shelf { self.new.shelf ≡ self.old.shelf }
        ensures indexes { self.new.indexes ≡ self.old.indexes }
        ensures tables { self.new.tables ≡ self.old.tables }
        ensures sources { self.new.sources ≡ self.old.sources }
        ensures charge { IfOk result (λ charge.
            charge ≡ charge_of call.now.caller call.now.size self.old.quota_used.used) }
        ensures ready { IfOk result (λ charge. IsChargeReady charge self.new) }
    {
        match &call.caller {
            Caller::Anonymous => Ok(None),
            Caller::Named(user) => {
                let bytes = self
                    .quota_used
                    .bytes_of(user)
                    .checked_add(call.size)
                    .ok_or(AllocError)?;
                let user = user.try_clone(alloc)?;
                self.quota_used.reserve()?;
                Ok(Some(QuotaUsed { user, bytes }))
            }
        }
    }

    /// Makes a prepared change, and charges it. It takes no memory and can't fail.
    fn commit(&mut self, prepared: Prepared)
        requires ready { IsPrepared prepared self.old }
        requires shelved { IsIndexed self.old.shelf self.old.indexes }
        ensures state { state_of self.new ≡ with_prepared prepared (state_of self.old) }
        ensures shelved { IsIndexed self.new.shelf self.new.indexes }
    {
        let Prepared { change, charge } = prepared;
        self.commit_change(change);
        self.commit_charge(charge);
    }

    /// Makes a prepared change.
    fn commit_change(&mut self, change: PreparedChange)
        requires ready { IsChangeReady change self.old }
        requires linked { AreLinked (changed (planned_in change) (state_of self.old)).tables }
        requires shelved { IsIndexed self.old.shelf self.old.indexes }
        ensures state { state_of self.new ≡ changed (planned_in change) (state_of self.old) }
        ensures shelved { IsIndexed self.new.shelf self.new.indexes }
        ensures quota_used { self.new.quota_used ≡ self.old.quota_used }
    {
        match change {
            PreparedChange::People(change) => self.people.commit(change),
            PreparedChange::Put(prepared) => self.indexes.put(&mut self.shelf, prepared),
            PreparedChange::Replace(prepared) => {
                let dataset = &prepared.dataset;
                self.tables.keep(&dataset.id, dataset.resources.as_slice());
                self.indexes.replace(&mut self.shelf, prepared);
            }
            PreparedChange::Remove(number, id) => {
                self.tables.keep(&id, &[]);
                self.indexes.remove(&mut self.shelf, number);
            }
            PreparedChange::Tables(plan) => self.tables.commit(plan),
            PreparedChange::Sources(change, gone) => self.commit_sources(change, &gone),
        }
    }

    /// Makes a prepared change of the sources. The datasets with these ids go with it.
    fn commit_sources(&mut self, change: PreparedSource, gone: &Seq<Text>)
        requires ready { stages.IsReady change self.old.sources }
        requires gone { gone.now ≡ ids_gone change.change (datasets_of self.old.shelf) }
        requires shelved { IsIndexed self.old.shelf self.old.indexes }
        ensures state { state_of self.new ≡ changed (Sources change.change) (state_of self.old) }
        ensures shelved { IsIndexed self.new.shelf self.new.indexes }
        ensures quota_used { self.new.quota_used ≡ self.old.quota_used }
    {
        self.indexes.remove_all(&mut self.shelf, gone.as_slice());
        self.sources.commit_change(change);
    }

    /// Makes a prepared charge.
    fn commit_charge(&mut self, charge: Option<QuotaUsed>)
        requires ready { IsChargeReady charge self.old }
        ensures state { state_of self.new ≡ with_charge charge (state_of self.old) }
        ensures shelf { self.new.shelf ≡ self.old.shelf }
        ensures indexes { self.new.indexes ≡ self.old.indexes }
    {
        if let Some(entry) = charge {
            self.quota_used.set(entry);
        }
    }
}

/// Prepares a change of the people that they don't refuse.
fn prepare_people(people: &mut People, change: OrgChange) -> Result<PreparedOrg, AllocError>
    requires { IsTrue (is_none (org_fault change people.old.people)) }
    ensures same { people.new.people ≡ people.old.people }
    ensures change { IfOk result (λ prepared. prepared ≡ change) }
    ensures ready { IfOk result (λ prepared. IsReady prepared people.new) }
{
    match people.prepare(change) {
        Ok(prepared) => Ok(prepared),
        Err(OrgFault::OutOfMemory) => Err(AllocError),
        Err(_) => unreachable!(),
    }
}

/// Prepares a change of the sources that they don't refuse.
fn prepare_source(
    alloc: Global,
    sources: &mut Stages,
    change: SourceChange,
) -> Result<PreparedSource, AllocError>
    requires { IsTakenBySources change (sources_in sources.old) }
    ensures same { sources_in sources.new ≡ sources_in sources.old }
    ensures change { IfOk result (λ prepared. prepared.change ≡ change) }
    ensures ready { IfOk result (λ prepared. stages.IsReady prepared sources.new) }
{
    match sources.prepare_change(alloc, change) {
        Ok(prepared) => Ok(prepared),
        Err(StageFault::OutOfMemory) => Err(AllocError),
        Err(_) => unreachable!(),
    }
}
