//! The step of a harvest on the portal's parts. What it does to the datasets is found first, and then memory is prepared.
//! Then the keeper changes the rows of the store, and a commit makes the step: it takes no memory and can't fail.
ghost use Rattle.std.specs.Prelude.{◌≡◌, ◌≤◌, ℕ, List, IfOk, IfSome, IsErrOf, IsTrue, OnErr, OnOk, find};
ghost use Rattle.std.specs.Option.{option_copied};
ghost use Rattle.std.specs.Str.{bytes_eq};
ghost use Rattle.harvest_records.specs.Names.{harvested_name};
ghost use Rattle.harvest_results.specs.Effects.{effect_of_put, with_put};
ghost use Rattle.harvest_sources.specs.Steps.{is_accepted};
ghost use Rattle.harvest_stages.specs.Prepared.{CanChange, stepped_in};
ghost use Rattle.harvest_stages.specs.Stages.{sources_in};
ghost use Rattle.packages.specs.Shelf.{datasets_of};
ghost use Rattle.portal_base.specs.Outside.{Rose};
ghost use Rattle.portal_state.specs.Harvest.{harvest_change, harvest_of, state_after_step};
ghost use Rattle.portal_state.specs.Indexes.{IsIndexed};
ghost use Rattle.portal_state.specs.Parts.{AreGoneByName, IsConsistent, ids_gone, state_of};
ghost use Rattle.portal_state.specs.PortalValue.{AreKept};
ghost use Rattle.portal_state.specs.Stepped.{AreFound, IsPuttableIf, IsReadyPut, IsStep, after_commit, put_in};
ghost use Rattle.portal_state.specs.Stepped.{unless_unchanged};

use crate::act_fault::ActFault;
use crate::indexes::PreparedDataset;
use crate::parts::Parts;
use harvest_results::{dataset_read, effect_over, names_gone, names_of_source};
use harvest_sources::{Effect, Reading, SourceChange, Step, StepReply};
use harvest_stages::PreparedStep;
use packages::package::Package;
use packages::shelf::Shelf;
use portal_base::seq::Seq;
use portal_base::text::Text;
use portal_keeper::keeper::Keeper;
use std::alloc::{AllocError, Global};

/// What a step does to the datasets, if it is accepted.
#[derive(Drop)]
struct StepDatasets {
    /// The dataset that is put.
    put: Option<Package>,
    /// The ids of the datasets that go.
    gone: Seq<Text>,
    effect: Effect,
}

/// The dataset that a step puts, for which memory is prepared. `Parts` alone makes one.
#[derive(Drop)]
enum PreparedPut {
    Nothing,
    /// A new dataset.
    New(PreparedDataset),
    /// The dataset that replaces the one at its number.
    Replaced(PreparedDataset),
}

impl Parts {
    /// Makes the step of a harvest, if it is accepted. The keeper changes the rows of the store, and then the parts change.
    /// A step that isn't accepted changes nothing. Where memory runs out or the keeper fails, nothing changes.
    pub fn step<K: Keeper>(
        &mut self,
        alloc: Global,
        keeper: &mut K,
        step: &Step,
    ) -> Result<StepReply, ActFault>
        requires kept { AreKept (K.rows keeper.old) self.old }
        ensures parts { AreKept (K.rows keeper.new) self.new }
        ensures reply { IfOk result (λ reply. reply ≡ (harvest_change step.now (state_of self.old)).reply) }
        ensures state { OnOk result (state_of self.new ≡ state_after_step step.now (state_of self.old)) }
        ensures kept { OnErr result (state_of self.new ≡ state_of self.old) }
        ensures fault { IsErrOf result ActFault.Keeper → Rose (K.faults keeper.old) (K.faults keeper.new) }
        ensures counts { K.faults keeper.old ≤ K.faults keeper.new }
    {
        let found = self.find_datasets(alloc, step)?;
        let prepared = self.sources.prepare(alloc, step, found.effect)?;
        if prepared.reply().is_accepted() {
            self.make_step(alloc, keeper, step, found, prepared)
        } else {
            Ok(self.sources.commit(prepared))
        }
    }

    // ---- what the step does to the datasets

    /// What the step does to the datasets, if it is accepted.
    fn find_datasets(&self, alloc: Global, step: &Step) -> Result<StepDatasets, AllocError>
        requires { IsConsistent self.now }
        ensures { IfOk result (AreFound step.now (harvest_of (state_of self.now))) }
    {
        match step {
            Step::Settle(job, iri, reading) => self.find_put(alloc, job, iri, reading),
            Step::End(job) => self.find_gone(alloc, job),
            _ => Ok(StepDatasets {
                put: None,
                gone: Seq::new(alloc),
                effect: Effect::Plain,
            }),
        }
    }

    /// The dataset of what was read of an object, and what it does to the datasets.
    fn find_put(
        &self,
        alloc: Global,
        job: &Text,
        iri: &Text,
        reading: &Reading,
    ) -> Result<StepDatasets, AllocError>
        requires { IsConsistent self.now }
        ensures { IfOk result
            (AreFound (Step.Settle job.now iri.now reading.now) (harvest_of (state_of self.now))) }
    {
        let source = self.sources.source_of_job(job.as_str());
        let put = dataset_read(alloc, source, iri, reading)?;
        let effect = self.effect_of_put(put.as_ref());
        Ok(StepDatasets {
            put,
            gone: Seq::new(alloc),
            effect,
        })
    }

    /// What the dataset does to the datasets, if there is one.
    fn effect_of_put(&self, put: Option<&Package>) -> Effect
        requires consistent { IsConsistent self.now }
        requires named { IfSome put (λ d. (source : List ℕ) × (d.now.name ≡ harvested_name source d.now.iri)) }
        ensures { result ≡ effect_of_put (datasets_of self.now.shelf) (option_copied put.entry) }
    {
        match put {
            Some(dataset) => effect_over(dataset, self.harvested(&dataset.name)),
            None => Effect::Plain,
        }
    }

    /// The dataset with this name, which is one that a source gives.
    fn harvested(&self, name: &Text) -> Option<&Package>
        requires consistent { IsConsistent self.now }
        requires named { (source iri : List ℕ) × (name.now ≡ harvested_name source iri) }
        ensures { option_copied result ≡ find (λ d. bytes_eq d.name name.now) (datasets_of self.now.shelf) }
    {
        let number = self.shelf.number_of(name.as_str())?;
        self.shelf.package_at(number)
    }

    /// The ids of the datasets that go where the job ends.
    fn find_gone(&self, alloc: Global, job: &Text) -> Result<StepDatasets, AllocError>
        requires { IsConsistent self.now }
        ensures { IfOk result (AreFound (Step.End job.now) (harvest_of (state_of self.now))) }
    {
        let source = self.sources.source_of_job(job.as_str());
        let gone = Seq::from(names_gone(alloc, source, &self.shelf)?);
        let effect = Effect::Deleted(gone.len() as u64);
        Ok(StepDatasets {
            put: None,
            gone,
            effect,
        })
    }

    // ---- the step

    /// Makes an accepted step that the sources have prepared. A dataset that the portal has as it was read isn't put again.
    fn make_step<K: Keeper>(
        &mut self,
        alloc: Global,
        keeper: &mut K,
        step: &Step,
        found: StepDatasets,
        prepared: PreparedStep,
    ) -> Result<StepReply, ActFault>
        requires kept { AreKept (K.rows keeper.old) self.old }
        requires found { AreFound step.now (harvest_of (state_of self.old)) found }
        requires prepared { IsStep step.now (state_of self.old) prepared }
        requires accepted { IsTrue (is_accepted prepared.reply) }
        requires ready { CanChange prepared.change self.old.sources }
        ensures parts { AreKept (K.rows keeper.new) self.new }
        ensures reply { IfOk result (λ reply. reply ≡ (harvest_change step.now (state_of self.old)).reply) }
        ensures state { OnOk result (state_of self.new ≡ state_after_step step.now (state_of self.old)) }
        ensures kept { OnErr result (state_of self.new ≡ state_of self.old) }
        ensures fault { IsErrOf result ActFault.Keeper → Rose (K.faults keeper.old) (K.faults keeper.new) }
        ensures counts { K.faults keeper.old ≤ K.faults keeper.new }
    {
        let StepDatasets { put, gone, effect } = found;
        let put = unless_unchanged(put, effect);
        let changes = self.step_row_changes(alloc, step, prepared.reply(), put.as_ref(), &gone)?;
        let put = self.prepare_put(put)?;
        keeper.apply(alloc, &changes)?;
        Ok(self.commit_step(put, &gone, prepared))
    }

    /// Prepares the dataset that a step puts, if it puts one. The state stays the same.
    fn prepare_put(&mut self, put: Option<Package>) -> Result<PreparedPut, AllocError>
        requires shelved { IsIndexed self.old.shelf self.old.indexes }
        requires puttable { IsPuttableIf self.old.shelf put }
        ensures same { state_of self.new ≡ state_of self.old }
        ensures shelved { IsIndexed self.new.shelf self.new.indexes }
        ensures sources { self.new.sources ≡ self.old.sources }
        ensures put { IfOk result (λ prepared. put_in prepared ≡ put) }
        ensures ready { IfOk result (λ prepared. IsReadyPut prepared self.new) }
    {
        match put {
            Some(dataset) => self.prepare_harvested(dataset),
            None => Ok(PreparedPut::Nothing),
        }
    }

    /// Prepares the dataset that a step puts: a new one, or one that replaces the dataset with its name.
    fn prepare_harvested(&mut self, dataset: Package) -> Result<PreparedPut, AllocError>
        requires shelved { IsIndexed self.old.shelf self.old.indexes }
        requires puttable { IsPuttableIf self.old.shelf (Some dataset) }
        ensures same { state_of self.new ≡ state_of self.old }
        ensures shelved { IsIndexed self.new.shelf self.new.indexes }
        ensures sources { self.new.sources ≡ self.old.sources }
        ensures put { IfOk result (λ prepared. put_in prepared ≡ Some dataset) }
        ensures ready { IfOk result (λ prepared. IsReadyPut prepared self.new) }
    {
        match self.shelf.number_of(dataset.id.as_str()) {
            Some(number) => {
                let prepared = self.indexes.prepare(number, dataset)?;
                Ok(PreparedPut::Replaced(prepared))
            }
            None => {
                let number = self.shelf.prepare()?;
                let prepared = self.indexes.prepare(number, dataset)?;
                Ok(PreparedPut::New(prepared))
            }
        }
    }

    /// Makes a prepared step, and returns its reply. It takes no memory and can't fail.
    fn commit_step(&mut self, put: PreparedPut, gone: &Seq<Text>, step: PreparedStep) -> StepReply
        requires shelved { IsIndexed self.old.shelf self.old.indexes }
        requires put { IsReadyPut put self.old }
        requires ready { CanChange step.change self.old.sources }
        ensures state { state_of self.new ≡ after_commit (put_in put) gone.now
            (stepped_in step (sources_in self.old.sources)).entries (state_of self.old) }
        ensures shelved { IsIndexed self.new.shelf self.new.indexes }
        ensures reply { result ≡ step.reply }
    {
        self.commit_put(put);
        self.indexes.remove_all(&mut self.shelf, gone.as_slice());
        self.sources.commit(step)
    }

    /// Puts a prepared dataset on the shelf.
    fn commit_put(&mut self, put: PreparedPut)
        requires shelved { IsIndexed self.old.shelf self.old.indexes }
        requires ready { IsReadyPut put self.old }
        ensures datasets { datasets_of self.new.shelf ≡ with_put (put_in put) (datasets_of self.old.shelf) }
        ensures shelved { IsIndexed self.new.shelf self.new.indexes }
        ensures people { self.new.people ≡ self.old.people }
        ensures tables { self.new.tables ≡ self.old.tables }
        ensures sources { self.new.sources ≡ self.old.sources }
        ensures quota_used { self.new.quota_used ≡ self.old.quota_used }
    {
        match put {
            PreparedPut::Nothing => {}
            PreparedPut::New(prepared) => self.indexes.put(&mut self.shelf, prepared),
            PreparedPut::Replaced(prepared) => self.indexes.replace(&mut self.shelf, prepared),
        }
    }
}

/// The dataset that is left to be put. If nothing changes, the portal has an equal one, and a put would take memory and work for
/// nothing.
fn unless_unchanged(put: Option<Package>, effect: Effect) -> Option<Package>
    ensures { result ≡ unless_unchanged effect put }
{
    match effect {
        Effect::Unchanged => None,
        _ => put,
    }
}

/// The ids of the datasets that go with a change of the sources.
pub(crate) fn ids_gone(
    alloc: Global,
    shelf: &Shelf,
    change: &SourceChange,
) -> Result<Seq<Text>, AllocError>
    requires { AreGoneByName change.now (datasets_of shelf.now) }
    ensures { IfOk result (λ ids. ids ≡ ids_gone change.now (datasets_of shelf.now)) }
{
    match change {
        SourceChange::Remove(name) => Ok(Seq::from(names_of_source(alloc, name, shelf)?)),
        _ => Ok(Seq::new(alloc)),
    }
}
