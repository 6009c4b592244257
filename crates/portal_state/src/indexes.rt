//! The indexes of the datasets on a shelf: their terms, for searches, and the counts of their values. A change of the shelf
//! is one of the indexes too. Growth is prepared before; then a change takes no memory and can't fail.
ghost use Rattle.std.specs.Prelude.{◌≡◌, [], ℕ, List, IfNone, IfOk, IfSome, IsSome, Some};
ghost use Rattle.facets.specs.Counters.{entries_with};
ghost use Rattle.dataset_answers.specs.Changed.{dataset_at_id};
ghost use Rattle.packages.specs.Order.{dataset_cmp};
ghost use Rattle.packages.specs.Shelf.{IsValidShelf, datasets_of, package_at};
ghost use Rattle.std.specs.Option.{option_map};
ghost use Rattle.portal_base.specs.Ordered.{dropped, upserted};
ghost use Rattle.search_index.specs.Index.{with_terms};
ghost use Rattle.portal_state.specs.Indexes.{AreSameIndexes, IsIndexed, IsReadyIn};
ghost use Rattle.portal_state.specs.Parts.{IsFree, IsReplaceReady};
ghost use Rattle.portal_state.specs.Stepped.{without_ids};

use facets::counters::{Counters, PreparedCounts};
use facets::laws::{counters_follow_what_is_put, counters_follow_what_is_removed};
use packages::package::Package;
use packages::shelf::Shelf;
use portal_base::text::Text;
use search_index::index::{Index, PreparedTerms};
use std::alloc::{AllocError, Global};

/// The indexes of a shelf's datasets.
#[derive(Drop)]
pub struct Indexes {
    pub index: Index,
    pub counters: Counters,
}

/// A dataset at the number that it gets or has, for which the indexes are prepared.
#[derive(Drop)]
pub(crate) struct PreparedDataset {
    pub number: u32,
    pub dataset: Package,
    pub terms: PreparedTerms,
    pub counts: PreparedCounts,
}

impl Indexes {
    /// The indexes of a shelf without datasets. They take no memory.
    pub fn new(alloc: Global) -> Indexes
        ensures terms { result.index.entries ≡ [] }
        ensures counts { result.counters.entries ≡ [] }
    {
        Indexes {
            index: Index::new(alloc),
            counters: Counters::new(alloc),
        }
    }

    /// The indexes of a shelf.
    pub fn of(alloc: Global, shelf: &Shelf) -> Result<Indexes, AllocError>
        requires { IsValidShelf shelf.now }
        ensures { IfOk result (IsIndexed shelf.now) }
    {
        let index = Index::of(alloc, shelf)?;
        let counters = Counters::of(alloc, shelf)?;
        Ok(Indexes { index, counters })
    }

    /// Prepares the entries of a dataset at a number. No entry changes.
    pub(crate) fn prepare(
        &mut self,
        number: u32,
        dataset: Package,
    ) -> Result<PreparedDataset, AllocError>
        ensures same { AreSameIndexes self.old self.new }
        ensures number { IfOk result (λ prepared. prepared.number ≡ number) }
        ensures dataset { IfOk result (λ prepared. prepared.dataset ≡ dataset) }
        ensures ready { IfOk result (λ prepared. IsReadyIn prepared self.new) }
    {
        let terms = self.index.prepare(number, &dataset)?;
        let counts = self.counters.prepare(&dataset)?;
        Ok(PreparedDataset {
            number,
            dataset,
            terms,
            counts,
        })
    }

    /// Puts a new dataset on the shelf.
    pub(crate) fn put(&mut self, shelf: &mut Shelf, prepared: PreparedDataset)
        requires indexed { IsIndexed shelf.old self.old }
        requires ready { IsReadyIn prepared self.old }
        requires room { shelf.old.room ≡ Some prepared.number }
        requires free { IsFree shelf.old prepared.dataset }
        ensures indexed { IsIndexed shelf.new self.new }
        ensures datasets { datasets_of shelf.new ≡ upserted dataset_cmp prepared.dataset (datasets_of shelf.old) }
    {
        counters_follow_what_is_put();
        let PreparedDataset {
            number: _number,
            dataset,
            terms,
            counts,
        } = prepared;
        shelf.put(dataset);
        self.index.commit(terms);
        self.counters.commit(counts);
    }

    /// Replaces a dataset on the shelf by one with the same id and name.
    pub(crate) fn replace(&mut self, shelf: &mut Shelf, prepared: PreparedDataset)
        requires indexed { IsIndexed shelf.old self.old }
        requires ready { IsReadyIn prepared self.old }
        requires there { IsReplaceReady shelf.old prepared.number prepared.dataset }
        ensures indexed { IsIndexed shelf.new self.new }
        ensures datasets { datasets_of shelf.new ≡ upserted dataset_cmp prepared.dataset (datasets_of shelf.old) }
    {
        counters_follow_what_is_put();
        let PreparedDataset {
            number,
            dataset,
            terms,
            counts,
        } = prepared;
        shelf.replace(number, dataset);
        self.index.commit(terms);
        self.counters.commit(counts);
    }

    /// Removes the dataset at the number from the shelf.
    pub(crate) fn remove(&mut self, shelf: &mut Shelf, number: u32)
        requires indexed { IsIndexed shelf.old self.old }
        requires there { IsSome (package_at number shelf.old) }
        ensures indexed { IsIndexed shelf.new self.new }
        ensures datasets { (id : List ℕ) → option_map (λ d. d.id) (package_at number shelf.old) ≡ Some id →
            datasets_of shelf.new ≡ dropped (dataset_at_id id) (datasets_of shelf.old) }
    {
        counters_follow_what_is_removed();
        let removed = shelf.remove(number);
        self.index.remove(number);
        self.counters.remove(&removed);
    }

    /// Removes the datasets with these ids from the shelf.
    pub(crate) fn remove_all(&mut self, shelf: &mut Shelf, ids: &[Text])
        requires { IsIndexed shelf.old self.old }
        ensures indexed { IsIndexed shelf.new self.new }
        ensures datasets { datasets_of shelf.new ≡ without_ids ids.now (datasets_of shelf.old) }
    {
        for id in ids {
            self.remove_id(shelf, id);
        }
    }

    /// Removes the dataset with this id from the shelf, if there is one.
    fn remove_id(&mut self, shelf: &mut Shelf, id: &Text)
        requires { IsIndexed shelf.old self.old }
        ensures indexed { IsIndexed shelf.new self.new }
        ensures datasets { datasets_of shelf.new ≡ dropped (dataset_at_id id.now) (datasets_of shelf.old) }
    {
        if let Some(number) = number_of_id(shelf, id) {
            self.remove(shelf, number);
        }
    }
}

/// The number of the dataset with this id.
fn number_of_id(shelf: &Shelf, id: &Text) -> Option<u32>
    ensures there { IfSome result (λ number. option_map (λ d. d.id) (package_at number shelf.now) ≡ Some id.now) }
    ensures none { IfNone result (dropped (dataset_at_id id.now) (datasets_of shelf.now) ≡ datasets_of shelf.now) }
{
    let number = shelf.number_of(id.as_str())?;
    let dataset = shelf.package_at(number)?;
    (dataset.id.as_str() == id.as_str()).then_some(number)
}
