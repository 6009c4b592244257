//! The shelf restored from stored datasets.
ghost use Rattle.std.specs.Prelude.{◌≡◌, IfOk, IfSome, IsTrue, is_some};
ghost use Rattle.portal_base.specs.Ordered.{ascending, inserted};
ghost use Rattle.packages.specs.Order.{dataset_cmp};
ghost use Rattle.packages.specs.Restored.{have_unique_keys, is_free};
ghost use Rattle.packages.specs.Shelf.{IsValidShelf, datasets_of};

use super::Shelf;
use crate::package::Package;
use portal_base::seq::Seq;
use std::alloc::{AllocError, Global};

impl Shelf {
    /// The shelf with these datasets. The result is None exactly if a text is the id or the name of two of them. The
    /// datasets get numbers in an order that callers can't rely on. If no number below 2^32 is free, that counts as
    /// out of memory.
    pub fn restore(alloc: Global, datasets: Seq<Package>) -> Result<Option<Shelf>, AllocError>
        ensures exact { IfOk result (λ restored. is_some restored ≡ have_unique_keys datasets) }
        ensures datasets { IfOk result (λ restored. IfSome restored (λ shelf.
            datasets_of shelf ≡ ascending dataset_cmp datasets)) }
        ensures valid { IfOk result (λ restored. IfSome restored IsValidShelf) }
    {
        let mut shelf = Shelf::new(alloc);
        let mut rest = datasets.into_vec();
        while let Some(dataset) = rest.pop() {
            if !shelf.put_if_free(dataset)? {
                return Ok(None);
            }
        }
        Ok(Some(shelf))
    }

    /// Puts a dataset, unless its id or its name is in use. The result says whether it was put.
    fn put_if_free(&mut self, dataset: Package) -> Result<bool, AllocError>
        ensures exact { IfOk result (λ was_put. was_put ≡ is_free dataset (datasets_of self.old)) }
        ensures datasets { IfOk result (λ was_put. IsTrue was_put →
            datasets_of self.new ≡ inserted dataset_cmp dataset (datasets_of self.old)) }
        ensures valid { IfOk result (λ was_put. IsTrue was_put → IsValidShelf self.new) }
    {
        if !self.is_free(&dataset) {
            return Ok(false);
        }
        self.prepare()?;
        self.put(dataset);
        Ok(true)
    }

    /// Whether neither the dataset's id nor its name is in use.
    fn is_free(&self, dataset: &Package) -> bool
        ensures { result ≡ is_free dataset.now (datasets_of self.now) }
    {
        !self.is_in_use(dataset.id.as_str()) && !self.is_in_use(dataset.name.as_str())
    }
}
