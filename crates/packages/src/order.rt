//! The order of datasets: by the bytes of their ids.
use crate::package::Package;
use portal_base::ordered::Ordered;
use std::cmp::Ordering;

impl Ordered for Package {
    ghost use Rattle.packages.specs.Order.{dataset_cmp, dataset_cmp_total};

    ghost order = { dataset_cmp };

    ghost total = { dataset_cmp_total };

    /// The order by id.
    fn compare(&self, other: &Package) -> Ordering {
        self.id.cmp(&other.id)
    }
}
