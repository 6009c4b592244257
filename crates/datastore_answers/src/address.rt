//! The addresses of resources' tables, and the order of the tables.
use crate::resource_table::ResourceTable;
use portal_base::ordered::{Key, Ordered};
use portal_base::text::Text;
use std::cmp::Ordering;

/// The address of a resource and of its table: the id of its dataset, and its number in that dataset.
#[derive(Drop)]
pub struct Address {
    pub dataset: Text,
    pub number: u32,
}

impl Address {
    ghost use Rattle.std.specs.Prelude.{◌≡◌};
    ghost use Rattle.datastore_answers.specs.Order.{address_cmp};

    /// Compares the datasets' ids first, and then the numbers.
    pub fn order(&self, other: &Address) -> Ordering
        ensures { result ≡ address_cmp self.now other.now }
    {
        match self.dataset.cmp(&other.dataset) {
            Ordering::Equal => self.number.cmp(&other.number),
            unequal => unequal,
        }
    }
}

impl Ordered for ResourceTable {
    ghost use Rattle.datastore_answers.specs.Order.{table_cmp, table_cmp_total};

    ghost order = { table_cmp };

    ghost total = { table_cmp_total };

    fn compare(&self, other: &ResourceTable) -> Ordering {
        self.address.order(&other.address)
    }
}

impl Key<ResourceTable> for Address {
    ghost use Rattle.datastore_answers.specs.Order.{at_address, IsKey-at_address, IsMonotone-at_address};

    ghost at = { at_address };

    ghost is_key = { IsKey-at_address };

    ghost is_monotone = { IsMonotone-at_address };

    fn compare_item(&self, item: &ResourceTable) -> Ordering {
        item.address.order(self)
    }
}
