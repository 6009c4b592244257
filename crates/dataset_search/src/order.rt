//! The order of the datasets that a search finds.
ghost use Rattle.std.specs.Prelude.{◌≡◌};
ghost use Rattle.dataset_search.specs.Order.{field_cmp, key_cmp, search_cmp};

use crate::lent_dataset::LentDataset;
use crate::sort::{SortField, SortKey};
use packages::package::Package;
use sorted_pages::direction::Direction;
use sorted_pages::order::Order;
use std::cmp::Ordering;

fn compare_field(field: SortField, one: &Package, other: &Package) -> Ordering
    ensures { result ≡ field_cmp field one.now other.now }
{
    match field {
        SortField::Name => one.name.cmp(&other.name),
        SortField::Title => one.title.cmp(&other.title),
        SortField::Modified => one.modified.cmp(&other.modified),
        SortField::Created => one.created.cmp(&other.created),
        SortField::Score => Ordering::Equal,
    }
}

fn compare_by(key: &SortKey, one: &Package, other: &Package) -> Ordering
    ensures { result ≡ key_cmp key.now one.now other.now }
{
    match key.direction {
        Direction::Ascending => compare_field(key.field, one, other),
        Direction::Descending => compare_field(key.field, other, one),
    }
}

// Compares two datasets by one key after another, and last by name.
fn compare(keys: &[SortKey], one: &Package, other: &Package) -> Ordering
    ensures { result ≡ search_cmp keys.now one.now other.now }
{
    for key in keys {
        let ordering = compare_by(key, one, other);
        if !ordering.is_eq() {
            return ordering;
        }
    }
    compare_field(SortField::Name, one, other)
}

/// The order by the keys of a sort, and last by name.
#[derive(Drop)]
pub(crate) struct SortOrder<'s> {
    pub keys: &'s [SortKey],
}

impl<'s, 'a> Order<LentDataset<'a>> for SortOrder<'s> {
    ghost use Rattle.dataset_search.specs.Order.{search_cmp, search_cmp_total};

    ghost cmp = { λ order. search_cmp order.keys.now };

    ghost total = { λ order. search_cmp_total order.keys.now };

    fn compare(&self, one: &LentDataset<'a>, other: &LentDataset<'a>) -> Ordering {
        compare(self.keys, one.dataset(), other.dataset())
    }
}
