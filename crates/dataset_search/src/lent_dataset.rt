//! Datasets that are borrowed from a shelf.
ghost use Rattle.std.specs.Prelude.{◌≡◌};

use packages::package::Package;
use std::marker::Model;

/// A borrowed dataset. Contracts see it as the dataset.
#[derive(Drop)]
pub struct LentDataset<'a> {
    dataset: &'a Package,
}

impl<'a> Model for LentDataset<'a> {
    ghost use Rattle.packages.specs.declared.package.Package.{Package};

    ghost Value = { Package };

    ghost view = { λ lent. lent.dataset.now };
}

impl<'a> LentDataset<'a> {
    pub(crate) fn of(dataset: &'a Package) -> LentDataset<'a>
        ensures { result ≡ dataset.now }
    {
        LentDataset { dataset }
    }

    /// The dataset.
    pub fn dataset(&self) -> &'a Package
        ensures { result.now ≡ self.now }
    {
        self.dataset
    }
}
