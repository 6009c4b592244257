//! Changes of the datasets, as data.
use packages::package::Package;
use portal_base::text::Text;

/// A change of the datasets.
#[derive(Drop)]
pub enum DatasetChange {
    /// A new dataset.
    Create(Package),
    /// A dataset in place of the one of its id.
    Replace(Package),
    /// No dataset of that id.
    Remove(Text),
}
