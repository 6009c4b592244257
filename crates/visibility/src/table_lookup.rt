//! Look-ups of the DataStore's tables: which resources have one, and which resources a table's foreign keys reference.
ghost use Rattle.std.specs.Prelude.{◌≡◌};
ghost use Rattle.visibility.specs.TableSummary.{has_table, breaks_references};

use packages::package::Resource;
use portal_base::text::Text;

/// A store that knows which resources have tables.
pub trait TableLookup {
    ghost use Rattle.std.specs.Prelude.{List};
    ghost use Rattle.visibility.specs.TableSummary.{TableSummary};

    /// A summary of each table.
    ghost summaries: { Self → List TableSummary };

    /// Whether the resource of this number of the dataset with this id has a table.
    fn has_table(&self, dataset: &Text, number: u32) -> bool
        ensures { result ≡ has_table (summaries self.now) dataset.now number };

    /// Whether a reference breaks if the dataset keeps only these resources. A reference breaks if a table that is kept
    /// references a resource that isn't kept.
    fn breaks_references(&self, dataset: &Text, resources: &[Resource]) -> bool
        ensures { result ≡ breaks_references (summaries self.now) dataset.now resources.now };
}

/// A store without tables.
#[derive(Drop)]
pub struct NoTables;

impl TableLookup for NoTables {
    ghost use Rattle.std.specs.Prelude.{[]};

    ghost summaries = { λ _. [] };

    fn has_table(&self, _dataset: &Text, _number: u32) -> bool {
        false
    }

    fn breaks_references(&self, _dataset: &Text, _resources: &[Resource]) -> bool {
        false
    }
}
