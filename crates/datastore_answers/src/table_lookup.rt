//! Look-ups of tables for the answers on datasets.
ghost use Rattle.std.specs.Prelude.{◌≡◌, ◌&&◌};
ghost use Rattle.std.specs.List.{list_any};
ghost use Rattle.visibility.specs.TableSummary.{is_among, refers_outside};

use crate::resource_table::ResourceTable;
use crate::table_index::tables_in;
use crate::tables::Tables;
use packages::package::Resource;
use portal_base::text::Text;
use visibility::table_lookup::TableLookup;

// Whether one of the resources has the number.
pub(crate) fn is_among(resources: &[Resource], number: u32) -> bool
    ensures { result ≡ is_among resources.now number }
{
    resources.iter().any(|resource| resource.number == number)
}

// Whether one of these resource numbers isn't among the resources.
fn refers_outside(resources: &[Resource], targets: &[u32]) -> bool
    ensures { result ≡ refers_outside resources.now targets.now }
{
    targets.iter().any(|number| !is_among(resources, *number))
}

// Whether the table is kept with these resources of its dataset and references a resource that isn't kept.
fn breaks_reference(table: &ResourceTable, resources: &[Resource]) -> bool
    ensures { result ≡ is_among resources.now table.now.address.number
        && refers_outside resources.now table.now.targets }
{
    is_among(resources, table.address.number) && refers_outside(resources, table.targets.as_slice())
}

// Whether one of the tables does so.
fn any_breaks_reference(tables: &[ResourceTable], resources: &[Resource]) -> bool
    ensures { result ≡ list_any (λ t. is_among resources.now t.address.number
        && refers_outside resources.now t.targets) tables.now }
{
    tables
        .iter()
        .any(|table| breaks_reference(table, resources))
}

impl TableLookup for Tables {
    ghost use Rattle.datastore_answers.specs.Summaries.{summaries_of};
    ghost use Rattle.datastore_answers.specs.Tables.{tables_of};

    ghost summaries = { λ stored. summaries_of (tables_of stored) };

    fn has_table(&self, dataset: &Text, number: u32) -> bool {
        self.get(dataset, number).is_some()
    }

    fn breaks_references(&self, dataset: &Text, resources: &[Resource]) -> bool {
        let tables = tables_in(self.tables.as_slice(), dataset);
        any_breaks_reference(tables, resources)
    }
}
