//! The report of tables.
ghost use Rattle.std.specs.Prelude.{◌≡◌, ◌++◌, IfOk, OnOk, string_bytes};
ghost use Rattle.std.specs.List.{flat_map};
ghost use Rattle.packages.specs.Shelf.{datasets_of};
ghost use Rattle.visibility.specs.Viewer.{datasets_for};
ghost use Rattle.datastore_answers.specs.Tables.{tables_of, tables_seen};
ghost use Rattle.portal_reports.specs.Tables.{named_lines, table_line, tables_text};

use crate::columns::{push_header, push_line};
use datastore_answers::resource_table::ResourceTable;
use datastore_answers::tables::Tables;
use packages::named::resource_address;
use packages::package::Package;
use packages::shelf::Shelf;
use packages::walk::Test;
use portal_base::text::Text;
use std::alloc::{AllocError, Global};
use visibility::viewer::Viewer;

/// The places of the column of names.
const PLACES: usize = 60;

static TITLES: [&str; 2] = ["rows", "columns"];

/// Whether the viewer sees a dataset.
#[derive(Drop)]
struct IsSeen<'a> {
    viewer: &'a Viewer<'a>,
}

impl<'a> Test for IsSeen<'a> {
    ghost use Rattle.visibility.specs.Visibility.{sees_in};

    ghost test = { λ seen d. sees_in seen.viewer.now.people seen.viewer.now.caller d };

    fn passes(&self, dataset: &Package) -> bool {
        self.viewer.sees(dataset)
    }
}

/// Adds the line of a table of the dataset.
fn push_table(
    alloc: Global,
    text: &mut String,
    dataset: &Package,
    table: &ResourceTable,
) -> Result<(), AllocError>
    ensures { OnOk result (string_bytes text.new ≡ string_bytes text.old ++ table_line dataset.now table.now) }
{
    let address = resource_address(alloc, &dataset.name, table.address.number)?;
    let rows = table.table.len() as u128;
    let columns = table.table.schema().fields().len() as u128;
    push_line(text, PLACES, address.as_str(), &[rows, columns])
}

/// Adds the lines of these tables of the dataset.
fn push_tables(
    alloc: Global,
    text: &mut String,
    dataset: &Package,
    tables: &[ResourceTable],
) -> Result<(), AllocError>
    ensures { OnOk result (string_bytes text.new
        ≡ string_bytes text.old ++ flat_map (table_line dataset.now) tables.now) }
{
    for table in tables {
        push_table(alloc, text, dataset, table)?;
    }
    Ok(())
}

/// Adds the lines of the tables of the dataset of this name.
fn push_named(
    alloc: Global,
    text: &mut String,
    viewer: &Viewer<'_>,
    tables: &Tables,
    name: &Text,
) -> Result<(), AllocError>
    ensures { OnOk result (string_bytes text.new ≡ string_bytes text.old
        ++ named_lines (datasets_for viewer.now) (tables_seen (datasets_for viewer.now) (tables_of tables.now))
        name.now) }
{
    match viewer.dataset(name.as_str()) {
        Some(dataset) => push_tables(alloc, text, dataset, tables.of_dataset(&dataset.id)),
        None => Ok(()),
    }
}

/// Adds the lines of the tables of the datasets of these names.
fn push_each(
    alloc: Global,
    text: &mut String,
    viewer: &Viewer<'_>,
    tables: &Tables,
    names: &[Text],
) -> Result<(), AllocError>
    ensures { OnOk result (string_bytes text.new ≡ string_bytes text.old
        ++ flat_map (named_lines (datasets_for viewer.now)
        (tables_seen (datasets_for viewer.now) (tables_of tables.now))) names.now) }
{
    for name in names {
        push_named(alloc, text, viewer, tables, name)?;
    }
    Ok(())
}

/// The report of tables on what the viewer sees. It walks the datasets of the shelf, which are the viewer's, once.
pub(crate) fn tables_text(
    alloc: Global,
    viewer: &Viewer<'_>,
    shelf: &Shelf,
    tables: &Tables,
) -> Result<String, AllocError>
    requires { datasets_of shelf.now ≡ viewer.now.datasets }
    ensures { IfOk result (λ text. string_bytes text ≡ tables_text (datasets_for viewer.now)
        (tables_seen (datasets_for viewer.now) (tables_of tables.now))) }
{
    let names = shelf.names_of(alloc, &IsSeen { viewer })?;
    let mut text = String::new(alloc);
    push_header(&mut text, PLACES, "table", TITLES.as_slice())?;
    push_each(alloc, &mut text, viewer, tables, names.as_slice())?;
    Ok(text)
}
