//! The changes of the rows of datasets, and of the tables that go with resources.
ghost use Rattle.std.specs.Prelude.{◌≡◌, ◌++◌, ◌∷◌, [], IfOk, OnOk, option_map};
ghost use Rattle.std.specs.List.{flat_map};
ghost use Rattle.dataset_rows.specs.Rows.{row_text};
ghost use Rattle.packages.specs.Order.{dataset_cmp};
ghost use Rattle.packages.specs.Shelf.{datasets_of, package_at};
ghost use Rattle.portal_base.specs.Ordered.{IsAscending};
ghost use Rattle.portal_state.specs.ChangedRows.{changes_between, changes_of_datasets, dataset_body};
ghost use Rattle.portal_state.specs.ChangedRows.{removals_of_gone, removals_unless};
ghost use Rattle.portal_state.specs.KeptRows.{dataset_row};
ghost use Rattle.portal_state.specs.Parts.{IsPlaced, IsTakenBy};
ghost use Rattle.visibility.specs.TableSummary.{is_among};

use crate::row_changes::push_between;
use crate::row_changes::tables::push_removals;
use dataset_answers::change::DatasetChange;
use dataset_rows::row::row_of;
use datastore_answers::resource_table::ResourceTable;
use datastore_answers::tables::Tables;
use packages::package::{Package, Resource};
use packages::shelf::Shelf;
use portal_base::copy::TryClone;
use portal_base::text::Text;
use portal_keeper::change::Change;
use portal_keeper::row::{KeptRow, RowKind};
use std::alloc::{AllocError, Global};

/// Adds the changes of rows for a change of the datasets.
pub(crate) fn push_changes(
    alloc: Global,
    changes: &mut Vec<Change>,
    shelf: &Shelf,
    tables: &Tables,
    change: &DatasetChange,
) -> Result<(), AllocError>
    requires ascending { IsAscending dataset_cmp (datasets_of shelf.now) }
    requires taken { IsTakenBy change.now shelf.now }
    ensures { OnOk result (changes.new.items
        ≡ changes.old.items ++ changes_of_datasets change.now (datasets_of shelf.now) tables.now.tables) }
{
    match change {
        DatasetChange::Create(dataset) => push_dataset(alloc, changes, dataset),
        DatasetChange::Replace(dataset) => {
            push_gone(
                alloc,
                changes,
                tables,
                &dataset.id,
                dataset.resources.as_slice(),
            )?;
            push_put(alloc, changes, shelf, dataset)
        }
        DatasetChange::Remove(id) => {
            push_gone(alloc, changes, tables, id, &[])?;
            push_removal(alloc, changes, id)
        }
    }
}

/// Adds the row of a new dataset.
fn push_dataset(
    alloc: Global,
    changes: &mut Vec<Change>,
    dataset: &Package,
) -> Result<(), AllocError>
    ensures { OnOk result (changes.new.items ≡ changes.old.items ++ Change.Put (dataset_row dataset.now) ∷ []) }
{
    let key = dataset.id.try_clone(alloc)?;
    let body = row_of(alloc, dataset)?;
    changes.push(Change::Put(KeptRow {
        kind: RowKind::Set,
        key,
        body,
    }))?;
    Ok(())
}

/// Adds what changes in the row of a dataset that is put in place of the one with its id, if there is one.
pub(crate) fn push_put(
    alloc: Global,
    changes: &mut Vec<Change>,
    shelf: &Shelf,
    dataset: &Package,
) -> Result<(), AllocError>
    requires ascending { IsAscending dataset_cmp (datasets_of shelf.now) }
    requires placed { IsPlaced dataset.now.id shelf.now }
    ensures { OnOk result (changes.new.items ≡ changes.old.items
        ++ changes_between RowKind.Set dataset.now.id (dataset_body dataset.now.id (datasets_of shelf.now))
        (Some (row_text dataset.now))) }
{
    let before = dataset_body(alloc, shelf, &dataset.id)?;
    let after = row_of(alloc, dataset)?;
    let key = dataset.id.try_clone(alloc)?;
    push_between(changes, RowKind::Set, key, before, Some(after))
}

/// Adds the removal of the row of the dataset of that id.
pub(crate) fn push_removal(
    alloc: Global,
    changes: &mut Vec<Change>,
    id: &Text,
) -> Result<(), AllocError>
    ensures { OnOk result (changes.new.items ≡ changes.old.items ++ Change.Remove RowKind.Set id.now ∷ []) }
{
    let id = id.try_clone(alloc)?;
    changes.push(Change::Remove(RowKind::Set, id))?;
    Ok(())
}

/// The body of the row of the dataset of that id, if there is one.
fn dataset_body(alloc: Global, shelf: &Shelf, id: &Text) -> Result<Option<Text>, AllocError>
    requires ascending { IsAscending dataset_cmp (datasets_of shelf.now) }
    requires placed { IsPlaced id.now shelf.now }
    ensures { IfOk result (λ body. body ≡ dataset_body id.now (datasets_of shelf.now)) }
{
    match shelf.number_of(id.as_str()) {
        Some(number) => row_at(alloc, shelf, number),
        None => Ok(None),
    }
}

/// The body of the row of the dataset at the number, if there is one.
fn row_at(alloc: Global, shelf: &Shelf, number: u32) -> Result<Option<Text>, AllocError>
    ensures { IfOk result (λ body. body ≡ option_map row_text (package_at number shelf.now)) }
{
    match shelf.package_at(number) {
        Some(dataset) => Ok(Some(row_of(alloc, dataset)?)),
        None => Ok(None),
    }
}

/// Adds the removals of the dataset's tables that aren't those of these resources.
fn push_gone(
    alloc: Global,
    changes: &mut Vec<Change>,
    tables: &Tables,
    id: &Text,
    resources: &[Resource],
) -> Result<(), AllocError>
    ensures { OnOk result (changes.new.items
        ≡ changes.old.items ++ removals_of_gone id.now resources.now tables.now.tables) }
{
    push_each_gone(alloc, changes, tables.of_dataset(id), resources)
}

/// Adds the removals of those of these tables that aren't those of these resources of their dataset.
fn push_each_gone(
    alloc: Global,
    changes: &mut Vec<Change>,
    tables: &[ResourceTable],
    resources: &[Resource],
) -> Result<(), AllocError>
    ensures { OnOk result (changes.new.items
        ≡ changes.old.items ++ flat_map (removals_unless resources.now) tables.now) }
{
    for table in tables {
        push_if_gone(alloc, changes, table, resources)?;
    }
    Ok(())
}

/// Adds the removals of a table, unless it is the table of one of these resources.
fn push_if_gone(
    alloc: Global,
    changes: &mut Vec<Change>,
    table: &ResourceTable,
    resources: &[Resource],
) -> Result<(), AllocError>
    ensures { OnOk result (changes.new.items ≡ changes.old.items ++ removals_unless resources.now table.now) }
{
    if is_among(resources, table.address.number) {
        Ok(())
    } else {
        push_removals(alloc, changes, table)
    }
}

/// Whether one of the resources has the number.
fn is_among(resources: &[Resource], number: u32) -> bool
    ensures { result ≡ is_among resources.now number }
{
    resources.iter().any(|resource| resource.number == number)
}
