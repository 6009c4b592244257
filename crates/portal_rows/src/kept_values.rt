//! What the rows of a store are rows of, which is read from all of them.
ghost use Rattle.std.specs.Prelude.{◌≡◌, ◌↔◌, IfOk, List, Some};
ghost use Rattle.std.specs.List.{AllZip};
ghost use Rattle.dataset_rows.specs.Rows.{HasRow};
ghost use Rattle.packages.specs.declared.package.Package.{Package};
ghost use Rattle.portal_keeper.specs.Rows.{AreInOrder};
ghost use Rattle.portal_rows.specs.KeptValues.{IsDatasetRow, IsKeptAfterVersion, IsKeptOf};
ghost use Rattle.portal_rows.specs.OrgRows.{IsOrgRow};
ghost use Rattle.portal_rows.specs.declared.kept_values.KeptValues.{KeptValues};
ghost use Rattle.portal_rows.specs.declared.org_reading.OrgWithRoles.{OrgWithRoles};

use crate::kept_parts::{are_in_order, are_version, split_after};
use crate::kept_tables::{KeptTable, read_tables};
use crate::org_reading::{OrgWithRoles, read_org_row};
use dataset_rows::row::from_row;
use packages::package::Package;
use portal_base::seq::Seq;
use portal_base::text::Text;
use portal_keeper::row::{KeptRow, RowKind};
use std::alloc::{AllocError, Global};

/// What the rows of a store are rows of.
#[derive(Drop)]
pub struct KeptValues {
    /// The organizations with the roles in them, in the order of their names.
    pub orgs: Seq<OrgWithRoles>,
    /// The datasets, in the order of their ids.
    pub datasets: Seq<Package>,
    /// The tables, in the order of the bytes of their resources' ids.
    pub tables: Seq<KeptTable>,
}

/// Reads all rows of a store. The result is some values exactly if the rows are those of these values. So it is none if
/// the rows are out of order, if they lack the row of the version, or if one of them is the row of no value.
pub fn read_rows(alloc: Global, rows: &[KeptRow]) -> Result<Option<KeptValues>, AllocError>
    ensures { IfOk result (λ found. (values : KeptValues) → (found ≡ Some values) ↔ IsKeptOf values rows.now) }
{
    if !are_in_order(rows) {
        return Ok(None);
    }
    let (version, rest) = split_after(rows, RowKind::Version);
    if are_version(version) {
        read_after_version(alloc, rest)
    } else {
        Ok(None)
    }
}

/// Reads the rows after that of the version.
fn read_after_version(alloc: Global, rows: &[KeptRow]) -> Result<Option<KeptValues>, AllocError>
    requires { AreInOrder rows.now }
    ensures { IfOk result (λ found. (values : KeptValues) →
        (found ≡ Some values) ↔ IsKeptAfterVersion values rows.now) }
{
    let (orgs, rest) = split_after(rows, RowKind::Org);
    let (datasets, rest) = split_after(rest, RowKind::Set);
    let (heads, rest) = split_after(rest, RowKind::Table);
    let Some(orgs) = read_orgs(alloc, orgs)? else {
        return Ok(None);
    };
    let Some(datasets) = read_datasets(alloc, datasets)? else {
        return Ok(None);
    };
    match read_tables(alloc, heads, rest)? {
        Some(tables) => Ok(Some(KeptValues {
            orgs,
            datasets,
            tables,
        })),
        None => Ok(None),
    }
}

/// Reads the rows of organizations.
fn read_orgs(alloc: Global, rows: &[KeptRow]) -> Result<Option<Seq<OrgWithRoles>>, AllocError>
    ensures { IfOk result (λ found. (orgs : List OrgWithRoles) →
        (found ≡ Some orgs) ↔ AllZip IsOrgRow orgs rows.now) }
{
    let mut orgs = Vec::with_capacity(alloc, rows.len())?;
    for row in rows {
        let Some(org) = read_org_row(alloc, row)? else {
            return Ok(None);
        };
        orgs.push(org)?;
    }
    Ok(Some(Seq::from(orgs)))
}

/// Reads the rows of datasets.
fn read_datasets(alloc: Global, rows: &[KeptRow]) -> Result<Option<Seq<Package>>, AllocError>
    ensures { IfOk result (λ found. (datasets : List Package) →
        (found ≡ Some datasets) ↔ AllZip IsDatasetRow datasets rows.now) }
{
    let mut datasets = Vec::with_capacity(alloc, rows.len())?;
    for row in rows {
        let Some(dataset) = read_dataset_row(alloc, row)? else {
            return Ok(None);
        };
        datasets.push(dataset)?;
    }
    Ok(Some(Seq::from(datasets)))
}

/// Reads the row of a dataset.
fn read_dataset_row(alloc: Global, row: &KeptRow) -> Result<Option<Package>, AllocError>
    ensures { IfOk result (λ found. (dataset : Package) → (found ≡ Some dataset) ↔ IsDatasetRow dataset row.now) }
{
    match row.kind {
        RowKind::Set => read_dataset(alloc, &row.key, &row.body),
        _ => Ok(None),
    }
}

/// Reads the key and the body of the row of a dataset.
fn read_dataset(alloc: Global, id: &Text, body: &Text) -> Result<Option<Package>, AllocError>
    ensures { IfOk result (λ found. (dataset : Package) → (found ≡ Some dataset) ↔ HasRow id.now body.now dataset) }
{
    from_row(alloc, id, body)
}
