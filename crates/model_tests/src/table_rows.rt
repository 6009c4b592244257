//! The rows of organizations and of tables, where there is enough memory.
use datastore_table::Table;
use org_roles::entry::{Membership, Org};
use org_roles::role::Role;
use portal_base::moment::Moment;
use portal_base::text::Text;
use portal_keeper::row::{KeptRow, RowKind};
use portal_rows::cell_reading::read_cells;
use portal_rows::key_reading::read_row_key;
use portal_rows::org_reading::read_org_row;
use portal_rows::orgs::org_row;
use portal_rows::table_reading::read_table_row;
use portal_rows::tables::{row_key, rows_of_table, table_row};
use portal_rows::version::version_row;
use std::test::Fail;
use table_schema::Schema;

/// The body of the row of `city`.
const CITY: &str =
    "{\"created\":\"1970-01-01T00:00:00\",\"description\":\"\",\"roles\":{\"ann\":\"admin\"},\"title\":\"City\"}";

/// A descriptor of a column of whole numbers.
const COUNTS: &[u8] = b"{\"fields\":[{\"name\":\"count\",\"type\":\"integer\"}]}";

#[test]
fn the_row_of_an_organization_is_read_back(rt: HostRuntime) -> Result<(), Fail> {
    let alloc = rt.alloc();
    let Some(created) = Moment::from_seconds(0) else {
        return Err("no moment")?;
    };
    let city = Org {
        name: Text::from_static("city"),
        title: Text::from_static("City"),
        description: Text::new(alloc),
        created,
    };
    let mut memberships = Vec::new(alloc);
    memberships.push(Membership {
        org: Text::from_static("city"),
        user: Text::from_static("ann"),
        role: Role::Admin,
    })?;
    let row = org_row(alloc, &city, memberships.as_slice())?;
    assert!(rt; row.key.as_str() == "city");
    assert!(rt; row.body.as_str() == CITY);
    assert!(rt; read_org_row(alloc, &row)?.is_some());
    assert!(rt; read_org_row(alloc, &version_row())?.is_none());
    Ok(())
}

#[test]
fn the_row_of_a_table_is_read_back(rt: HostRuntime) -> Result<(), Fail> {
    let alloc = rt.alloc();
    let Ok(schema) = Schema::read(alloc, COUNTS) else {
        return Err("no schema")?;
    };
    let resource = Text::from_static("trees.1");
    let row = table_row(alloc, &resource, &schema, 7, &[])?;
    let Some(head) = read_table_row(alloc, &row)? else {
        return Err("no head")?;
    };
    assert!(rt; head.next_id == 7);
    let other = KeptRow {
        kind: RowKind::Table,
        key: Text::from_static("trees.1"),
        body: Text::from_static("{}"),
    };
    assert!(rt; read_table_row(alloc, &other)?.is_none());
    Ok(())
}

#[test]
fn the_rows_of_a_new_table_are_its_head(rt: HostRuntime) -> Result<(), Fail> {
    let alloc = rt.alloc();
    let Ok(schema) = Schema::read(alloc, COUNTS) else {
        return Err("no schema")?;
    };
    let Ok(table) = Table::create(alloc, schema) else {
        return Err("no table")?;
    };
    let resource = Text::from_static("trees.1");
    let rows = rows_of_table(alloc, &resource, &table, &[])?;
    assert!(rt; rows.as_slice().len() == 1);
    Ok(())
}

#[test]
fn keys_and_cells_are_read_back(rt: HostRuntime) -> Result<(), Fail> {
    let alloc = rt.alloc();
    let Ok(schema) = Schema::read(alloc, COUNTS) else {
        return Err("no schema")?;
    };
    let resource = Text::from_static("trees.1");
    let key = row_key(alloc, &resource, 12)?;
    assert!(rt; key.as_str() == "trees.1/00000000000000000012");
    assert!(rt; read_row_key(alloc, &resource, &key)? == Some(12));
    assert!(rt; read_row_key(alloc, &resource, &resource)?.is_none());
    assert!(rt; read_cells(alloc, &schema, &Text::from_static("[5]"))?.is_some());
    assert!(rt; read_cells(alloc, &schema, &Text::from_static("[ 5]"))?.is_none());
    Ok(())
}
