//! Laws of the rows. Each function has an empty body, and its contract is the law.
ghost use Rattle.std.specs.Prelude.{◌≡◌, ◌<◌, ◌^◌, List, Ok, ℕ};
ghost use Rattle.datastore_table.specs.Table.{IsNumbered, TableValue};
ghost use Rattle.org_roles.specs.PeopleLists.{AreSorted, PeopleLists};
ghost use Rattle.portal_base.specs.Json.{IsReadable};
ghost use Rattle.portal_base.specs.declared.json_value.Json.{Json};
ghost use Rattle.portal_keeper.specs.Rows.{AreInOrder};
ghost use Rattle.portal_keeper.specs.declared.row.KeptRow.{KeptRow};
ghost use Rattle.table_schema.specs.Field.{SchemaValue};
ghost use Rattle.table_schema.specs.Keys.{schema_reading};
ghost use Rattle.table_schema.specs.Written.{schema_value};
ghost use Rattle.portal_rows.specs.KeptValues.{AreKeptValues, IsKeptOf, rows_of_values};
ghost use Rattle.portal_rows.specs.OrgRows.{AreRolesIn, memberships_in, org_rows};
ghost use Rattle.portal_rows.specs.TableRows.{rows_of_table};
ghost use Rattle.portal_rows.specs.declared.kept_values.KeptValues.{KeptValues};

/// The rows of organizations in the order of their names are in the order of a store.
pub fn rows_of_organizations_are_in_order()
    ensures { (people : PeopleLists) → AreSorted people → AreInOrder (org_rows people) }
{}

/// The rows of a table are in the order of a store, so that the rows of its rows ascend as their `_id`s do.
pub fn rows_of_a_table_are_in_order()
    ensures { (resource targets : List ℕ) (table : TableValue) → IsNumbered table.rows table.next_id →
        table.next_id < 2 ^ 64 → AreInOrder (rows_of_table resource table targets) }
{}

/// The descriptor of a schema that was read can be read from its own text. So each schema is one that the row of a table
/// can have.
pub fn descriptors_of_schemas_are_readable()
    ensures { (value : Json) (schema : SchemaValue) → schema_reading value ≡ Ok schema →
        IsReadable (schema_value schema) }
{}

/// The memberships of each organization are all in it, and ascend by their users. So each row of an organization is the
/// row of the organization with these roles.
pub fn memberships_are_those_of_their_organization()
    ensures { (people : PeopleLists) (name : List ℕ) → AreSorted people →
        AreRolesIn name (memberships_in name people.roles) }
{}

/// The rows of values that have rows are in the order of a store, so that no two of them have the same kind and key.
pub fn rows_of_values_are_in_order()
    ensures { (values : KeptValues) → AreKeptValues values → AreInOrder (rows_of_values values) }
{}

/// No two values have the same rows.
pub fn rows_are_of_one_value()
    ensures { (one other : KeptValues) (rows : List KeptRow) → IsKeptOf one rows → IsKeptOf other rows →
        one ≡ other }
{}

/// The rows of values are those of these values, so that they are read back as them.
pub fn values_are_those_of_their_rows()
    ensures { (values : KeptValues) → AreKeptValues values → IsKeptOf values (rows_of_values values) }
{}
