//! Laws of the definitions: functions with an empty body, whose contracts are the laws.
ghost use Rattle.std.specs.Prelude.{◌≡◌, ◌↔◌, ℕ, List, true};
ghost use Rattle.table_schema.specs.Field.{SchemaValue};
ghost use Rattle.datastore_table.specs.declared.row.Row.{Row};
ghost use Rattle.datastore_table.specs.Meets.{IsTable, is_restorable};
ghost use Rattle.datastore_table.specs.Rules.{KeepRules};

/// Rows and a next `_id` are those of a valid table if and only if they keep all rules, which speak of each row and of
/// any two rows. A table can be restored from exactly such rows.
pub fn tables_are_valid_exactly_by_the_rules()
    ensures valid { (schema : SchemaValue) (rows : List Row) (next_id : ℕ) →
        IsTable schema rows next_id ↔ KeepRules schema rows next_id }
    ensures restorable { (schema : SchemaValue) (rows : List Row) (next_id : ℕ) →
        (is_restorable schema rows next_id ≡ true) ↔ KeepRules schema rows next_id }
{}
