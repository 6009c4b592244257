//! Laws of the answers: functions with an empty body, whose contracts are the laws.
ghost use Rattle.std.specs.Prelude.{◌≡◌, List, ℕ, [], false, map, All, IsTrue};
ghost use Rattle.portal_base.specs.Ordered.{ascending};
ghost use Rattle.packages.specs.declared.package.Resource.{Resource};
ghost use Rattle.table_schema.specs.Written.{IsDescribed};
ghost use Rattle.datastore_table.specs.Meets.{IsTable};
ghost use Rattle.visibility.specs.TableSummary.{breaks_references};
ghost use Rattle.visibility.specs.CallView.{CallView};
ghost use Rattle.datastore_answers.specs.TableAnswers.{TableAcceptsOnly};
ghost use Rattle.datastore_answers.specs.Answers.{answer_to_datastore_create, answer_to_datastore_delete};
ghost use Rattle.datastore_answers.specs.Answers.{answer_to_datastore_info};
ghost use Rattle.datastore_answers.specs.Answers.{answer_to_datastore_delete_rows, answer_to_datastore_upsert};
ghost use Rattle.datastore_answers.specs.Changed.{TableChange, changed_tables};
ghost use Rattle.datastore_answers.specs.Fit.{IsFitTable};
ghost use Rattle.datastore_answers.specs.Summaries.{summaries_of};
ghost use Rattle.datastore_answers.specs.Consistent.{AreConsistent};
ghost use Rattle.datastore_answers.specs.Linked.{AreLinked};
ghost use Rattle.datastore_answers.specs.Order.{table_cmp};
ghost use Rattle.datastore_answers.specs.Restored.{are_restorable};
ghost use Rattle.datastore_answers.specs.Tables.{tables_kept, without_room};
ghost use Rattle.datastore_answers.specs.Errors.{OrError};
ghost use Rattle.datastore_answers.specs.declared.resource_table.ResourceTable.{ResourceTable};

/// Each change that an answer accepts is fit: the caller sees the table's resource and may edit its dataset. The
/// table accepts the batch, no other table of the dataset references the rows that are deleted from it, or no other
/// references a table that is deleted. A new table is that of a resource without one.
pub fn what_is_accepted_is_fit()
    ensures datastore_create { (view : CallView) (tables : List ResourceTable) →
        TableAcceptsOnly (IsFitTable view tables) (answer_to_datastore_create view tables) }
    ensures datastore_upsert { (view : CallView) (tables : List ResourceTable) →
        TableAcceptsOnly (IsFitTable view tables) (answer_to_datastore_upsert view tables) }
    ensures datastore_delete { (view : CallView) (tables : List ResourceTable) →
        TableAcceptsOnly (IsFitTable view tables) (answer_to_datastore_delete view tables) }
    ensures datastore_delete_rows { (view : CallView) (tables : List ResourceTable) (found : OrError (List ℕ)) →
        TableAcceptsOnly (IsFitTable view tables) (answer_to_datastore_delete_rows view tables found) }
    ensures datastore_info { (view : CallView) (tables : List ResourceTable) →
        TableAcceptsOnly (IsFitTable view tables) (answer_to_datastore_info view tables) }
{}

/// A reading accepts no change.
pub fn a_reading_accepts_nothing()
    ensures { (view : CallView) (tables : List ResourceTable) →
        TableAcceptsOnly (λ change. ⊥) (answer_to_datastore_info view tables) }
{}

/// A fit change keeps the tables consistent: they stay in order, the rows of each meet its schema, each foreign key
/// references a table whose key it names, and each reference finds its row. So such a change of consistent tables
/// meets what `Tables` requires. If the resources of a dataset that are kept break no reference, their tables stay
/// consistent too.
pub fn changes_keep_references()
    ensures kept { (view : CallView) (tables : List ResourceTable) (change : TableChange) → AreConsistent tables →
        IsFitTable view tables change → AreConsistent (changed_tables change tables) }
    ensures linked { (tables : List ResourceTable) → AreConsistent tables → AreLinked tables }
    ensures none { AreConsistent [] }
    ensures dropped { (tables : List ResourceTable) (dataset : List ℕ) (resources : List Resource)
        → AreConsistent tables →
        breaks_references (summaries_of tables) dataset resources ≡ false →
        AreConsistent (tables_kept dataset resources tables) }
{}

/// Consistent tables can be restored from their own list, and are restored as they are: the list is in order, and no
/// table keeps memory ready. What is restored from valid tables, whose schemas are described, is consistent.
pub fn consistent_tables_are_restored_as_they_are()
    ensures restorable { (tables : List ResourceTable) → AreConsistent tables → IsTrue (are_restorable tables) }
    ensures ordered { (tables : List ResourceTable) → AreConsistent tables → ascending table_cmp tables ≡ tables }
    ensures unready { (tables : List ResourceTable) → AreConsistent tables → map without_room tables ≡ tables }
    ensures consistent { (tables : List ResourceTable)
        → All (λ (t : ResourceTable). IsDescribed t.table.schema) tables
        → All (λ (t : ResourceTable). IsTable t.table.schema t.table.rows t.table.next_id) tables
        → IsTrue (are_restorable (map without_room tables)) →
        AreConsistent (ascending table_cmp (map without_room tables)) }
{}
