//! The answers to calls that create a table or put records into an existing one.
ghost use Rattle.std.specs.Prelude.{◌≡◌, [], codes, IfOk, IsSome, IsTrue, None, Ok, Some};
ghost use Rattle.std.specs.List.{list_all};
ghost use Rattle.std.specs.Result.{result_map_both};
ghost use Rattle.packages.specs.LocatedResource.{located_now};
ghost use Rattle.portal_base.specs.KeyErrors.{error_if};
ghost use Rattle.portal_calls.specs.Answer.{AcceptsOnly, answer_if_valid, denial_of, quota_error};
ghost use Rattle.portal_calls.specs.Stop.{Gives};
ghost use Rattle.table_schema.specs.Values.{is_map};
ghost use Rattle.visibility.specs.CallView.{context_view};
ghost use Rattle.datastore_answers.specs.Answers.{create_answer_for, authorized_create_answer};
ghost use Rattle.datastore_answers.specs.Answers.{create_answer, accepted_fill, id_of, accepted_create};
ghost use Rattle.datastore_answers.specs.Changed.{put_into};
ghost use Rattle.datastore_answers.specs.Described.{described_table};
ghost use Rattle.datastore_answers.specs.Dictionary.{create_dictionary};
ghost use Rattle.datastore_answers.specs.Linked.{put_among};
ghost use Rattle.datastore_answers.specs.Plan.{IsPlanned, PlansAnswer};
ghost use Rattle.datastore_answers.specs.Tables.{Stored, without_room, table_at, tables_in, tables_of};
ghost use Rattle.datastore_answers.specs.Errors.{put_error, error_of};
ghost use Rattle.datastore_answers.specs.declared.resource_table.ResourceTable.{ResourceTable};

use crate::answers::{answer_put, refuse_at};
use crate::described::{described_new, existing_table_errors};
use crate::dictionary::create_json;
use crate::errors::{fault_text, read_records};
use crate::lookup::id_of;
use crate::plan::TablePlan;
use crate::resource_table::ResourceTable;
use crate::tables::Tables;
use datastore_table::{Method, TableFault};
use packages::named::LocatedResource;
use portal_base::json_value::Json;
use portal_base::key_errors::KeyErrors;
use portal_base::seq::Seq;
use portal_base::text::Text;
use portal_calls::answer::{Answer, Denial, Quota, Right};
use portal_calls::stop::{Stop, authorize, validate_change};
use std::alloc::{AllocError, Global};
use visibility::context::CallContext;

// ---- refusals

// The refusal of a body that describes no table. It reports the records' error and the used up quota too.
fn refuse_description(
    quota: Quota,
    errors: KeyErrors,
    records: Result<&Seq<Json>, Text>,
) -> Result<Denial, AllocError>
    ensures { IfOk result (λ denial. denial ≡ Denial.Validation (error_if (codes "body") (quota_error quota)
        (error_if (codes "records") (error_of records.entry) errors))) }
{
    let mut errors = errors;
    if let Err(message) = records {
        errors.add_error(Text::from_static("records"), message)?;
    }
    if quota == Quota::UsedUp {
        let message = Text::from_static("Quota of accepted bytes is used up");
        errors.add_error(Text::from_static("body"), message)?;
    }
    Ok(Denial::Validation(errors.into_list()))
}

// ---- a new table

// The new table with the records in it. It refuses records that the table refuses.
fn fill(
    alloc: Global,
    quota: Quota,
    tables: &Tables,
    table: ResourceTable,
    records: &Seq<Json>,
) -> Result<ResourceTable, Stop>
    requires maps { IsTrue (list_all is_map records.now) }
    requires empty { table.table.rows ≡ [] }
    ensures table { IfOk result (λ t.
        without_room t ≡ put_into Method.Insert records.now (without_room table)) }
    ensures valid { Gives result (λ t. None) Some
        (denial_of (error_if (codes "body") (quota_error quota) (error_if (codes "records")
        (put_error (put_among (tables_in table.address.dataset (tables_of tables.now)) Method.Insert records.now
        (without_room table))) []))) }
{
    match tables.filled(table, records) {
        Ok(table) => {
            validate_change(quota, KeyErrors::new(alloc))?;
            Ok(table)
        }
        Err(TableFault::OutOfMemory) => Err(Stop::OutOfMemory),
        Err(fault) => {
            let message = fault_text(alloc, &fault)?;
            Err(Stop::Refused(refuse_at(alloc, quota, "records", message)?))
        }
    }
}

// The answer to records for a new table of a resource that the caller may edit.
fn answer_new_table_with(
    alloc: Global,
    quota: Quota,
    placed: &LocatedResource<'_>,
    tables: &Tables,
    table: ResourceTable,
    records: &Seq<Json>,
) -> Result<Answer<TablePlan>, Stop>
    requires maps { IsTrue (list_all is_map records.now) }
    requires empty { table.table.rows ≡ [] }
    ensures answer { PlansAnswer result (answer_if_valid quota (error_if (codes "records")
        (put_error (put_among (tables_in table.address.dataset (tables_of tables.now)) Method.Insert records.now
        (without_room table))) [])
        (accepted_create (located_now placed.now) records.now (without_room table))) }
    ensures ready { IfOk result (λ answer. (stored : Stored) → AcceptsOnly (λ plan. IsPlanned plan stored) answer) }
{
    let shown = create_json(alloc, id_of(alloc, placed)?, table.table.schema())?;
    let table = fill(alloc, quota, tables, table, records)?;
    Ok(Answer::Accepted(shown, TablePlan::Create(table)))
}

// The answer if the resource has no table.
fn answer_new_table(
    alloc: Global,
    context: &CallContext<'_>,
    placed: &LocatedResource<'_>,
    tables: &Tables,
    records: Result<&Seq<Json>, Text>,
) -> Result<Answer<TablePlan>, Stop>
    requires maps { IfOk records (λ records. IsTrue (list_all is_map records.now)) }
    ensures answer { PlansAnswer result (create_answer_for context.now.quota
        (tables_in placed.now.dataset.now.id (tables_of tables.now)) (accepted_create (located_now placed.now))
        (described_table (located_now placed.now) (tables_in placed.now.dataset.now.id (tables_of tables.now))
        context.now.call.now.request.body None)
        (result_map_both (λ records. records.now) (λ message. message) records.entry)) }
    ensures ready { IfOk result (λ answer. (stored : Stored) → AcceptsOnly (λ plan. IsPlanned plan stored) answer) }
{
    let quota = context.quota;
    let table = match described_new(alloc, placed, tables, &context.call.request.body)? {
        Ok(table) => table,
        Err(errors) => return Err(Stop::Refused(refuse_description(quota, errors, records)?)),
    };
    match records {
        Ok(records) => answer_new_table_with(alloc, quota, placed, tables, table, records),
        Err(message) => Err(Stop::Refused(refuse_at(alloc, quota, "records", message)?)),
    }
}

// ---- an existing table

// The answer if the resource has a table that agrees with the body. If the records are accepted, the reply shows
// `shown`.
fn answer_existing_table(
    alloc: Global,
    quota: Quota,
    placed: &LocatedResource<'_>,
    tables: &mut Tables,
    shown: Json,
    records: Result<&Seq<Json>, Text>,
) -> Result<Answer<TablePlan>, Stop>
    requires exists { IsSome (table_at placed.now.resource.now.number
        (tables_in placed.now.dataset.now.id (tables_of tables.old))) }
    requires maps { IfOk records (λ records. IsTrue (list_all is_map records.now)) }
    ensures same { tables_of tables.new ≡ tables_of tables.old }
    ensures answer { (t : ResourceTable) →
        table_at placed.now.resource.now.number (tables_in placed.now.dataset.now.id (tables_of tables.old)) ≡ Some t
        → shown ≡ create_dictionary (id_of (located_now placed.now)) t.table.schema
        → PlansAnswer result (create_answer_for quota (tables_in placed.now.dataset.now.id (tables_of tables.old))
        (accepted_fill (located_now placed.now)) (Ok t)
        (result_map_both (λ records. records.now) (λ message. message) records.entry)) }
    ensures ready { IfOk result (λ answer. AcceptsOnly (λ plan. IsPlanned plan tables.new) answer) }
{
    match records {
        Ok(records) => answer_put(alloc, quota, placed, tables, Method::Insert, records, shown),
        Err(message) => Err(Stop::Refused(refuse_at(alloc, quota, "records", message)?)),
    }
}

/// The answer to a `datastore_create` on a resource that the caller may edit, given the records or their error.
fn answer_authorized_create(
    alloc: Global,
    context: &CallContext<'_>,
    placed: &LocatedResource<'_>,
    tables: &mut Tables,
    records: Result<&Seq<Json>, Text>,
) -> Result<Answer<TablePlan>, Stop>
    requires maps { IfOk records (λ records. IsTrue (list_all is_map records.now)) }
    ensures same { tables_of tables.new ≡ tables_of tables.old }
    ensures answer { PlansAnswer result (authorized_create_answer context.now.quota (located_now placed.now)
        (tables_in placed.now.dataset.now.id (tables_of tables.old)) context.now.call.now.request.body
        (result_map_both (λ records. records.now) (λ message. message) records.entry)
        (table_at placed.now.resource.now.number (tables_in placed.now.dataset.now.id (tables_of tables.old)))) }
    ensures ready { IfOk result (λ answer. AcceptsOnly (λ plan. IsPlanned plan tables.new) answer) }
{
    match tables.get(&placed.dataset.id, placed.resource.number) {
        Some(table) => {
            let schema = table.table.schema();
            let errors = existing_table_errors(alloc, schema, &context.call.request.body)?;
            if !errors.is_empty() {
                let denial = refuse_description(context.quota, errors, records)?;
                return Err(Stop::Refused(denial));
            }
            let shown = create_json(alloc, id_of(alloc, placed)?, schema)?;
            answer_existing_table(alloc, context.quota, placed, tables, shown, records)
        }
        None => answer_new_table(alloc, context, placed, tables, records),
    }
}

/// The answer to a `datastore_create` on the resource. It checks the right to edit the resource's dataset first.
pub(crate) fn answer_create(
    alloc: Global,
    context: &CallContext<'_>,
    placed: &LocatedResource<'_>,
    tables: &mut Tables,
) -> Result<Answer<TablePlan>, Stop>
    ensures same { tables_of tables.new ≡ tables_of tables.old }
    ensures answer { PlansAnswer result (create_answer (context_view context.now) (located_now placed.now)
        (tables_in placed.now.dataset.now.id (tables_of tables.old))
        (table_at placed.now.resource.now.number (tables_in placed.now.dataset.now.id (tables_of tables.old)))) }
    ensures ready { IfOk result (λ answer. AcceptsOnly (λ plan. IsPlanned plan tables.new) answer) }
{
    authorize(context.viewer.may_edit(placed.dataset), Right::EditDataset)?;
    let none = Seq::new(alloc);
    let records = read_records(alloc, &none, &context.call.request.body)?;
    answer_authorized_create(alloc, context, placed, tables, records)
}
