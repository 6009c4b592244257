//! The answers to calls on the tables of resources.
//!
//! Each function finds the resource and its table, checks the caller's right, reads the body and returns the change. A
//! refusal stops it. The answer is a function of the call and of the caller's view. A batch is prepared while the
//! answer is found, since only the table can say whether it accepts the batch. The tables stay unchanged.
ghost use Rattle.std.specs.Prelude.{◌≡◌, ◌≢◌, not, [], codes, IfOk, IsSome, IsTrue, None, Some};
ghost use Rattle.std.specs.List.{list_all};
ghost use Rattle.portal_base.specs.KeyErrors.{error_if};
ghost use Rattle.packages.specs.LocatedResource.{located_now};
ghost use Rattle.packages.specs.Errors.{message_unless};
ghost use Rattle.portal_calls.specs.Answer.{AcceptsOnly, answer_if_valid, denial_of, quota_error};
ghost use Rattle.portal_calls.specs.Stop.{Gives};
ghost use Rattle.portal_calls.specs.declared.answer.Answer.TheVariants.{Accepted};
ghost use Rattle.table_schema.specs.Values.{is_map};
ghost use Rattle.visibility.specs.CallView.{context_view};
ghost use Rattle.datastore_answers.specs.TableAnswers.{TableAcceptsOnly, address_of, map_answer, map_table_answer};
ghost use Rattle.datastore_answers.specs.Answers.{answer_to_action, answer_to_datastore_create};
ghost use Rattle.datastore_answers.specs.Answers.{answer_to_datastore_info, answer_to_datastore_upsert, accepted_put};
ghost use Rattle.datastore_answers.specs.Answers.{answer_to_datastore_delete, accepted_delete_rows, delete_rows_answer};
ghost use Rattle.datastore_answers.specs.Answers.{authorize_edit};
ghost use Rattle.datastore_answers.specs.Answers.{answer_to_datastore_delete_rows, accepted_remove, upsert_answer_for};
ghost use Rattle.datastore_answers.specs.Changed as change;
ghost use Rattle.datastore_answers.specs.Linked.{put_at};
ghost use Rattle.datastore_answers.specs.Plan.{IsRemovalReady, IsPlanned, IsPutReady, change_of};
ghost use Rattle.datastore_answers.specs.Plan.{PlansAnswer, PlansTableAnswer};
ghost use Rattle.datastore_answers.specs.Restrict.{delete_at};
ghost use Rattle.datastore_answers.specs.Tables.{Stored, table_at, tables_in, tables_of, tables_seen};
ghost use Rattle.datastore_answers.specs.Errors.{delete_rows_error, put_error, read_records, error_of, remove_errors};
ghost use Rattle.datastore_answers.specs.declared.resource_table.ResourceTable.{ResourceTable};

use crate::answer::{TableAnswer, table_answer_or_refusal};
use crate::creation::answer_create;
use crate::dictionary::{delete_json, delete_rows_json, info_json, upsert_json};
use crate::errors::{fault_text, read_method, read_records};
use crate::lookup::{address_of, id_of};
use crate::plan::TablePlan;
use crate::tables::Tables;
use datastore_table::{Batch, Method, Removal, TableFault};
use packages::named::LocatedResource;
use portal_base::json_value::Json;
use portal_base::key_errors::KeyErrors;
use portal_base::seq::Seq;
use portal_base::text::Text;
use portal_calls::answer::{Answer, Denial, Quota, Right, denial_with_quota};
use portal_calls::stop::{Stop, authorize, validate_change};
use portal_calls::topic::TableAction;
use std::alloc::{AllocError, Global};
use std::snapshot::Snapshot;
use visibility::context::CallContext;
use visibility::lookup::resource_at;

/// The answer to a call of this action. It prepares the change and leaves the tables unchanged.
pub fn answer(
    alloc: Global,
    context: &CallContext<'_>,
    tables: &mut Tables,
    action: TableAction,
) -> Result<TableAnswer<TablePlan>, AllocError>
    ensures same { tables_of tables.new ≡ tables_of tables.old }
    ensures answer { IfOk result (λ answer. map_table_answer change_of answer
        ≡ answer_to_action action (context_view context.now)
        (tables_seen (context_view context.now).datasets (tables_of tables.old))) }
    ensures ready { IfOk result (λ answer. TableAcceptsOnly (λ plan. IsPlanned plan tables.new) answer) }
{
    table_answer_or_refusal(answer_to_action(alloc, context, tables, action))
}

/// The answer to a call of this action, or the stop before it.
fn answer_to_action(
    alloc: Global,
    context: &CallContext<'_>,
    tables: &mut Tables,
    action: TableAction,
) -> Result<TableAnswer<TablePlan>, Stop>
    ensures same { tables_of tables.new ≡ tables_of tables.old }
    ensures answer { PlansTableAnswer result (answer_to_action action (context_view context.now)
        (tables_seen (context_view context.now).datasets (tables_of tables.old))) }
    ensures ready { IfOk result (λ answer. TableAcceptsOnly (λ plan. IsPlanned plan tables.new) answer) }
{
    match action {
        TableAction::DatastoreCreate => datastore_create(alloc, context, tables),
        TableAction::DatastoreUpsert => datastore_upsert(alloc, context, tables),
        TableAction::DatastoreInfo => datastore_info(alloc, context, tables),
    }
}

// ---- readings

/// The answer to a `datastore_info`.
fn datastore_info(
    alloc: Global,
    context: &CallContext<'_>,
    tables: &Tables,
) -> Result<TableAnswer<TablePlan>, Stop>
    ensures { PlansTableAnswer result (answer_to_datastore_info (context_view context.now)
        (tables_seen (context_view context.now).datasets (tables_of tables.now))) }
{
    let placed = resource_at(alloc, context, "id")?;
    match tables.get(&placed.dataset.id, placed.resource.number) {
        Some(table) => Ok(TableAnswer::Answered(Answer::Shown(info_json(alloc, table)?))),
        None => Ok(TableAnswer::NoTable),
    }
}

// ---- rules

/// The refusal for these errors.
pub(crate) fn refuse(quota: Quota, errors: KeyErrors) -> Result<Denial, AllocError>
    requires { errors ≢ [] }
    ensures { IfOk result (λ denial.
        Some denial ≡ denial_of (error_if (codes "body") (quota_error quota) errors)) }
{
    match denial_with_quota(quota, errors)? {
        Some(denial) => Ok(denial),
        None => unreachable!(),
    }
}

/// The refusal for an error at one key alone.
pub(crate) fn refuse_at(
    alloc: Global,
    quota: Quota,
    key: &'static str,
    message: Text,
) -> Result<Denial, AllocError>
    ensures { IfOk result (λ denial. Some denial
        ≡ denial_of (error_if (codes "body") (quota_error quota) (error_if key.now (Some message) []))) }
{
    let mut errors = KeyErrors::new(alloc);
    errors.add_error(Text::from_static(key), message)?;
    refuse(quota, errors)
}

// ---- new tables

/// The answer to a `datastore_create`. It prepares the change and leaves the tables unchanged.
fn datastore_create(
    alloc: Global,
    context: &CallContext<'_>,
    tables: &mut Tables,
) -> Result<TableAnswer<TablePlan>, Stop>
    ensures same { tables_of tables.new ≡ tables_of tables.old }
    ensures answer { PlansTableAnswer result (answer_to_datastore_create (context_view context.now)
        (tables_seen (context_view context.now).datasets (tables_of tables.old))) }
    ensures ready { IfOk result (λ answer. TableAcceptsOnly (λ plan. IsPlanned plan tables.new) answer) }
{
    let placed = resource_at(alloc, context, "resource_id")?;
    let answer = answer_create(alloc, context, &placed, tables)?;
    Ok(TableAnswer::Answered(answer))
}

// ---- rows that are put

/// Prepares a batch of records on the resource's table. It refuses records that the table refuses.
fn prepare_batch(
    alloc: Global,
    quota: Quota,
    placed: &LocatedResource<'_>,
    tables: &mut Tables,
    method: Method,
    records: &Seq<Json>,
) -> Result<Batch, Stop>
    requires exists { IsSome (table_at placed.now.resource.now.number
        (tables_in placed.now.dataset.now.id (tables_of tables.old))) }
    requires maps { IsTrue (list_all is_map records.now) }
    ensures same { tables_of tables.new ≡ tables_of tables.old }
    ensures valid { Gives result (λ batch. None) Some
        (denial_of (error_if (codes "body") (quota_error quota) (error_if (codes "records")
        (put_error (put_at (tables_in placed.now.dataset.now.id (tables_of tables.old))
        placed.now.resource.now.number method records.now)) []))) }
    ensures ready { IfOk result (λ batch.
        IsPutReady (address_of (located_now placed.now)) method records.now batch tables.new.tables) }
{
    match tables.batch(&placed.dataset.id, placed.resource.number, method, records) {
        Ok(batch) => {
            validate_change(quota, KeyErrors::new(alloc))?;
            Ok(batch)
        }
        Err(TableFault::OutOfMemory) => Err(Stop::OutOfMemory),
        Err(fault) => {
            let message = fault_text(alloc, &fault)?;
            Err(Stop::Refused(refuse_at(alloc, quota, "records", message)?))
        }
    }
}

/// The answer to records for the table of a resource that the caller may edit. If they are accepted, the reply shows
/// `shown`.
pub(crate) fn answer_put(
    alloc: Global,
    quota: Quota,
    placed: &LocatedResource<'_>,
    tables: &mut Tables,
    method: Method,
    records: &Seq<Json>,
    shown: Json,
) -> Result<Answer<TablePlan>, Stop>
    requires exists { IsSome (table_at placed.now.resource.now.number
        (tables_in placed.now.dataset.now.id (tables_of tables.old))) }
    requires maps { IsTrue (list_all is_map records.now) }
    ensures same { tables_of tables.new ≡ tables_of tables.old }
    ensures answer { PlansAnswer result (answer_if_valid quota (error_if (codes "records")
        (put_error (put_at (tables_in placed.now.dataset.now.id (tables_of tables.old))
        placed.now.resource.now.number method records.now)) [])
        (Accepted shown (change.Put (address_of (located_now placed.now)) method records.now))) }
    ensures ready { IfOk result (λ answer. AcceptsOnly (λ plan. IsPlanned plan tables.new) answer) }
{
    let batch = prepare_batch(alloc, quota, placed, tables, method, records)?;
    let address = address_of(alloc, placed)?;
    Ok(Answer::Accepted(
        shown,
        TablePlan::Put(address, method, Snapshot::of(records), batch),
    ))
}

/// The answer to a `datastore_upsert` of these records into the table of a resource that the caller may edit.
fn answer_authorized_upsert(
    alloc: Global,
    quota: Quota,
    placed: &LocatedResource<'_>,
    tables: &mut Tables,
    method: Method,
    records: &Seq<Json>,
) -> Result<Answer<TablePlan>, Stop>
    requires exists { IsSome (table_at placed.now.resource.now.number
        (tables_in placed.now.dataset.now.id (tables_of tables.old))) }
    requires maps { IsTrue (list_all is_map records.now) }
    ensures same { tables_of tables.new ≡ tables_of tables.old }
    ensures answer { PlansAnswer result (answer_if_valid quota (error_if (codes "records")
        (put_error (put_at (tables_in placed.now.dataset.now.id (tables_of tables.old))
        placed.now.resource.now.number method records.now)) [])
        (accepted_put (located_now placed.now) method records.now)) }
    ensures ready { IfOk result (λ answer. AcceptsOnly (λ plan. IsPlanned plan tables.new) answer) }
{
    let shown = upsert_json(alloc, id_of(alloc, placed)?, method, records)?;
    answer_put(alloc, quota, placed, tables, method, records, shown)
}

/// The refusal of a body whose method can't be read. It reports the records' error too.
fn refuse_method(
    alloc: Global,
    quota: Quota,
    message: Text,
    records: Result<&Seq<Json>, Text>,
) -> Result<Denial, AllocError>
    ensures { IfOk result (λ denial. Some denial ≡ denial_of (error_if (codes "body") (quota_error quota)
        (error_if (codes "records") (error_of records.entry) (error_if (codes "method") (Some message) [])))) }
{
    let mut errors = KeyErrors::new(alloc);
    errors.add_error(Text::from_static("method"), message)?;
    if let Err(message) = records {
        errors.add_error(Text::from_static("records"), message)?;
    }
    refuse(quota, errors)
}

/// The answer to a `datastore_upsert` on the resource's table, given the method or its error.
fn answer_upsert(
    alloc: Global,
    context: &CallContext<'_>,
    placed: &LocatedResource<'_>,
    tables: &mut Tables,
    method: Result<Method, Text>,
) -> Result<Answer<TablePlan>, Stop>
    requires exists { IsSome (table_at placed.now.resource.now.number
        (tables_in placed.now.dataset.now.id (tables_of tables.old))) }
    ensures same { tables_of tables.new ≡ tables_of tables.old }
    ensures answer { (t : ResourceTable) →
        table_at placed.now.resource.now.number (tables_in placed.now.dataset.now.id (tables_of tables.old)) ≡ Some t
        → PlansAnswer result (upsert_answer_for (context_view context.now) (located_now placed.now)
        (tables_in placed.now.dataset.now.id (tables_of tables.old)) t
        method (read_records context.now.call.now.request.body)) }
    ensures ready { IfOk result (λ answer. AcceptsOnly (λ plan. IsPlanned plan tables.new) answer) }
{
    authorize(context.viewer.may_edit(placed.dataset), Right::EditDataset)?;
    let quota = context.quota;
    let none = Seq::new(alloc);
    let records = read_records(alloc, &none, &context.call.request.body)?;
    match (method, records) {
        (Ok(method), Ok(records)) => {
            answer_authorized_upsert(alloc, quota, placed, tables, method, records)
        }
        (Ok(_method), Err(message)) => {
            Err(Stop::Refused(refuse_at(alloc, quota, "records", message)?))
        }
        (Err(message), records) => {
            Err(Stop::Refused(refuse_method(alloc, quota, message, records)?))
        }
    }
}

/// The answer to a `datastore_upsert`. It prepares the change and leaves the tables unchanged.
fn datastore_upsert(
    alloc: Global,
    context: &CallContext<'_>,
    tables: &mut Tables,
) -> Result<TableAnswer<TablePlan>, Stop>
    ensures same { tables_of tables.new ≡ tables_of tables.old }
    ensures answer { PlansTableAnswer result (answer_to_datastore_upsert (context_view context.now)
        (tables_seen (context_view context.now).datasets (tables_of tables.old))) }
    ensures ready { IfOk result (λ answer. TableAcceptsOnly (λ plan. IsPlanned plan tables.new) answer) }
{
    let placed = resource_at(alloc, context, "resource_id")?;
    match tables.get(&placed.dataset.id, placed.resource.number) {
        Some(table) => {
            let key = table.table.schema().key().as_slice();
            let method = read_method(alloc, key, &context.call.request.body)?;
            let answer = answer_upsert(alloc, context, &placed, tables, method)?;
            Ok(TableAnswer::Answered(answer))
        }
        None => Ok(TableAnswer::NoTable),
    }
}

// ---- tables that are deleted

/// The error of deleting a table that another table references.
fn referenced_error(referred: bool) -> Option<Text>
    ensures { result ≡ message_unless (not referred) (codes "A table of another resource refers to it") }
{
    if referred {
        Some(Text::from_static("A table of another resource refers to it"))
    } else {
        None
    }
}

/// The errors with this one, if there is one, under the key.
fn single_error(
    alloc: Global,
    key: &'static str,
    error: Option<Text>,
) -> Result<KeyErrors, AllocError>
    ensures { IfOk result (λ errors. errors ≡ error_if key.now error []) }
{
    let mut errors = KeyErrors::new(alloc);
    match error {
        Some(message) => {
            errors.add_error(Text::from_static(key), message)?;
            Ok(errors)
        }
        None => Ok(errors),
    }
}

/// The errors of deleting the resource's table.
fn remove_errors(
    alloc: Global,
    placed: &LocatedResource<'_>,
    tables: &Tables,
) -> Result<KeyErrors, AllocError>
    ensures { IfOk result (λ errors. errors
        ≡ remove_errors (tables_in placed.now.dataset.now.id (tables_of tables.now))
        placed.now.resource.now.number) }
{
    let referred = tables.is_referenced(&placed.dataset.id, placed.resource.number);
    single_error(alloc, "resource_id", referenced_error(referred))
}

/// The answer that deletes the resource's table.
fn accept_remove(
    alloc: Global,
    placed: &LocatedResource<'_>,
) -> Result<Answer<TablePlan>, AllocError>
    ensures answer { IfOk result (λ answer.
        map_answer change_of answer ≡ accepted_remove (located_now placed.now)) }
    ensures ready { IfOk result (λ answer. (stored : Stored) → AcceptsOnly (λ plan. IsPlanned plan stored) answer) }
{
    let shown = delete_json(alloc, id_of(alloc, placed)?)?;
    let address = address_of(alloc, placed)?;
    Ok(Answer::Accepted(shown, TablePlan::Remove(address)))
}

/// The answer to a `datastore_delete` without filters on the resource's table.
fn answer_delete(
    alloc: Global,
    context: &CallContext<'_>,
    placed: &LocatedResource<'_>,
    tables: &Tables,
) -> Result<Answer<TablePlan>, Stop>
    ensures answer { PlansAnswer result (authorize_edit (context_view context.now) (located_now placed.now)
        (answer_if_valid context.now.quota
        (remove_errors (tables_in placed.now.dataset.now.id (tables_of tables.now))
        placed.now.resource.now.number) (accepted_remove (located_now placed.now)))) }
    ensures ready { IfOk result (λ answer. AcceptsOnly (λ plan. IsPlanned plan tables.now) answer) }
{
    authorize(context.viewer.may_edit(placed.dataset), Right::EditDataset)?;
    validate_change(context.quota, remove_errors(alloc, placed, tables)?)?;
    Ok(accept_remove(alloc, placed)?)
}

/// The answer to a `datastore_delete` without filters.
pub fn datastore_delete(
    alloc: Global,
    context: &CallContext<'_>,
    tables: &Tables,
) -> Result<TableAnswer<TablePlan>, AllocError>
    ensures answer { IfOk result (λ answer. map_table_answer change_of answer
        ≡ answer_to_datastore_delete (context_view context.now)
        (tables_seen (context_view context.now).datasets (tables_of tables.now))) }
    ensures ready { IfOk result (λ answer. TableAcceptsOnly (λ plan. IsPlanned plan tables.now) answer) }
{
    table_answer_or_refusal(answer_to_datastore_delete(alloc, context, tables))
}

/// The same, or the stop before it.
fn answer_to_datastore_delete(
    alloc: Global,
    context: &CallContext<'_>,
    tables: &Tables,
) -> Result<TableAnswer<TablePlan>, Stop>
    ensures answer { PlansTableAnswer result (answer_to_datastore_delete (context_view context.now)
        (tables_seen (context_view context.now).datasets (tables_of tables.now))) }
    ensures ready { IfOk result (λ answer. TableAcceptsOnly (λ plan. IsPlanned plan tables.now) answer) }
{
    let placed = resource_at(alloc, context, "resource_id")?;
    match tables.get(&placed.dataset.id, placed.resource.number) {
        Some(_table) => {
            let answer = answer_delete(alloc, context, &placed, tables)?;
            Ok(TableAnswer::Answered(answer))
        }
        None => Ok(TableAnswer::NoTable),
    }
}

// ---- rows that are deleted

/// Prepares to delete rows from the resource's table. It refuses rows that other rows reference.
fn prepare_removal(
    alloc: Global,
    quota: Quota,
    placed: &LocatedResource<'_>,
    tables: &mut Tables,
    ids: &Seq<u64>,
) -> Result<Removal, Stop>
    requires exists { IsSome (table_at placed.now.resource.now.number
        (tables_in placed.now.dataset.now.id (tables_of tables.old))) }
    ensures same { tables_of tables.new ≡ tables_of tables.old }
    ensures valid { Gives result (λ removal. None) Some
        (denial_of (error_if (codes "body") (quota_error quota) (error_if (codes "filters")
        (delete_rows_error (delete_at (tables_in placed.now.dataset.now.id (tables_of tables.old))
        placed.now.resource.now.number ids.now)) []))) }
    ensures ids { IfOk result (λ removal. removal.ids ≡ ids.now) }
    ensures ready { IfOk result (λ removal.
        IsRemovalReady (address_of (located_now placed.now)) removal.ids tables.new.tables) }
{
    match tables.removal(&placed.dataset.id, placed.resource.number, ids) {
        Ok(removal) => {
            validate_change(quota, KeyErrors::new(alloc))?;
            Ok(removal)
        }
        Err(TableFault::OutOfMemory) => Err(Stop::OutOfMemory),
        Err(fault) => {
            let message = fault_text(alloc, &fault)?;
            Err(Stop::Refused(refuse_at(alloc, quota, "filters", message)?))
        }
    }
}

/// The answer to a deletion of these rows from the table of a resource that the caller may edit.
fn answer_authorized_delete_rows(
    alloc: Global,
    quota: Quota,
    placed: &LocatedResource<'_>,
    tables: &mut Tables,
    ids: &Seq<u64>,
) -> Result<Answer<TablePlan>, Stop>
    requires exists { IsSome (table_at placed.now.resource.now.number
        (tables_in placed.now.dataset.now.id (tables_of tables.old))) }
    ensures same { tables_of tables.new ≡ tables_of tables.old }
    ensures answer { PlansAnswer result (answer_if_valid quota (error_if (codes "filters")
        (delete_rows_error (delete_at (tables_in placed.now.dataset.now.id (tables_of tables.old))
        placed.now.resource.now.number ids.now)) [])
        (accepted_delete_rows (located_now placed.now) ids.now)) }
    ensures ready { IfOk result (λ answer. AcceptsOnly (λ plan. IsPlanned plan tables.new) answer) }
{
    let removal = prepare_removal(alloc, quota, placed, tables, ids)?;
    let shown = delete_rows_json(alloc, ids.len(), id_of(alloc, placed)?)?;
    let address = address_of(alloc, placed)?;
    Ok(Answer::Accepted(shown, TablePlan::DeleteRows(address, removal)))
}

/// The same for any caller, given the rows that the body's filters select or the filters' error. It checks the right
/// to edit the resource's dataset first.
fn answer_delete_rows(
    alloc: Global,
    context: &CallContext<'_>,
    placed: &LocatedResource<'_>,
    tables: &mut Tables,
    found: Result<Seq<u64>, Text>,
) -> Result<Answer<TablePlan>, Stop>
    requires exists { IsSome (table_at placed.now.resource.now.number
        (tables_in placed.now.dataset.now.id (tables_of tables.old))) }
    ensures same { tables_of tables.new ≡ tables_of tables.old }
    ensures answer { (t : ResourceTable) →
        table_at placed.now.resource.now.number (tables_in placed.now.dataset.now.id (tables_of tables.old)) ≡ Some t
        → PlansAnswer result (delete_rows_answer (context_view context.now) found (located_now placed.now)
        (tables_in placed.now.dataset.now.id (tables_of tables.old)) t) }
    ensures ready { IfOk result (λ answer. AcceptsOnly (λ plan. IsPlanned plan tables.new) answer) }
{
    authorize(context.viewer.may_edit(placed.dataset), Right::EditDataset)?;
    match found {
        Ok(ids) => answer_authorized_delete_rows(alloc, context.quota, placed, tables, &ids),
        Err(message) => { Err(Stop::Refused(refuse_at(alloc, context.quota, "filters", message)?)) }
    }
}

/// The answer to a `datastore_delete` with filters, given the rows that the filters select or the filters' error. It
/// prepares the change and leaves the tables unchanged.
pub fn datastore_delete_rows(
    alloc: Global,
    context: &CallContext<'_>,
    tables: &mut Tables,
    found: Result<Seq<u64>, Text>,
) -> Result<TableAnswer<TablePlan>, AllocError>
    ensures same { tables_of tables.new ≡ tables_of tables.old }
    ensures answer { IfOk result (λ answer. map_table_answer change_of answer
        ≡ answer_to_datastore_delete_rows (context_view context.now)
        (tables_seen (context_view context.now).datasets (tables_of tables.old)) found) }
    ensures ready { IfOk result (λ answer. TableAcceptsOnly (λ plan. IsPlanned plan tables.new) answer) }
{
    table_answer_or_refusal(answer_to_datastore_delete_rows(alloc, context, tables, found))
}

/// The same, or the stop before it.
fn answer_to_datastore_delete_rows(
    alloc: Global,
    context: &CallContext<'_>,
    tables: &mut Tables,
    found: Result<Seq<u64>, Text>,
) -> Result<TableAnswer<TablePlan>, Stop>
    ensures same { tables_of tables.new ≡ tables_of tables.old }
    ensures answer { PlansTableAnswer result (answer_to_datastore_delete_rows (context_view context.now)
        (tables_seen (context_view context.now).datasets (tables_of tables.old)) found) }
    ensures ready { IfOk result (λ answer. TableAcceptsOnly (λ plan. IsPlanned plan tables.new) answer) }
{
    let placed = resource_at(alloc, context, "resource_id")?;
    match tables.get(&placed.dataset.id, placed.resource.number) {
        Some(_table) => {
            let answer = answer_delete_rows(alloc, context, &placed, tables, found)?;
            Ok(TableAnswer::Answered(answer))
        }
        None => Ok(TableAnswer::NoTable),
    }
}
