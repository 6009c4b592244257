//! The answers to calls whose bodies hold a query of a table: `datastore_search`, and `datastore_delete`, which may
//! have filters.
ghost use Rattle.std.specs.Prelude.{◌≡◌, IfOk, IsTrue};
ghost use Rattle.packages.specs.LocatedResource.{located_now};
ghost use Rattle.portal_calls.specs.Stop.{Finds};
ghost use Rattle.table_schema.specs.Values.{is_map};
ghost use Rattle.datastore_query.specs.Query.{query_reading};
ghost use Rattle.visibility.specs.CallView.{context_view};
ghost use Rattle.visibility.specs.Visibility.{may_edit_in};
ghost use Rattle.datastore_answers.specs.Answers.{answer_to_datastore_delete_rows};
ghost use Rattle.datastore_answers.specs.TableAnswers.{TableAcceptsOnly, map_table_answer, tables_beside};
ghost use Rattle.datastore_answers.specs.Plan.{IsPlanned, PlansAnswer, PlansTableAnswer, change_of};
ghost use Rattle.datastore_answers.specs.Tables.{table_at, tables_of, tables_seen};
ghost use Rattle.portal_state.specs.Queries.{answer_to_datastore_delete, answer_to_datastore_search, answer_to_query};
ghost use Rattle.portal_state.specs.Queries.{filters_alone};
ghost use Rattle.portal_state.specs.Queries.{find_rows_of_resource, find_rows, query_for, rows_in_table, search_answer};

use crate::page::query_page;
use datastore_answers::answer::{TableAnswer, table_answer_or_refusal};
use datastore_answers::answers::{datastore_delete, datastore_delete_rows};
use datastore_answers::lookup::id_of;
use datastore_answers::plan::TablePlan;
use datastore_answers::tables::Tables;
use datastore_query::{Parts, Query, QueryFault};
use datastore_table::Table;
use packages::named::LocatedResource;
use portal_base::copy::TryClone;
use portal_base::json_value::Json;
use portal_base::key_errors::KeyErrors;
use portal_base::kinds::dictionary_at;
use portal_base::seq::Seq;
use portal_base::text::Text;
use portal_calls::answer::{Answer, Denial};
use portal_calls::stop::{Stop, validate};
use portal_calls::topic::QueryAction;
use portal_state::search_body::search_in;
use std::alloc::{AllocError, Global};
use visibility::context::CallContext;
use visibility::lookup::resource_at;

/// The answer to a call of this action. It prepares the change and leaves the tables unchanged.
pub(crate) fn answer(
    alloc: Global,
    context: &CallContext<'_>,
    tables: &mut Tables,
    action: QueryAction,
) -> Result<TableAnswer<TablePlan>, AllocError>
    ensures same { tables_of tables.new ≡ tables_of tables.old }
    ensures answer { IfOk result (λ answer. map_table_answer change_of answer
        ≡ answer_to_query action (context_view context.now)
        (tables_seen (context_view context.now).datasets (tables_of tables.old))) }
    ensures ready { IfOk result (λ answer. TableAcceptsOnly (λ plan. IsPlanned plan tables.new) answer) }
{
    table_answer_or_refusal(answer_to_query(alloc, context, tables, action))
}

/// The answer to a call of this action, or the stop before it.
fn answer_to_query(
    alloc: Global,
    context: &CallContext<'_>,
    tables: &mut Tables,
    action: QueryAction,
) -> Result<TableAnswer<TablePlan>, Stop>
    ensures same { tables_of tables.new ≡ tables_of tables.old }
    ensures answer { PlansTableAnswer result (answer_to_query action (context_view context.now)
        (tables_seen (context_view context.now).datasets (tables_of tables.old))) }
    ensures ready { IfOk result (λ answer. TableAcceptsOnly (λ plan. IsPlanned plan tables.new) answer) }
{
    match action {
        QueryAction::DatastoreSearch => datastore_search(alloc, context, tables),
        QueryAction::DatastoreDelete => datastore_delete_with_filters(alloc, context, tables),
    }
}

// ---- datastore_search

/// The query of the parts. It refuses parts that can't be read, with all errors, and a body with errors.
fn query_for(
    alloc: Global,
    mut faults: KeyErrors,
    table: &Table,
    parts: &Parts,
) -> Result<Query, Stop>
    requires { IsTrue (is_map parts.now.filters) }
    ensures { Finds result (λ query. query) (query_for (query_reading table.now.schema.fields parts.now) faults) }
{
    match Query::read(alloc, table, parts) {
        Ok(query) => {
            validate(faults)?;
            Ok(query)
        }
        Err(QueryFault::Fields(told)) => {
            faults.add_errors(told)?;
            Err(Stop::Refused(Denial::Validation(faults.into_list())))
        }
        Err(QueryFault::OutOfMemory) => Err(Stop::OutOfMemory),
    }
}

/// The answer with the page that a body asks for, of the table of the resource of that id.
fn search_answer(
    alloc: Global,
    body: &Json,
    id: Text,
    table: &Table,
) -> Result<Answer<TablePlan>, Stop>
    ensures { PlansAnswer result (search_answer body.now id table.now.schema.fields table.now.rows) }
{
    let mut faults = KeyErrors::new(alloc);
    let search = search_in(alloc, &mut faults, body)?;
    let query = query_for(alloc, faults, table, &search.parts)?;
    Ok(Answer::Shown(query_page(alloc, table, id, &search, &query)?))
}

/// The answer to a `datastore_search`.
fn datastore_search(
    alloc: Global,
    context: &CallContext<'_>,
    tables: &Tables,
) -> Result<TableAnswer<TablePlan>, Stop>
    ensures { PlansTableAnswer result (answer_to_datastore_search (context_view context.now)
        (tables_seen (context_view context.now).datasets (tables_of tables.now))) }
{
    let positioned = resource_at(alloc, context, "resource_id")?;
    match tables.get(&positioned.dataset.id, positioned.resource.number) {
        Some(table) => {
            let id = id_of(alloc, &positioned)?;
            let answer = search_answer(alloc, &context.call.request.body, id, &table.table)?;
            Ok(TableAnswer::Answered(answer))
        }
        None => Ok(TableAnswer::NoTable),
    }
}

// ---- datastore_delete

/// The parts of a query that only has filters.
fn filters_alone(alloc: Global, filters: &Seq<(Text, Json)>) -> Result<Parts, AllocError>
    ensures { IfOk result (λ parts. parts ≡ filters_alone filters.now) }
{
    Ok(Parts {
        filters: Json::Map(filters.try_clone(alloc)?),
        q: Text::from_static(""),
        distinct: false,
        fields: None,
        sort: Text::from_static(""),
        limit: 0,
        offset: 0,
    })
}

/// The ids of the table's rows that pass these filters, or the error of the filters.
fn find_rows(
    alloc: Global,
    filters: &Seq<(Text, Json)>,
    table: &Table,
) -> Result<Result<Seq<u64>, Text>, AllocError>
    ensures { IfOk result (λ found. found ≡ find_rows filters.now table.now.schema.fields table.now.rows) }
{
    let parts = filters_alone(alloc, filters)?;
    match Query::read(alloc, table, &parts) {
        Ok(query) => Ok(Ok(query.ids(alloc, table)?)),
        Err(QueryFault::Fields(told)) => match told.into_vec().pop() {
            Some((_filters, message)) => Ok(Err(message)),
            None => unreachable!(),
        },
        Err(QueryFault::OutOfMemory) => Err(AllocError),
    }
}

/// The same for the resource's table. There is no row where the resource has no table.
fn find_rows_at(
    alloc: Global,
    positioned: &LocatedResource<'_>,
    tables: &Tables,
    filters: &Seq<(Text, Json)>,
) -> Result<Result<Seq<u64>, Text>, AllocError>
    ensures { IfOk result (λ found. found ≡ rows_in_table filters.now
        (table_at positioned.now.resource.now.number
        (tables_beside (located_now positioned.now) (tables_of tables.now)))) }
{
    match tables.get(&positioned.dataset.id, positioned.resource.number) {
        Some(table) => find_rows(alloc, filters, &table.table),
        None => Ok(Ok(Seq::new(alloc))),
    }
}

/// The same, where the caller may edit the resource's dataset. Otherwise nothing is looked for, since the call is
/// refused.
fn find_rows_to_delete(
    alloc: Global,
    context: &CallContext<'_>,
    positioned: &LocatedResource<'_>,
    tables: &Tables,
    filters: &Seq<(Text, Json)>,
) -> Result<Result<Seq<u64>, Text>, AllocError>
    ensures { IfOk result (λ found.
        IsTrue (may_edit_in (context_view context.now).people context.now.viewer.caller positioned.now.dataset.now)
        → found ≡ rows_in_table filters.now (table_at positioned.now.resource.now.number
        (tables_beside (located_now positioned.now) (tables_of tables.now)))) }
{
    if context.viewer.may_edit(positioned.dataset) {
        find_rows_at(alloc, positioned, tables, filters)
    } else {
        Ok(Ok(Seq::new(alloc)))
    }
}

/// The answer to a `datastore_delete` of the rows that pass these filters.
fn delete_filtered(
    alloc: Global,
    context: &CallContext<'_>,
    tables: &mut Tables,
    filters: &Seq<(Text, Json)>,
) -> Result<TableAnswer<TablePlan>, Stop>
    ensures same { tables_of tables.new ≡ tables_of tables.old }
    ensures answer { PlansTableAnswer result (answer_to_datastore_delete_rows (context_view context.now)
        (tables_seen (context_view context.now).datasets (tables_of tables.old))
        (find_rows_of_resource (context_view context.now)
        (tables_seen (context_view context.now).datasets (tables_of tables.old)) filters.now)) }
    ensures ready { IfOk result (λ answer. TableAcceptsOnly (λ plan. IsPlanned plan tables.new) answer) }
{
    let positioned = resource_at(alloc, context, "resource_id")?;
    let found = find_rows_to_delete(alloc, context, &positioned, tables, filters)?;
    Ok(datastore_delete_rows(alloc, context, tables, found)?)
}

/// The answer to a `datastore_delete`. Without filters it drops the table, with filters the rows that pass them.
fn datastore_delete_with_filters(
    alloc: Global,
    context: &CallContext<'_>,
    tables: &mut Tables,
) -> Result<TableAnswer<TablePlan>, Stop>
    ensures same { tables_of tables.new ≡ tables_of tables.old }
    ensures answer { PlansTableAnswer result (answer_to_datastore_delete (context_view context.now)
        (tables_seen (context_view context.now).datasets (tables_of tables.old))) }
    ensures ready { IfOk result (λ answer. TableAcceptsOnly (λ plan. IsPlanned plan tables.new) answer) }
{
    match dictionary_at(&context.call.request.body, "filters") {
        Ok(None) => Ok(datastore_delete(alloc, context, tables)?),
        Ok(Some(filters)) => delete_filtered(alloc, context, tables, filters),
        Err(fault) => {
            let message = fault.message(alloc)?;
            Ok(datastore_delete_rows(alloc, context, tables, Err(message))?)
        }
    }
}
