//! Deciding a call on the portal's parts: the caller's right and the rules. It reads the parts and changes nothing.
ghost use Rattle.std.specs.Prelude.{◌≡◌, IfOk, IsTrue, Result};
ghost use Rattle.packages.specs.Shelf.{datasets_of};
ghost use Rattle.portal_base.specs.declared.json_value.Json.{Json};
ghost use Rattle.facets.specs.Counters.{class_count};
ghost use Rattle.facets.specs.declared.field.FacetField.TheVariants.{Organization};
ghost use Rattle.visibility.specs.declared.class.Class.TheVariants.{Public};
ghost use Rattle.visibility.specs.TableSummary.{summaries_seen};
ghost use Rattle.datastore_answers.specs.Summaries.{summaries_of};
ghost use Rattle.organization_answers.specs.Dictionary.{AreCountsOf};
ghost use Rattle.harvest_answers.specs.View.{sources_seen};
ghost use Rattle.harvest_sources.specs.declared.change.SourceChange.{SourceChange};
ghost use Rattle.harvest_stages.specs.Stages.{sources_in};
ghost use Rattle.portal_calls.specs.Answer.{AcceptsOnly, answer_if_found};
ghost use Rattle.portal_calls.specs.Stop.{Finds};
ghost use Rattle.portal_calls.specs.declared.answer.Answer.TheVariants.{Shown};
ghost use Rattle.portal_calls.specs.declared.answer.Denial.{Denial};
ghost use Rattle.portal_calls.specs.Topic.{topic_of};
ghost use Rattle.datastore_answers.specs.TableAnswers.{TableAcceptsOnly, map_answer, map_table_answer};
ghost use Rattle.datastore_answers.specs.Changed.{TableChange};
ghost use Rattle.datastore_answers.specs.Plan as table;
ghost use Rattle.datastore_answers.specs.Plan.{change_of as table_change};
ghost use Rattle.datastore_answers.specs.Tables.{Stored, tables_of, tables_seen};
ghost use Rattle.portal_state.specs.Answer.{planned_answer, answer_on, quota_of, of_people, of_datasets, of_tables, of_sources};
ghost use Rattle.portal_state.specs.Planned.{planned_of};
ghost use Rattle.portal_state.specs.Parts.{IsConsistent, IsPlanned, IsPlannedOn, state_of};
ghost use Rattle.portal_state.specs.Indexes.{IsIndexed};
ghost use Rattle.portal_state.specs.Search.{search_outcome};
ghost use Rattle.portal_state.specs.View.{view_of};
ghost use Rattle.visibility.specs.CallView.{context_view};

use crate::queries;
use crate::search::search;
use dataset_answers::answers as datasets;
use dataset_answers::change::DatasetChange;
use datastore_answers::answer::TableAnswer;
use datastore_answers::answers as tables;
use datastore_answers::plan::TablePlan;
use datastore_answers::tables::Tables;
use facets::laws::counters_give_the_public_counts;
use harvest_answers::answers as harvests;
use harvest_sources::SourceChange;
use harvest_stages::Stages;
use org_roles::change::OrgChange;
use organization_answers::answers as organizations;
use packages::shelf::Shelf;
use portal_base::json_value::Json;
use portal_base::steps::Steps;
use portal_calls::answer::{Answer, Denial, Kind, Quota};
use portal_calls::call::Call;
use portal_calls::stop::Stop;
use portal_calls::topic::Topic;
use portal_state::change::Plan;
use portal_state::indexes::Indexes;
use portal_state::parts::Parts;
use portal_state::quota::QUOTA;
use std::alloc::{AllocError, Global};
use std::marker::Brand;
use std::sync::ledger::{Blank, Ledger};
use visibility::context::CallContext;
use visibility::viewer::Viewer;

/// The answer to a call. It prepares a batch of records, since only that shows whether the table takes it. The state
/// stays the same.
#[tactic(auto, using(crate::proofs::Isolating::quota_seen))]
pub fn decide(alloc: Global, parts: &mut Parts, call: &Call) -> Result<Answer<Plan>, AllocError>
    requires { IsConsistent parts.old }
    ensures same { state_of parts.new ≡ state_of parts.old }
    ensures shelf { parts.new.shelf ≡ parts.old.shelf }
    ensures indexes { parts.new.indexes ≡ parts.old.indexes }
    ensures answer { IfOk result (λ answer. map_answer planned_of answer
        ≡ planned_answer call.now (view_of call.now.caller (state_of parts.old))) }
    ensures planned { IfOk result (AcceptsOnly (λ plan. IsPlanned plan parts.new)) }
{
    counters_give_the_public_counts();
    let quota = quota_of(parts, call);
    let context = CallContext {
        call,
        viewer: Viewer::new(&parts.people, &parts.shelf, &call.caller),
        quota,
    };
    answer(
        alloc,
        &context,
        &parts.shelf,
        &parts.indexes,
        &parts.sources,
        &mut parts.tables,
    )
}

/// Whether the call fits into its caller's quota of accepted bytes.
fn quota_of(parts: &Parts, call: &Call) -> Quota
    ensures { result ≡ quota_of call.now parts.now.quota_used.used }
{
    match parts.accepted_bytes_of(&call.caller).checked_add(call.size) {
        Some(bytes) if bytes <= QUOTA => Quota::Left,
        _ => Quota::UsedUp,
    }
}

/// The answer to a call, by the crate that answers its action.
#[tactic(auto, using(portal_state::proofs::TableViewing::held_there))]
fn answer(
    alloc: Global,
    context: &CallContext<'_>,
    shelf: &Shelf,
    indexes: &Indexes,
    sources: &Stages,
    tables: &mut Tables,
) -> Result<Answer<Plan>, AllocError>
    requires indexed { IsIndexed shelf.now indexes.now }
    requires shelf { context.now.viewer.datasets ≡ datasets_of shelf.now }
    requires counts { AreCountsOf (context_view context.now).datasets (λ org. class_count Public Organization org indexes.now.counters) }
    ensures same { tables_of tables.new ≡ tables_of tables.old }
    ensures answer { IfOk result (λ answer. map_answer planned_of answer
        ≡ answer_on (topic_of context.now.call.now.request.action) (context_view context.now)
        (tables_seen (context_view context.now).datasets (tables_of tables.old))
        (sources_seen context.now.viewer.caller context.now.viewer.people (sources_in sources.now))) }
    ensures planned { IfOk result (AcceptsOnly (λ plan. IsPlannedOn plan tables.new)) }
{
    match Topic::of(context.call.request.action) {
        Topic::Organizations(action) => on_people(organizations::answer(
            alloc,
            context,
            &indexes.counters,
            sources.sources(),
            action,
        )),
        Topic::Datasets(action) => on_datasets(datasets::answer(alloc, context, tables, action)),
        Topic::Search => on_search(answer_to_search(alloc, context, shelf, indexes, tables)),
        Topic::Tables(action) => on_tables(tables::answer(alloc, context, tables, action)),
        Topic::Queries(action) => on_tables(queries::answer(alloc, context, tables, action)),
        Topic::Harvests(action) => {
            on_sources(harvests::answer(alloc, action, context, sources.sources()))
        }
    }
}

/// The answer to a `package_search`.
fn answer_to_search(
    alloc: Global,
    context: &CallContext<'_>,
    shelf: &Shelf,
    indexes: &Indexes,
    tables: &Tables,
) -> Result<Json, Stop>
    requires indexed { IsIndexed shelf.now indexes.now }
    requires shelf { context.now.viewer.datasets ≡ datasets_of shelf.now }
    ensures { Finds result (λ json. json) (search_outcome context.now.call.now.request.body
        (context_view context.now).people (context_view context.now).datasets
        (summaries_seen (context_view context.now).datasets (summaries_of (tables_of tables.now)))) }
{
    search_over::<Brand>(Blank::new(1), alloc, context, shelf, indexes, tables)
}

/// The same, with steps that are counted from this blank.
fn search_over<L: Ledger>(
    blank: Blank,
    alloc: Global,
    context: &CallContext<'_>,
    shelf: &Shelf,
    indexes: &Indexes,
    tables: &Tables,
) -> Result<Json, Stop>
    requires name { blank.name ≡ L.name }
    requires parts { (blank.parts ≡ L.parts) × (blank.parts ≡ 1) }
    requires indexed { IsIndexed shelf.now indexes.now }
    requires shelf { context.now.viewer.datasets ≡ datasets_of shelf.now }
    ensures { Finds result (λ json. json) (search_outcome context.now.call.now.request.body
        (context_view context.now).people (context_view context.now).datasets
        (summaries_seen (context_view context.now).datasets (summaries_of (tables_of tables.now)))) }
{
    let mut steps = Steps::<L>::open(blank);
    let body = &context.call.request.body;
    search(
        alloc,
        &context.viewer,
        shelf,
        indexes,
        tables,
        body,
        &mut steps,
    )
}

/// The answer that shows what a search found, or its refusal, unless memory ran out.
fn on_search(outcome: Result<Json, Stop>) -> Result<Answer<Plan>, AllocError>
    ensures answer { (expected : Result Json Denial) → Finds outcome (λ json. json) expected →
        IfOk result (λ answer. map_answer planned_of answer ≡ answer_if_found expected Shown) }
    ensures planned { (stored : Stored) → IfOk result (AcceptsOnly (λ plan. IsPlannedOn plan stored)) }
{
    match outcome {
        Ok(json) => Ok(Answer::Shown(json)),
        Err(Stop::Refused(denial)) => Ok(Answer::Refused(denial)),
        Err(Stop::OutOfMemory) => Err(AllocError),
    }
}

/// An answer on organizations as one on the portal.
fn of_people(answer: Answer<OrgChange>) -> Answer<Plan>
    ensures answer { map_answer planned_of result ≡ of_people answer }
    ensures planned { (stored : Stored) → AcceptsOnly (λ plan. IsPlannedOn plan stored) result }
{
    match answer {
        Answer::Shown(json) => Answer::Shown(json),
        Answer::Refused(denial) => Answer::Refused(denial),
        Answer::Accepted(json, change) => Answer::Accepted(json, Plan::People(change)),
    }
}

/// An answer on datasets as one on the portal.
fn of_datasets(answer: Answer<DatasetChange>) -> Answer<Plan>
    ensures answer { map_answer planned_of result ≡ of_datasets answer }
    ensures planned { (stored : Stored) → AcceptsOnly (λ plan. IsPlannedOn plan stored) result }
{
    match answer {
        Answer::Shown(json) => Answer::Shown(json),
        Answer::Refused(denial) => Answer::Refused(denial),
        Answer::Accepted(json, change) => Answer::Accepted(json, Plan::Datasets(change)),
    }
}

/// An answer on tables as one on the portal. Where the resource has no table, the answer is `NotFound`.
fn of_tables(answer: TableAnswer<TablePlan>) -> Answer<Plan>
    ensures answer { map_answer planned_of result ≡ of_tables (map_table_answer table_change answer) }
    ensures planned { (stored : Stored) → TableAcceptsOnly (λ plan. table.IsPlanned plan stored) answer →
        AcceptsOnly (λ plan. IsPlannedOn plan stored) result }
{
    match answer {
        TableAnswer::NoTable => Answer::Refused(Denial::NotFound(Kind::Table)),
        TableAnswer::Answered(Answer::Shown(json)) => Answer::Shown(json),
        TableAnswer::Answered(Answer::Refused(denial)) => Answer::Refused(denial),
        TableAnswer::Answered(Answer::Accepted(json, plan)) => Answer::Accepted(
            json,
            Plan::Tables(plan),
        ),
    }
}

/// An answer on sources of harvests as one on the portal.
fn of_sources(answer: Answer<SourceChange>) -> Answer<Plan>
    ensures answer { map_answer planned_of result ≡ of_sources answer }
    ensures planned { (stored : Stored) → AcceptsOnly (λ plan. IsPlannedOn plan stored) result }
{
    match answer {
        Answer::Shown(json) => Answer::Shown(json),
        Answer::Refused(denial) => Answer::Refused(denial),
        Answer::Accepted(json, change) => Answer::Accepted(json, Plan::Sources(change)),
    }
}

/// An answer on organizations as one on the portal, unless memory ran out.
fn on_people(answer: Result<Answer<OrgChange>, AllocError>) -> Result<Answer<Plan>, AllocError>
    ensures answer { (expected : Answer OrgChange) → IfOk answer (λ given. given ≡ expected) →
        IfOk result (λ answer. map_answer planned_of answer ≡ of_people expected) }
    ensures planned { (stored : Stored) → IfOk result (AcceptsOnly (λ plan. IsPlannedOn plan stored)) }
{
    Ok(of_people(answer?))
}

/// An answer on datasets as one on the portal, unless memory ran out.
fn on_datasets(
    answer: Result<Answer<DatasetChange>, AllocError>,
) -> Result<Answer<Plan>, AllocError>
    ensures answer { (expected : Answer DatasetChange) → IfOk answer (λ given. given ≡ expected) →
        IfOk result (λ answer. map_answer planned_of answer ≡ of_datasets expected) }
    ensures planned { (stored : Stored) → IfOk result (AcceptsOnly (λ plan. IsPlannedOn plan stored)) }
{
    Ok(of_datasets(answer?))
}

/// An answer on tables as one on the portal, unless memory ran out.
fn on_tables(answer: Result<TableAnswer<TablePlan>, AllocError>) -> Result<Answer<Plan>, AllocError>
    ensures answer { (expected : TableAnswer TableChange) →
        IfOk answer (λ given. map_table_answer table_change given ≡ expected) →
        IfOk result (λ answer. map_answer planned_of answer ≡ of_tables expected) }
    ensures planned { (stored : Stored) →
        IfOk answer (TableAcceptsOnly (λ plan. table.IsPlanned plan stored)) →
        IfOk result (AcceptsOnly (λ plan. IsPlannedOn plan stored)) }
{
    Ok(of_tables(answer?))
}

/// An answer on sources of harvests as one on the portal, unless memory ran out.
fn on_sources(answer: Result<Answer<SourceChange>, AllocError>) -> Result<Answer<Plan>, AllocError>
    ensures answer { (expected : Answer SourceChange) → IfOk answer (λ given. given ≡ expected) →
        IfOk result (λ answer. map_answer planned_of answer ≡ of_sources expected) }
    ensures planned { (stored : Stored) → IfOk result (AcceptsOnly (λ plan. IsPlannedOn plan stored)) }
{
    Ok(of_sources(answer?))
}
