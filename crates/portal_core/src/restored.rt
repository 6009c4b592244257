//! A portal's parts that are read back from the rows of a store.
ghost use Rattle.std.specs.Prelude.{◌≡◌, ◌++◌, ◌↔◌, ◌≤◌, ◌<◌, [], All, IfNone, IfOk, IfSome, IsTrue, Some, length, nat_lt};
ghost use Rattle.std.specs.Prelude.{position, slice_get};
ghost use Rattle.org_roles.specs.Distinct.{have_distinct_names};
ghost use Rattle.org_roles.specs.Order.{user_cmp};
ghost use Rattle.portal_base.specs.Ordered.{ascending};
ghost use Rattle.harvest_rows.specs.KeptHarvests.{AreKeptHarvests};
ghost use Rattle.harvest_rows.specs.declared.kept_harvests.KeptHarvests.{KeptHarvests};
ghost use Rattle.harvest_stages.specs.AtRest.{IsAtRest};
ghost use Rattle.portal_keeper.specs.Rows.{kind_number};
ghost use Rattle.portal_keeper.specs.declared.row.RowKind.TheVariants.{Row};
ghost use Rattle.portal_rows.specs.KeptValues.{AreKeptValues};
ghost use Rattle.portal_rows.specs.declared.kept_values.KeptValues.{KeptValues};
ghost use Rattle.portal_state.specs.Parts.{IsConsistent, state_of};
ghost use Rattle.portal_state.specs.State.{State};
ghost use Rattle.portal_state.specs.Typed.{IsTyped};
ghost use Rattle.portal_state.specs.Valid.{IsValid};
ghost use Rattle.portal_state.specs.Values.{AreRowsOf, IsStateOf, harvests_of, values_of};

use crate::restored_datasets::indexed_shelf_of_values;
use crate::restored_people::people_of_values;
use crate::restored_sources::sources_of_values;
use crate::restored_tables::tables_of_values;
use harvest_rows::kept_harvests::{KeptHarvests, read_rows as read_harvests};
use org_roles::entry::User;
use portal_base::seq::Seq;
use portal_keeper::row::{KeptRow, RowKind};
use portal_rows::kept_values::{KeptValues, read_rows as read_values};
use portal_state::parts::Parts;
use portal_state::quota::QuotaLedger;
use std::alloc::{AllocError, Global};

/// The parts of the state at rest that has these values, with these users and nothing charged to a quota. The result is
/// `None` exactly if no valid state has these values. The values are moved: only the id of its dataset is copied for each
/// table.
pub(crate) fn parts_of_values(
    alloc: Global,
    users: Seq<User>,
    values: KeptValues,
    harvests: KeptHarvests,
) -> Result<Option<Parts>, AllocError>
    requires users { IsTrue (have_distinct_names users) }
    requires values { AreKeptValues values }
    requires harvests { AreKeptHarvests harvests }
    ensures consistent { IfOk result (λ found. IfSome found IsConsistent) }
    ensures values { IfOk result (λ found. IfSome found (λ parts. values_of (state_of parts) ≡ values)) }
    ensures harvests { IfOk result (λ found. IfSome found (λ parts. harvests_of (state_of parts) ≡ harvests)) }
    ensures typed { IfOk result (λ found. IfSome found (λ parts. IsTyped (state_of parts))) }
    ensures rest { IfOk result (λ found. IfSome found (λ parts. All IsAtRest (state_of parts).sources)) }
    ensures users { IfOk result (λ found. IfSome found (λ parts.
        (state_of parts).people.users ≡ ascending user_cmp users)) }
    ensures unused { IfOk result (λ found. IfSome found (λ parts. (state_of parts).quota_used ≡ [])) }
    ensures none { IfOk result (λ found. IfNone found
        ((state : State) → IsValid state → IsTyped state → values_of state ≡ values →
        harvests_of state ≡ harvests → ⊥)) }
{
    let KeptValues {
        orgs,
        datasets,
        tables,
    } = values;
    let Some(people) = people_of_values(alloc, users, orgs)? else {
        return Ok(None);
    };
    let Some(sources) = sources_of_values(alloc, &people, harvests)? else {
        return Ok(None);
    };
    let Some((shelf, indexes)) = indexed_shelf_of_values(alloc, &people, &sources, datasets)? else {
        return Ok(None);
    };
    match tables_of_values(alloc, &shelf, tables)? {
        Some(tables) => Ok(Some(Parts {
            people,
            shelf,
            indexes,
            tables,
            sources,
            quota_used: QuotaLedger::new(alloc),
        })),
        None => Ok(None),
    }
}

/// Reads a state's parts back from the rows of a store, with these users and nothing charged to a quota. The result is
/// `None` exactly if the rows are those of no state.
pub(crate) fn parts_of_rows(
    alloc: Global,
    users: Seq<User>,
    rows: &Seq<KeptRow>,
) -> Result<Option<Parts>, AllocError>
    requires { IsTrue (have_distinct_names users) }
    ensures consistent { IfOk result (λ found. IfSome found IsConsistent) }
    ensures rows { IfOk result (λ found. IfSome found (λ parts. IsStateOf rows.now (state_of parts))) }
    ensures users { IfOk result (λ found. IfSome found (λ parts.
        (state_of parts).people.users ≡ ascending user_cmp users)) }
    ensures rest { IfOk result (λ found. IfSome found (λ parts. All IsAtRest (state_of parts).sources)) }
    ensures unused { IfOk result (λ found. IfSome found (λ parts. (state_of parts).quota_used ≡ [])) }
    ensures none { IfOk result (λ found. IfNone found ((state : State) → IsStateOf rows.now state → ⊥)) }
{
    match read_rows(alloc, rows.as_slice())? {
        Some((values, harvests)) => parts_of_values(alloc, users, values, harvests),
        None => Ok(None),
    }
}

/// Reads all rows of a store. The result is some values exactly if the rows are those of these values.
fn read_rows(
    alloc: Global,
    rows: &[KeptRow],
) -> Result<Option<(KeptValues, KeptHarvests)>, AllocError>
    ensures { IfOk result (λ found. (values : KeptValues) (harvests : KeptHarvests) →
        (found ≡ Some (values, harvests)) ↔ AreRowsOf values harvests rows.now) }
{
    let (front, back) = split_before_sources(rows);
    let Some(values) = read_values(alloc, front)? else {
        return Ok(None);
    };
    match read_harvests(alloc, back)? {
        Some(harvests) => Ok(Some((values, harvests))),
        None => Ok(None),
    }
}

/// The rows before the first one of a source or a job, and the others.
fn split_before_sources(rows: &[KeptRow]) -> (&[KeptRow], &[KeptRow])
    ensures whole { result.0.now ++ result.1.now ≡ rows.now }
    ensures front { All (λ row. kind_number row.kind ≤ kind_number Row) result.0.now }
    ensures back { IfSome (slice_get result.1.now 0) (λ row. kind_number Row < kind_number row.kind) }
{
    match first_of_harvests(rows) {
        Some(index) => rows.split_at(index),
        None => (rows, &[]),
    }
}

/// The index of the first row of a source or a job.
fn first_of_harvests(rows: &[KeptRow]) -> Option<usize>
    ensures index { result ≡ position (λ row. nat_lt (kind_number Row) (kind_number row.kind)) rows.now }
    ensures within { IfSome result (λ index. index < length rows.now) }
{
    rows.iter().position(|row| is_of_harvest(row))
}

/// Whether it is the row of a source or a job.
fn is_of_harvest(row: &KeptRow) -> bool
    ensures { result ≡ nat_lt (kind_number Row) (kind_number row.now.kind) }
{
    matches!(row.kind, RowKind::Source | RowKind::Job)
}
