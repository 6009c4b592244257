//! Openings of a portal: over a keeper without rows, and over one that has the rows of a state.
ghost use Rattle.std.specs.Prelude.{◌≡◌, ◌≢◌, ◌≤◌, [], ◌∷◌, map, Err, IsTrue, IfErr, IfOk, IfSome, OnErr, IsErrOf, List};
ghost use Rattle.portal_base.specs.Outside.{Rose};
ghost use Rattle.portal_keeper.specs.Keeping.{KeepsRows, Shows};
ghost use Rattle.portal_keeper.specs.declared.change.Change.TheVariants.{Put};
ghost use Rattle.portal_keeper.specs.declared.row.KeptRow.{KeptRow};
ghost use Rattle.portal_state.specs.Opened.{is_opening, opened};
ghost use Rattle.org_roles.specs.Order.{membership_cmp};
ghost use Rattle.portal_base.specs.Ordered.{IsAscending};
ghost use Rattle.portal_rows.specs.OrgRows.{org_rows};
ghost use Rattle.portal_rows.specs.VersionRow.{version_row};
ghost use Rattle.portal_state.specs.State.{State};
ghost use Rattle.portal_state.specs.Values.{IsStateOf};
ghost use Rattle.portal_state.specs.Parts.{IsConsistent, state_of};
ghost use Rattle.portal_state.specs.PortalValue.{AreKept, AreOfNoState, IsOpenedOver, IsReopened};
ghost use Rattle.portal_state.specs.declared.opening.OpenFault.TheVariants.{BadRows};

use crate::restored::parts_of_rows;
use datastore_answers::tables::Tables;
use harvest_stages::Stages;
use org_roles::people::People;
use packages::shelf::Shelf;
use portal_base::copy::TryClone;
use portal_base::seq::Seq;
use portal_keeper::change::Change;
use portal_keeper::keeper::Keeper;
use portal_keeper::row::KeptRow;
use portal_rows::orgs::org_rows;
use portal_rows::version::version_row;
use portal_state::indexes::Indexes;
use portal_state::opening::{OpenFault, Opening};
use portal_state::parts::Parts;
use portal_state::quota::QuotaLedger;
use std::alloc::{AllocError, Global};

/// The parts of a portal over the keeper: those of the opening, if the keeper has no rows, and else those of the state
/// whose rows it has.
pub(crate) fn opened_parts<K: Keeper>(
    alloc: Global,
    keeper: &mut K,
    opening: &Opening,
) -> Result<Parts, OpenFault>
    requires { IsTrue (is_opening opening.now) }
    ensures kept { IfOk result (AreKept (K.rows keeper.new)) }
    ensures opened { IfOk result
        (λ parts. IfSome (K.rows keeper.old) (λ rows. IsOpenedOver opening.now rows (state_of parts))) }
    ensures bad_rows { IfErr result (λ fault. (rows : List KeptRow) → fault ≡ BadRows rows →
        Shows (K.rows keeper.old) rows × Shows (K.rows keeper.new) rows × AreOfNoState rows) }
    ensures refused { OnErr result (IfSome (K.rows keeper.old) (λ rows. Shows (K.rows keeper.new) rows)) }
    ensures failed { IsErrOf result OpenFault.Keeper → Rose (K.faults keeper.old) (K.faults keeper.new) }
    ensures counts { K.faults keeper.old ≤ K.faults keeper.new }
{
    let rows = keeper.load(alloc)?;
    if rows.is_empty() {
        begin(alloc, keeper, opening)
    } else {
        resume(alloc, opening, rows)
    }
}

/// The parts of the opening, whose rows the keeper gets. It has none before.
fn begin<K: Keeper>(alloc: Global, keeper: &mut K, opening: &Opening) -> Result<Parts, OpenFault>
    requires opening { IsTrue (is_opening opening.now) }
    requires empty { Shows (K.rows keeper.old) [] }
    ensures kept { IfOk result (AreKept (K.rows keeper.new)) }
    ensures opened { IfOk result (λ parts. state_of parts ≡ opened opening.now) }
    ensures fault { IfErr result (λ fault. (rows : List KeptRow) → fault ≡ BadRows rows → ⊥) }
    ensures refused { OnErr result (KeepsRows (K.rows keeper.old) (K.rows keeper.new)) }
    ensures failed { IsErrOf result OpenFault.Keeper → Rose (K.faults keeper.old) (K.faults keeper.new) }
    ensures counts { K.faults keeper.old ≤ K.faults keeper.new }
{
    let parts = parts_of_opening(alloc, opening)?;
    let puts = puts_of_people(alloc, &parts.people)?;
    keeper.apply(alloc, &puts)?;
    Ok(parts)
}

/// The parts with the users, organizations and roles of the opening, and no dataset.
fn parts_of_opening(alloc: Global, opening: &Opening) -> Result<Parts, AllocError>
    requires { IsTrue (is_opening opening.now) }
    ensures state { IfOk result (λ parts. state_of parts ≡ opened opening.now) }
    ensures consistent { IfOk result IsConsistent }
{
    let users = opening.users.try_clone(alloc)?;
    let orgs = opening.orgs.try_clone(alloc)?;
    let roles = opening.roles.try_clone(alloc)?;
    Ok(Parts {
        people: People::of_lists(users, orgs, roles),
        shelf: Shelf::new(alloc),
        indexes: Indexes::new(alloc),
        tables: Tables::new(alloc),
        sources: Stages::new(alloc),
        quota_used: QuotaLedger::new(alloc),
    })
}

/// The changes that put the row of the version, and the rows of the organizations.
fn puts_of_people(alloc: Global, people: &People) -> Result<Seq<Change>, AllocError>
    requires { IsAscending membership_cmp people.now.people.roles }
    ensures { IfOk result (λ puts. puts ≡ map Put (version_row ∷ org_rows people.now.people)) }
{
    let rows = org_rows(alloc, people)?.into_vec();
    let mut puts = Vec::with_capacity(alloc, rows.len())?;
    puts.push(Change::Put(version_row()))?;
    for row in rows {
        puts.push(Change::Put(row))?;
    }
    Ok(Seq::from(puts))
}

/// The parts of the state that has these rows, with the users of the opening.
fn resume(alloc: Global, opening: &Opening, rows: Seq<KeptRow>) -> Result<Parts, OpenFault>
    requires { IsTrue (is_opening opening.now) }
    ensures consistent { IfOk result IsConsistent }
    ensures opened { IfOk result (λ parts. IsReopened opening.now rows (state_of parts)) }
    ensures bad_rows { IfErr result (λ fault. (bad : List KeptRow) → fault ≡ BadRows bad →
        (bad ≡ rows) × ((state : State) → IsStateOf rows state → ⊥)) }
    ensures others { result ≢ Err OpenFault.Keeper }
{
    let users = opening.users.try_clone(alloc)?;
    match parts_of_rows(alloc, users, &rows)? {
        Some(parts) => Ok(parts),
        None => Err(OpenFault::BadRows(rows)),
    }
}
