//! The organizations of a portal file, and the roles in them.
ghost use Rattle.std.specs.Prelude.{◌≡◌, pos, Some, None, IfOk, IsErrOf, IsTrue};
ghost use Rattle.org_roles.specs.Distinct.{have_distinct_pairs};
ghost use Rattle.portal_file.specs.File.{memberships_of};
ghost use Rattle.portal_file.specs.Opening.{AreConsistent};
ghost use Rattle.portal_file.specs.Tables.{named_role, no_orgs, one_org, org_in, org_of, orgs_in, orgs_of};
ghost use Rattle.portal_file.specs.Tables.{roles_in, roles_of};
ghost use Rattle.toml.specs.View.{items_view, table_view, view};

use crate::entries::{NamedRole, Orgs, push};
use crate::rule::TableFault;
use crate::tables::{text_at, text_or, value_at};
use org_roles::entry::Org;
use portal_base::moment::Moment;
use portal_base::seq::Seq;
use portal_base::text::Text;
use std::alloc::{AllocError, Global};
use toml::{Table, Value};

fn start_of_1970() -> Moment
    ensures { result ≡ pos 0 }
{
    Moment::from_seconds(0).unwrap()
}

fn org(alloc: Global, name: &str, title: &str, description: &str) -> Result<Org, AllocError>
    ensures { IfOk result (λ org. org ≡ record {
      name = name.now;
      title = title.now;
      description = description.now;
      created = pos 0;
    }) }
{
    Ok(Org {
        name: Text::from_str(alloc, name)?,
        title: Text::from_str(alloc, title)?,
        description: Text::from_str(alloc, description)?,
        created: start_of_1970(),
    })
}

/// The organization of a table.
fn org_in(alloc: Global, table: &Table) -> Result<Org, TableFault>
    ensures ok { IfOk result (λ org. org_in (table_view table.now) ≡ Some org) }
    ensures kind { IsErrOf result TableFault.Kind → org_in (table_view table.now) ≡ None }
{
    let Some(name) = text_at(table, "name") else {
        return Err(TableFault::Kind);
    };
    let Some(title) = text_or(table, "title", name) else {
        return Err(TableFault::Kind);
    };
    let Some(description) = text_or(table, "description", "") else {
        return Err(TableFault::Kind);
    };
    Ok(org(alloc, name, title, description)?)
}

fn named_role(alloc: Global, org: &str, user: &str, role: &str) -> Result<NamedRole, AllocError>
    ensures { IfOk result (λ named. named ≡ named_role org.now user.now role.now) }
{
    Ok(NamedRole {
        org: Text::from_str(alloc, org)?,
        user: Text::from_str(alloc, user)?,
        role: Text::from_str(alloc, role)?,
    })
}

/// The roles of an organization, by a table from user to role.
fn roles_of(alloc: Global, org: &str, table: &Table) -> Result<Seq<NamedRole>, TableFault>
    ensures ok { IfOk result (λ roles. roles_of org.now (table_view table.now) ≡ Some roles) }
    ensures kind { IsErrOf result TableFault.Kind → roles_of org.now (table_view table.now) ≡ None }
    ensures pairs { IfOk result (λ roles. IsTrue (have_distinct_pairs (memberships_of roles))) }
{
    let mut roles = Seq::new(alloc);
    for (user, value) in table {
        let Some(role) = value.as_str() else {
            return Err(TableFault::Kind);
        };
        push(&mut roles, named_role(alloc, org, user.as_str(), role)?)?;
    }
    Ok(roles)
}

/// The roles in the organization of this name.
fn roles_in(alloc: Global, org: &str, table: &Table) -> Result<Seq<NamedRole>, TableFault>
    ensures ok { IfOk result (λ roles. roles_in org.now (table_view table.now) ≡ Some roles) }
    ensures kind { IsErrOf result TableFault.Kind → roles_in org.now (table_view table.now) ≡ None }
    ensures pairs { IfOk result (λ roles. IsTrue (have_distinct_pairs (memberships_of roles))) }
{
    let Some(value) = value_at(table, "roles") else {
        return Ok(Seq::new(alloc));
    };
    match value.as_table() {
        Some(roles) => roles_of(alloc, org, roles),
        None => Err(TableFault::Kind),
    }
}

/// The organization of a table with its roles.
fn one_org(alloc: Global, table: &Table) -> Result<Orgs, TableFault>
    ensures ok { IfOk result (λ org. one_org (table_view table.now) ≡ Some org) }
    ensures kind { IsErrOf result TableFault.Kind → one_org (table_view table.now) ≡ None }
    ensures pairs { IfOk result AreConsistent }
{
    let org = org_in(alloc, table)?;
    let roles = roles_in(alloc, org.name.as_str(), table)?;
    let mut orgs = Seq::new(alloc);
    push(&mut orgs, org)?;
    Ok(Orgs { orgs, roles })
}

fn org_of(alloc: Global, value: &Value) -> Result<Orgs, TableFault>
    ensures ok { IfOk result (λ org. org_of (view value.now) ≡ Some org) }
    ensures kind { IsErrOf result TableFault.Kind → org_of (view value.now) ≡ None }
    ensures pairs { IfOk result AreConsistent }
{
    match value.as_table() {
        Some(table) => one_org(alloc, table),
        None => Err(TableFault::Kind),
    }
}

fn no_orgs(alloc: Global) -> Orgs
    ensures { result ≡ no_orgs }
{
    Orgs {
        orgs: Seq::new(alloc),
        roles: Seq::new(alloc),
    }
}

/// The organizations of a list of tables, in order.
fn orgs_of(alloc: Global, items: &[Value]) -> Result<Orgs, TableFault>
    ensures ok { IfOk result (λ orgs. orgs_of (items_view items.now) ≡ Some orgs) }
    ensures kind { IsErrOf result TableFault.Kind → orgs_of (items_view items.now) ≡ None }
    ensures pairs { IfOk result AreConsistent }
{
    let mut orgs = no_orgs(alloc);
    for value in items {
        let org = org_of(alloc, value)?;
        orgs = orgs.joined(org)?;
    }
    Ok(orgs)
}

/// The organizations of a file.
pub fn orgs_in(alloc: Global, file: &Table) -> Result<Orgs, TableFault>
    ensures ok { IfOk result (λ orgs. orgs_in (table_view file.now) ≡ Some orgs) }
    ensures kind { IsErrOf result TableFault.Kind → orgs_in (table_view file.now) ≡ None }
    ensures pairs { IfOk result AreConsistent }
{
    let Some(value) = value_at(file, "organization") else {
        return Ok(no_orgs(alloc));
    };
    match value.as_array() {
        Some(items) => orgs_of(alloc, items.as_slice()),
        None => Err(TableFault::Kind),
    }
}
