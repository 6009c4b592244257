//! The users of a portal file.
ghost use Rattle.std.specs.Prelude.{◌≡◌, ◌++◌, Some, None, IfOk, IsErrOf, OnOk, option_map};
ghost use Rattle.std.specs.Option.{option_copied};
ghost use Rattle.portal_file.specs.Tables.{no_users, one_user, tokens_of, user_in, user_of, users_in, users_of};
ghost use Rattle.toml.specs.View.{items_view, table_view, view};

use crate::entries::{Users, push};
use crate::rule::TableFault;
use crate::tables::{optional_text, text_at, truth_at, value_at};
use org_roles::entry::User;
use portal_base::seq::Seq;
use portal_base::text::Text;
use std::alloc::{AllocError, Global};
use toml::{Table, Value};

/// The tokens of a user.
fn tokens_of(
    alloc: Global,
    name: &str,
    digest: Option<&str>,
) -> Result<Seq<(Text, Text)>, AllocError>
    ensures { IfOk result (λ tokens. tokens ≡ tokens_of name.now (option_copied digest.entry)) }
{
    let mut tokens = Seq::new(alloc);
    if let Some(digest) = digest {
        let name = Text::from_str(alloc, name)?;
        let digest = Text::from_str(alloc, digest)?;
        push(&mut tokens, (name, digest))?;
    }
    Ok(tokens)
}

/// One user, with their tokens.
fn one_user(
    alloc: Global,
    name: &str,
    sysadmin: bool,
    digest: Option<&str>,
) -> Result<Users, AllocError>
    ensures { IfOk result (λ users. users ≡ one_user name.now sysadmin (option_copied digest.entry)) }
{
    let mut users = Seq::new(alloc);
    let tokens = tokens_of(alloc, name, digest)?;
    let name = Text::from_str(alloc, name)?;
    push(&mut users, User { name, sysadmin })?;
    Ok(Users { users, tokens })
}

/// The user of a table.
fn user_in(alloc: Global, table: &Table) -> Result<Users, TableFault>
    ensures ok { IfOk result (λ user. user_in (table_view table.now) ≡ Some user) }
    ensures kind { IsErrOf result TableFault.Kind → user_in (table_view table.now) ≡ None }
{
    let Some(name) = text_at(table, "name") else {
        return Err(TableFault::Kind);
    };
    let Some(sysadmin) = truth_at(table, "sysadmin") else {
        return Err(TableFault::Kind);
    };
    let Some(digest) = optional_text(table, "token_sha256") else {
        return Err(TableFault::Kind);
    };
    Ok(one_user(alloc, name, sysadmin, digest)?)
}

fn user_of(alloc: Global, value: &Value) -> Result<Users, TableFault>
    ensures ok { IfOk result (λ user. user_of (view value.now) ≡ Some user) }
    ensures kind { IsErrOf result TableFault.Kind → user_of (view value.now) ≡ None }
{
    match value.as_table() {
        Some(table) => user_in(alloc, table),
        None => Err(TableFault::Kind),
    }
}

/// The users of a list of tables, in order.
fn users_of(alloc: Global, items: &[Value]) -> Result<Users, TableFault>
    ensures ok { IfOk result (λ users. users_of (items_view items.now) ≡ Some users) }
    ensures kind { IsErrOf result TableFault.Kind → users_of (items_view items.now) ≡ None }
{
    let mut users = no_users(alloc);
    for value in items {
        let user = user_of(alloc, value)?;
        users = users.joined(user)?;
    }
    Ok(users)
}

fn no_users(alloc: Global) -> Users
    ensures { result ≡ no_users }
{
    Users {
        users: Seq::new(alloc),
        tokens: Seq::new(alloc),
    }
}

/// The users of a file.
pub fn users_in(alloc: Global, file: &Table) -> Result<Users, TableFault>
    ensures ok { IfOk result (λ users. users_in (table_view file.now) ≡ Some users) }
    ensures kind { IsErrOf result TableFault.Kind → users_in (table_view file.now) ≡ None }
{
    let Some(value) = value_at(file, "user") else {
        return Ok(no_users(alloc));
    };
    match value.as_array() {
        Some(items) => users_of(alloc, items.as_slice()),
        None => Err(TableFault::Kind),
    }
}
