//! The whole portal file.
ghost use Rattle.std.specs.Prelude.{◌≡◌, ◌++◌, [], ◌∷◌, Some, None, Ok, Err, IfOk, IsErrOf, IfSome};
ghost use Rattle.std.specs.Prelude.{IfNone, IsTrue, true, false};
ghost use Rattle.std.specs.Str.{is_utf8};
ghost use Rattle.org_roles.specs.Distinct.{have_distinct_names, have_distinct_org_names, have_distinct_pairs};
ghost use Rattle.portal_file.specs.File.{file_of, file_of_tables, file_with, memberships_of};
ghost use Rattle.portal_file.specs.Opening.{AreConsistent, are_in_orgs, are_named};
ghost use Rattle.portal_file.specs.declared.rule.FileRule.{FileRule};
ghost use Rattle.toml.specs.Parse.{parse_document};
ghost use Rattle.toml.specs.View.{table_view};

use crate::entries::{NamedRole, Orgs, Users, push};
use crate::orgs::orgs_in;
use crate::rule::{FileFault, FileRule, TableFault};
use crate::rules::{broken_rule, role_named};
use crate::users::users_in;
use org_roles::entry::{Membership, Org, User};
use portal_base::copy::TryClone;
use portal_base::seq::Seq;
use portal_base::text::Text;
use std::alloc::{AllocError, Global};
use toml::Table;

/// The contents of a portal file: the users, the organizations with the roles in them, and the tokens. A token is a
/// user's name and a SHA-256 digest (FIPS 180-4) in 64 lower-case hexadecimal digits.
#[derive(Drop)]
pub struct PortalFile {
    pub users: Seq<User>,
    pub orgs: Seq<Org>,
    pub roles: Seq<Membership>,
    pub tokens: Seq<(Text, Text)>,
}

impl From<TableFault> for FileFault {
    ghost use Rattle.portal_file.specs.File.{file_fault_of};

    ghost from_gives = { λ fault file_fault. file_fault ≡ file_fault_of fault };

    fn from(fault: TableFault) -> FileFault {
        match fault {
            TableFault::Kind => FileFault::Rule(FileRule::Toml),
            TableFault::OutOfMemory => FileFault::OutOfMemory,
        }
    }
}

/// The memberships of those roles whose names are known.
fn memberships_of(alloc: Global, roles: &[NamedRole]) -> Result<Seq<Membership>, AllocError>
    ensures { IfOk result (λ memberships. memberships ≡ memberships_of roles.now) }
{
    let mut memberships = Seq::new(alloc);
    for named in roles {
        if let Some(role) = role_named(named.role.as_str()) {
            let org = named.org.try_clone(alloc)?;
            let user = named.user.try_clone(alloc)?;
            push(&mut memberships, Membership { org, user, role })?;
        }
    }
    Ok(memberships)
}

/// The file of these users and organizations, or the first rule that they break.
fn file_with(alloc: Global, users: Users, orgs: Orgs) -> Result<PortalFile, FileFault>
    ensures ok { IfOk result (λ file. file_with users orgs ≡ Ok file) }
    ensures rule { (rule : FileRule) → IsErrOf result (FileFault.Rule rule) → file_with users orgs ≡ Err rule }
    ensures pairs { AreConsistent orgs → IfOk result (λ file. IsTrue (have_distinct_pairs file.roles)) }
{
    if let Some(rule) = broken_rule(alloc, &users, &orgs)? {
        return Err(FileFault::Rule(rule));
    }
    let roles = memberships_of(alloc, orgs.roles.as_slice())?;
    Ok(PortalFile {
        users: users.users,
        orgs: orgs.orgs,
        roles,
        tokens: users.tokens,
    })
}

/// The file of the tables, or the first rule that they break.
fn file_of_table(alloc: Global, table: &Table) -> Result<PortalFile, FileFault>
    ensures ok { IfOk result (λ file. file_of_tables (Some (table_view table.now)) ≡ Ok file) }
    ensures rule { (rule : FileRule) → IsErrOf result (FileFault.Rule rule) →
        file_of_tables (Some (table_view table.now)) ≡ Err rule }
    ensures pairs { IfOk result (λ file. IsTrue (have_distinct_pairs file.roles)) }
{
    let users = users_in(alloc, table)?;
    let orgs = orgs_in(alloc, table)?;
    file_with(alloc, users, orgs)
}

/// The bytes as a text, if they are UTF-8.
fn text_in(bytes: &[u8]) -> Option<&str>
    ensures none { IfNone result (is_utf8 bytes.now ≡ false) }
    ensures some { IfSome result (λ text. (is_utf8 bytes.now ≡ true) × (text.now ≡ bytes.now)) }
{
    match std::str::from_utf8(bytes) {
        Ok(text) => Some(text),
        Err(_) => None,
    }
}

/// The table that the text is.
fn table_of(alloc: Global, text: &str) -> Result<Table, TableFault>
    ensures ok { IfOk result (λ table. parse_document text.now ≡ Some (table_view table)) }
    ensures kind { IsErrOf result TableFault.Kind → parse_document text.now ≡ None }
{
    match toml::table_from_str(alloc, text) {
        Ok(table) => Ok(table),
        Err(error) => if error.is_memory() {
            Err(TableFault::OutOfMemory)
        } else {
            Err(TableFault::Kind)
        },
    }
}

impl PortalFile {
    /// Reads the portal file (TOML 1.1). If the bytes break a rule, the fault names the first one that they break,
    /// unless memory runs out. A portal can be opened with the file: no two users and no two organizations have the
    /// same name, no user has two roles in an organization, no organization's name is empty, and each role is in one of
    /// the organizations.
    pub fn read(alloc: Global, bytes: &[u8]) -> Result<PortalFile, FileFault>
        ensures ok { IfOk result (λ file. file_of bytes.now ≡ Ok file) }
        ensures rule { (rule : FileRule) → IsErrOf result (FileFault.Rule rule) → file_of bytes.now ≡ Err rule }
        ensures users { IfOk result (λ file. IsTrue (have_distinct_names file.users)) }
        ensures orgs { IfOk result (λ file. IsTrue (have_distinct_org_names file.orgs)) }
        ensures pairs { IfOk result (λ file. IsTrue (have_distinct_pairs file.roles)) }
        ensures named { IfOk result (λ file. IsTrue (are_named file.orgs)) }
        ensures in_orgs { IfOk result (λ file. IsTrue (are_in_orgs file.orgs file.roles)) }
    {
        let Some(text) = text_in(bytes) else {
            return Err(FileFault::Rule(FileRule::Toml));
        };
        let table = table_of(alloc, text)?;
        file_of_table(alloc, &table)
    }
}
