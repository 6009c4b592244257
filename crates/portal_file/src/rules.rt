//! The rules after the first one. Each one is about the whole file.
ghost use Rattle.std.specs.Prelude.{◌≡◌, ℕ, List, IfOk};
ghost use Rattle.std.specs.HashSet.{contains_text};
ghost use Rattle.std.specs.List.{list_all};
ghost use Rattle.portal_file.specs.Rules.{are_roles_among, broken_org_rule, broken_rule, have_digests};
ghost use Rattle.portal_file.specs.Rules.{have_distinct_digests, have_file_names, have_org_file_names, is_digest};
ghost use Rattle.portal_file.specs.Rules.{is_digest_digit, is_file_name, is_role_among, role_named};
ghost use Rattle.org_roles.specs.Distinct.{have_distinct_names, have_distinct_org_names, is_name_among};
ghost use Rattle.org_roles.specs.declared.entry.User.{User};

use crate::entries::{NamedRole, Orgs, Users};
use crate::rule::FileRule;
use crate::text_set::{Keyed, are_distinct, keys_of};
use org_roles::entry::{Org, User};
use org_roles::role::Role;
use portal_base::name::{NameFault, name_fault};
use portal_base::text::Text;
use std::alloc::{AllocError, Global};
use std::collections::HashSet;

impl Keyed for User {
    ghost key = { λ user. user.name };

    fn key(&self) -> &str {
        self.name.as_str()
    }
}

impl Keyed for Org {
    ghost key = { λ org. org.name };

    fn key(&self) -> &str {
        self.name.as_str()
    }
}

/// A token, by its digest.
impl Keyed for (Text, Text) {
    ghost key = { λ token. token.1 };

    fn key(&self) -> &str {
        self.1.as_str()
    }
}

/// Whether the text is a name of 2 to 100 characters. A reserved name is allowed.
fn is_file_name(text: &str) -> bool
    ensures { result ≡ is_file_name text.now }
{
    match name_fault(text, 100) {
        Some(NameFault::Length) => false,
        Some(NameFault::Character) => false,
        _ => true,
    }
}

fn have_file_names(users: &[User]) -> bool
    ensures { result ≡ have_file_names users.now }
{
    users.iter().all(|user| is_file_name(user.name.as_str()))
}

fn have_org_file_names(orgs: &[Org]) -> bool
    ensures { result ≡ have_org_file_names orgs.now }
{
    orgs.iter().all(|org| is_file_name(org.name.as_str()))
}

fn is_digest_digit(byte: u8) -> bool
    ensures { result ≡ is_digest_digit byte }
{
    matches!(byte, b'0'..=b'9' | b'a'..=b'f')
}

fn has_digest_digits(bytes: &[u8]) -> bool
    ensures { result ≡ list_all is_digest_digit bytes.now }
{
    bytes.iter().all(|byte| is_digest_digit(*byte))
}

/// Whether the text has the form of a digest.
fn is_digest(text: &str) -> bool
    ensures { result ≡ is_digest text.now }
{
    text.len() == 64 && has_digest_digits(text.as_bytes())
}

fn have_digests(tokens: &[(Text, Text)]) -> bool
    ensures { result ≡ have_digests tokens.now }
{
    tokens.iter().all(|token| is_digest(token.1.as_str()))
}

/// Whether no two of the tokens have the same digest.
fn have_distinct_digests(alloc: Global, tokens: &[(Text, Text)]) -> Result<bool, AllocError>
    ensures { IfOk result (λ distinct. distinct ≡ have_distinct_digests tokens.now) }
{
    are_distinct(alloc, tokens)
}

/// Whether no two of the users have the same name.
fn have_distinct_names(alloc: Global, users: &[User]) -> Result<bool, AllocError>
    ensures { IfOk result (λ distinct. distinct ≡ have_distinct_names users.now) }
{
    are_distinct(alloc, users)
}

/// Whether no two of the organizations have the same name.
fn have_distinct_org_names(alloc: Global, orgs: &[Org]) -> Result<bool, AllocError>
    ensures { IfOk result (λ distinct. distinct ≡ have_distinct_org_names orgs.now) }
{
    are_distinct(alloc, orgs)
}

/// The role of that name.
pub fn role_named(text: &str) -> Option<Role>
    ensures { result ≡ role_named text.now }
{
    if text == "member" {
        Some(Role::Member)
    } else if text == "editor" {
        Some(Role::Editor)
    } else if text == "admin" {
        Some(Role::Admin)
    } else {
        None
    }
}

/// Whether the role's name is known and its user is one of the users, whose names these are.
fn is_role_among(names: &HashSet<String>, role: &NamedRole) -> bool
    ensures { (users : List User) → ((name : List ℕ) → contains_text names.now name ≡ is_name_among users name)
        → result ≡ is_role_among users role.now }
{
    role_named(role.role.as_str()).is_some() && names.contains(role.user.as_str())
}

fn are_roles_among(alloc: Global, users: &[User], roles: &[NamedRole]) -> Result<bool, AllocError>
    ensures { IfOk result (λ among. among ≡ are_roles_among users.now roles.now) }
{
    let names = keys_of(alloc, users)?;
    for role in roles {
        if !is_role_among(&names, role) {
            return Ok(false);
        }
    }
    Ok(true)
}

/// The first broken rule of those on organizations.
fn broken_org_rule(
    alloc: Global,
    users: &Users,
    orgs: &Orgs,
) -> Result<Option<FileRule>, AllocError>
    ensures { IfOk result (λ rule. rule ≡ broken_org_rule users.now orgs.now) }
{
    if !have_org_file_names(orgs.orgs.as_slice()) {
        return Ok(Some(FileRule::OrganizationName));
    }
    if !have_distinct_org_names(alloc, orgs.orgs.as_slice())? {
        return Ok(Some(FileRule::RepeatedOrganization));
    }
    if !are_roles_among(alloc, users.users.as_slice(), orgs.roles.as_slice())? {
        return Ok(Some(FileRule::Role));
    }
    Ok(None)
}

/// The first broken rule, of those after the first one. It takes time in proportion to the entries.
pub fn broken_rule(
    alloc: Global,
    users: &Users,
    orgs: &Orgs,
) -> Result<Option<FileRule>, AllocError>
    ensures { IfOk result (λ rule. rule ≡ broken_rule users.now orgs.now) }
{
    if !have_file_names(users.users.as_slice()) {
        return Ok(Some(FileRule::UserName));
    }
    if !have_distinct_names(alloc, users.users.as_slice())? {
        return Ok(Some(FileRule::RepeatedUser));
    }
    if !have_digests(users.tokens.as_slice()) {
        return Ok(Some(FileRule::Token));
    }
    if !have_distinct_digests(alloc, users.tokens.as_slice())? {
        return Ok(Some(FileRule::RepeatedToken));
    }
    broken_org_rule(alloc, users, orgs)
}
