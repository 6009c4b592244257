//! Portal files: what each says, or the first rule that it breaks.
use cases::{Buffer, Case};
use org_roles::entry::{Membership, Org, User};
use org_roles::role::Role;
use portal_base::text::Text;
use portal_file::{FileFault, PortalFile};
use std::alloc::Global;
use std::io;

fn role_name(role: Role) -> &'static str {
    match role {
        Role::Member => "member",
        Role::Editor => "editor",
        Role::Admin => "admin",
    }
}

/// Writes the users by name, each sysadmin with a star.
fn push_users(answer: &mut Buffer, users: &[User]) {
    for user in users {
        let star = if user.sysadmin { "*" } else { "" };
        answer.divide(" ");
        answer.push("user ");
        answer.push(user.name.as_str());
        answer.push(star);
        answer.push(";");
    }
}

/// Writes the users with a token, each with the token's digest.
fn push_tokens(answer: &mut Buffer, tokens: &[(Text, Text)]) {
    for (user, digest) in tokens {
        answer.divide(" ");
        answer.push("token ");
        answer.push(user.as_str());
        answer.push(" ");
        answer.push(digest.as_str());
        answer.push(";");
    }
}

/// Writes the organizations, each with its title, description and moment.
fn push_orgs(answer: &mut Buffer, orgs: &[Org]) {
    for org in orgs {
        answer.divide(" ");
        answer.push("org ");
        answer.push(org.name.as_str());
        answer.push(" ");
        answer.push_bracketed(org.title.as_bytes());
        answer.push(" ");
        answer.push_bracketed(org.description.as_bytes());
        answer.push(" ");
        answer.push_value(&org.created.seconds());
        answer.push(";");
    }
}

fn push_roles(answer: &mut Buffer, roles: &[Membership]) {
    for role in roles {
        let org = role.org.as_str();
        let user = role.user.as_str();
        answer.divide(" ");
        answer.push("role ");
        answer.push(org);
        answer.push(" ");
        answer.push(user);
        answer.push(" ");
        answer.push(role_name(role.role));
        answer.push(";");
    }
}

/// A portal file: what it says, or the first rule that it breaks.
pub fn content(alloc: Global, case: &Case, answer: &mut Buffer) -> io::Result<()> {
    match PortalFile::read(alloc, case.bytes(0)) {
        Ok(file) => {
            push_users(answer, file.users.as_slice());
            push_tokens(answer, file.tokens.as_slice());
            push_orgs(answer, file.orgs.as_slice());
            push_roles(answer, file.roles.as_slice());
        }
        Err(FileFault::Rule(rule)) => answer.push(rule.name()),
        Err(FileFault::OutOfMemory) => answer.push("out of memory"),
    }
    Ok(())
}
