//! Changes of organizations and roles, and why they are refused.
use crate::entry::Org;
use crate::role::Role;
use portal_base::text::Text;
use thiserror::Error;

/// A change of the organizations and the roles. It names organizations and users.
#[derive(Drop)]
pub enum OrgChange {
    /// A new organization.
    Create(Org),
    /// Replaces the organization of its name by this one.
    Patch(Org),
    /// Removes the organization of that name, and all roles in it.
    Remove(Text),
    /// Gives a role to a user in an organization, in place of the role that the user had there: organization, user,
    /// role.
    SetRole(Text, Text, Role),
    /// Takes the role of a user in an organization: organization, user.
    DropRole(Text, Text),
}

/// Why a change is refused. `OutOfMemory` says nothing about the change.
#[derive(Clone, Copy, Debug, PartialEq, Eq, Error)]
pub enum OrgFault {
    #[error("an organization has that name")]
    OrgNameInUse,
    #[error("there is no such organization")]
    UnknownOrg,
    #[error("there is no such user")]
    UnknownUser,
    #[error("the user has no role there")]
    NoRole,
    #[error("out of memory")]
    OutOfMemory,
}
