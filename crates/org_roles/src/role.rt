//! Roles, and what each of them may do.
ghost use Rattle.std.specs.Prelude.{◌≡◌};
ghost use Rattle.org_roles.specs.Rights.{rights_for};

use portal_base::copy::TryClone;
use std::alloc::{AllocError, Global};

/// What a user is in an organization.
#[derive(Clone, Copy, Debug, PartialEq, Eq)]
pub enum Role {
    Member,
    Editor,
    Admin,
}

/// What a user may do with the datasets of an organization.
#[derive(Clone, Copy, Debug, PartialEq, Eq)]
pub struct Rights {
    /// To see its private datasets.
    pub see_private: bool,
    /// To add, change and delete its datasets.
    pub edit: bool,
    /// To manage the organization and its members.
    pub administer: bool,
}

/// The rights that a role gives. Without a role there are none.
pub fn rights_of(role: Option<Role>) -> Rights
    ensures { result ≡ rights_for role }
{
    Rights {
        see_private: role.is_some(),
        edit: matches!(role, Some(Role::Editor) | Some(Role::Admin)),
        administer: matches!(role, Some(Role::Admin)),
    }
}

impl TryClone for Role {
    fn try_clone(&self, _alloc: Global) -> Result<Role, AllocError> {
        Ok(*self)
    }
}
