//! The entries of the value `People`: users, organizations and memberships.
use crate::role::Role;
use portal_base::copy::TryClone;
use portal_base::moment::Moment;
use portal_base::text::Text;
use std::alloc::{AllocError, Global};

/// A user, whom a call can name as its caller. A sysadmin may do everything.
#[derive(Drop)]
pub struct User {
    pub name: Text,
    pub sysadmin: bool,
}

/// An organization, which owns datasets.
#[derive(Drop)]
pub struct Org {
    pub name: Text,
    pub title: Text,
    pub description: Text,
    pub created: Moment,
}

/// The role that a user has in an organization. It names both.
#[derive(Drop)]
pub struct Membership {
    pub org: Text,
    pub user: Text,
    pub role: Role,
}

impl TryClone for User {
    fn try_clone(&self, alloc: Global) -> Result<User, AllocError> {
        Ok(User {
            name: self.name.try_clone(alloc)?,
            sysadmin: self.sysadmin,
        })
    }
}

impl TryClone for Org {
    fn try_clone(&self, alloc: Global) -> Result<Org, AllocError> {
        Ok(Org {
            name: self.name.try_clone(alloc)?,
            title: self.title.try_clone(alloc)?,
            description: self.description.try_clone(alloc)?,
            created: self.created,
        })
    }
}

impl TryClone for Membership {
    fn try_clone(&self, alloc: Global) -> Result<Membership, AllocError> {
        Ok(Membership {
            org: self.org.try_clone(alloc)?,
            user: self.user.try_clone(alloc)?,
            role: self.role,
        })
    }
}
