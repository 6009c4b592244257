//! The orders of users, organizations and memberships: by the bytes of their names.
use crate::entry::{Membership, Org, User};
use portal_base::ordered::Ordered;
use std::cmp::Ordering;

impl Ordered for User {
    ghost use Rattle.org_roles.specs.Order.{user_cmp, user_cmp_total};

    ghost order = { user_cmp };

    ghost total = { user_cmp_total };

    /// The order by name.
    fn compare(&self, other: &User) -> Ordering {
        self.name.cmp(&other.name)
    }
}

impl Ordered for Org {
    ghost use Rattle.org_roles.specs.Order.{org_cmp, org_cmp_total};

    ghost order = { org_cmp };

    ghost total = { org_cmp_total };

    /// The order by name.
    fn compare(&self, other: &Org) -> Ordering {
        self.name.cmp(&other.name)
    }
}

impl Ordered for Membership {
    ghost use Rattle.org_roles.specs.Order.{membership_cmp, membership_cmp_total};

    ghost order = { membership_cmp };

    ghost total = { membership_cmp_total };

    /// The order by organization, then by user.
    fn compare(&self, other: &Membership) -> Ordering {
        match self.org.cmp(&other.org) {
            Ordering::Equal => self.user.cmp(&other.user),
            unequal => unequal,
        }
    }
}
