//! The keys of look-ups: a user and an organization have their name as their key, a role its organization and its user.
use crate::entry::{Membership, Org, User};
use portal_base::ordered::Key;
use portal_base::text::Text;
use std::cmp::Ordering;

/// The names of an organization and of a user.
#[derive(Clone, Copy)]
pub(crate) struct Pair<'a> {
    pub org: &'a Text,
    pub user: &'a Text,
}

impl Key<User> for &str {
    ghost use Rattle.org_roles.specs.Order.{user_at, IsKey-user_at, IsMonotone-user_at};

    ghost at = { λ name. user_at name.now };

    ghost is_key = { λ name. IsKey-user_at name.now };

    ghost is_monotone = { λ name. IsMonotone-user_at name.now };

    fn compare_item(&self, item: &User) -> Ordering {
        item.name.as_str().cmp(*self)
    }
}

impl Key<Org> for Text {
    ghost use Rattle.org_roles.specs.Order.{org_at, IsKey-org_at, IsMonotone-org_at};

    ghost at = { org_at };

    ghost is_key = { IsKey-org_at };

    ghost is_monotone = { IsMonotone-org_at };

    fn compare_item(&self, item: &Org) -> Ordering {
        item.name.cmp(self)
    }
}

impl Key<Membership> for Pair<'_> {
    ghost use Rattle.org_roles.specs.Order.{pair_at, IsKey-pair_at, IsMonotone-pair_at};

    ghost at = { λ pair. pair_at pair.org.now pair.user.now };

    ghost is_key = { λ pair. IsKey-pair_at pair.org.now pair.user.now };

    ghost is_monotone = { λ pair. IsMonotone-pair_at pair.org.now pair.user.now };

    fn compare_item(&self, item: &Membership) -> Ordering {
        match item.org.cmp(self.org) {
            Ordering::Equal => item.user.cmp(self.user),
            unequal => unequal,
        }
    }
}
