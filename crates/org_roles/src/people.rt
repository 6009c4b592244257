//! The users, organizations and roles as one value, with look-ups by name.
ghost use Rattle.std.specs.Prelude.{◌≡◌, ◌&&◌, [], IsTrue};
ghost use Rattle.std.specs.List.{list_any};
ghost use Rattle.std.specs.Option.{option_copied};
ghost use Rattle.std.specs.Str.{bytes_eq};
ghost use Rattle.portal_base.specs.Ordered.{IsAscending, ascending, are_apart};
ghost use Rattle.org_roles.specs.Distinct.{have_distinct_names, have_distinct_org_names};
ghost use Rattle.org_roles.specs.Distinct.{have_distinct_pairs};
ghost use Rattle.org_roles.specs.Order.{user_cmp, org_cmp, membership_cmp, users_ascending};
ghost use Rattle.org_roles.specs.PeopleLists.{is_user_in, org_in, role_in, is_sysadmin_in};

pub mod prepared;
pub mod restored;

use crate::entry::{Membership, Org, User};
use crate::key::Pair;
use crate::role::Role;
use portal_base::caller::Caller;
use portal_base::ordered::{Ordered, are_apart, find_in_order, sort};
use portal_base::seq::Seq;
use portal_base::text::Text;
use std::alloc::Global;
use std::marker::Model;

/// The users, organizations and roles of a portal. In contracts, `people` is three lists without repeats: the users and
/// the organizations, each ordered by name, and the roles, ordered by organization and user. `room` says whether one
/// more organization and one more role fit without an allocation.
#[derive(Drop)]
pub struct People {
    users: Vec<User>,
    orgs: Vec<Org>,
    roles: Vec<Membership>,
}

impl Model for People {
    ghost use Rattle.std.specs.Prelude.{nat_lt, vec_len, vec_capacity};
    ghost use Rattle.org_roles.specs.PeopleLists.{PeopleWithRoom, AreSorted};

    ghost Value = { PeopleWithRoom };

    ghost view = { λ p. record {
      people = record { users = p.users.items; orgs = p.orgs.items; roles = p.roles.items };
      room = record {
        org = nat_lt (vec_len p.orgs) (vec_capacity p.orgs);
        role = nat_lt (vec_len p.roles) (vec_capacity p.roles);
      };
    } };

    ghost invariant = { λ p. AreSorted (record { users = p.users.items; orgs = p.orgs.items; roles = p.roles.items }) };
}

impl People {
    /// The people with these users, without an organization or a role. It takes no memory.
    pub fn new(alloc: Global, users: Seq<User>) -> People
        requires { IsTrue (have_distinct_names users) }
        ensures users { result.people.users ≡ users_ascending users }
        ensures no_org { result.people.orgs ≡ [] }
        ensures no_role { result.people.roles ≡ [] }
    {
        People::of_lists(users, Seq::new(alloc), Seq::new(alloc))
    }

    /// The people with these users, organizations and roles. It takes no memory.
    pub fn of_lists(users: Seq<User>, orgs: Seq<Org>, roles: Seq<Membership>) -> People
        requires users { IsTrue (have_distinct_names users) }
        requires orgs { IsTrue (have_distinct_org_names orgs) }
        requires roles { IsTrue (have_distinct_pairs roles) }
        ensures users { result.people.users ≡ ascending user_cmp users }
        ensures orgs { result.people.orgs ≡ ascending org_cmp orgs }
        ensures roles { result.people.roles ≡ ascending membership_cmp roles }
    {
        People {
            users: sorted(users),
            orgs: sorted(orgs),
            roles: sorted(roles),
        }
    }

    /// The users, ordered by name.
    pub fn users(&self) -> &[User]
        ensures { result.now ≡ self.now.people.users }
    {
        self.users.as_slice()
    }

    /// The organizations, ordered by name.
    pub fn orgs(&self) -> &[Org]
        ensures { result.now ≡ self.now.people.orgs }
    {
        self.orgs.as_slice()
    }

    /// The roles, ordered by organization and user.
    pub fn memberships(&self) -> &[Membership]
        ensures { result.now ≡ self.now.people.roles }
    {
        self.roles.as_slice()
    }

    /// Whether a user has that name.
    #[tactic(auto, using(crate::proofs::LookupLemmas::name_found))]
    pub fn has_user(&self, name: &str) -> bool
        ensures { result ≡ is_user_in self.now.people name.now }
    {
        find_in_order(self.users.as_slice(), &name).is_some()
    }

    /// Whether the caller is a user who is a sysadmin.
    pub fn is_sysadmin(&self, caller: &Caller) -> bool
        ensures { result ≡ is_sysadmin_in self.now.people caller.now }
    {
        match caller {
            Caller::Anonymous => false,
            Caller::Named(name) => is_sysadmin_among(self.users.as_slice(), name.as_str()),
        }
    }

    /// The organization of that name.
    #[tactic(auto, using(crate::proofs::ChangeLemmas::org_found))]
    pub fn org(&self, name: &Text) -> Option<&Org>
        ensures { option_copied result ≡ org_in self.now.people name.now }
    {
        find_in_order(self.orgs.as_slice(), name)
    }

    /// The role of the user in the organization.
    #[tactic(auto, using(crate::proofs::ChangeLemmas::role_found))]
    pub fn role_of(&self, org: &Text, user: &Text) -> Option<Role>
        ensures { result ≡ role_in self.now.people org.now user.now }
    {
        let membership = find_in_order(self.roles.as_slice(), &Pair { org, user })?;
        Some(membership.role)
    }
}

/// Whether no two of the users have the same name.
pub fn names_are_distinct(users: &[User]) -> bool
    ensures { result ≡ have_distinct_names users.now }
{
    are_apart(users)
}

/// Whether no two of the organizations have the same name.
pub fn org_names_are_distinct(orgs: &[Org]) -> bool
    ensures { result ≡ have_distinct_org_names orgs.now }
{
    are_apart(orgs)
}

/// Whether no two of the memberships have the same organization and the same user.
pub fn pairs_are_distinct(roles: &[Membership]) -> bool
    ensures { result ≡ have_distinct_pairs roles.now }
{
    are_apart(roles)
}

/// The items in their order.
fn sorted<T: Ordered>(items: Seq<T>) -> Vec<T>
    requires { IsTrue (are_apart T.order items) }
    ensures { result.items ≡ ascending T.order items }
{
    let mut items = items.into_vec();
    sort(&mut items);
    items
}

/// Whether the user of that name is a sysadmin.
fn is_sysadmin_among(users: &[User], name: &str) -> bool
    requires { IsAscending user_cmp users.now }
    ensures { result ≡ list_any (λ user. bytes_eq user.name name.now && user.sysadmin) users.now }
{
    match find_in_order(users, &name) {
        Some(user) => user.sysadmin,
        None => false,
    }
}
