//! A change of the people in two steps: `prepare` refuses it or makes room for it, and `commit` makes it.
ghost use Rattle.std.specs.Prelude.{◌≡◌, None, not, IsTrue, IfOk, OnOk, IsOkUnless, MatchOption, Err};
ghost use Rattle.std.specs.Str.{bytes_eq};
ghost use Rattle.portal_base.specs.Ordered.{dropped};
ghost use Rattle.org_roles.specs.Order.{membership_in_org_at};
ghost use Rattle.org_roles.specs.Changed.{with_org, without_org, with_role, without_role, changed_people};
ghost use Rattle.org_roles.specs.Changed.{org_fault, fault_in_org, fault_of_member, has_room, IsReady};
ghost use Rattle.org_roles.specs.PeopleLists.{org_in, role_in};

use super::People;
use crate::change::{OrgChange, OrgFault};
use crate::entry::{Membership, Org};
use crate::key::Pair;
use portal_base::ordered::{drop_at, replace_or_put, reserve};
use portal_base::text::Text;
use std::alloc::AllocError;
use std::marker::Model;

/// A change that isn't refused and for which there is room. In contracts its value is the change. Only
/// `People::prepare` makes it.
#[derive(Drop)]
pub struct PreparedOrg {
    change: OrgChange,
}

impl Model for PreparedOrg {
    ghost use Rattle.org_roles.specs.declared.change.OrgChange.{OrgChange};

    ghost Value = { OrgChange };

    ghost view = { λ prepared. prepared.change };
}

impl People {
    /// Prepares a change: refuses it, or makes room for it. The people stay as they are. Of several faults it returns
    /// the first. A new organization's fault is that its name is in use. The faults of the other changes come in this
    /// order: the organization is unknown, the user is unknown, the user has no role there.
    pub fn prepare(&mut self, change: OrgChange) -> Result<PreparedOrg, OrgFault>
        ensures same { self.new.people ≡ self.old.people }
        ensures fault { MatchOption (org_fault change self.old.people)
            (IsOkUnless result OrgFault.OutOfMemory)
            (λ fault. result ≡ Err fault) }
        ensures change { IfOk result (λ prepared. prepared ≡ change) }
        ensures ready { IfOk result (λ prepared. IsReady prepared self.new) }
    {
        if let Some(fault) = self.fault_of(&change) {
            return Err(fault);
        }
        match self.make_room(&change) {
            Ok(()) => Ok(PreparedOrg { change }),
            Err(_) => Err(OrgFault::OutOfMemory),
        }
    }

    /// Makes a change that is ready. A prepared change is ready if nothing changed since. The call takes no memory and
    /// can't fail.
    pub fn commit(&mut self, change: PreparedOrg)
        requires ready { IsReady change self.old }
        ensures { self.new.people ≡ changed_people change self.old.people }
    {
        match change.change {
            OrgChange::Create(org) => self.set_org(org),
            OrgChange::Patch(org) => self.set_org(org),
            OrgChange::Remove(name) => self.drop_org(&name),
            OrgChange::SetRole(org, user, role) => self.set_role(Membership { org, user, role }),
            OrgChange::DropRole(org, user) => self.drop_role(&org, &user),
        }
    }

    /// The first fault of the change, if it has one.
    fn fault_of(&self, change: &OrgChange) -> Option<OrgFault>
        ensures { result ≡ org_fault change.now self.now.people }
    {
        match change {
            OrgChange::Create(org) => self
                .org(&org.name)
                .is_some()
                .then_some(OrgFault::OrgNameInUse),
            OrgChange::Patch(org) => self.fault_in_org(&org.name),
            OrgChange::Remove(name) => self.fault_in_org(name),
            OrgChange::SetRole(org, user, _) => self.fault_of_member(org, user),
            OrgChange::DropRole(org, user) => match self.fault_of_member(org, user) {
                Some(fault) => Some(fault),
                None => self
                    .role_of(org, user)
                    .is_none()
                    .then_some(OrgFault::NoRole),
            },
        }
    }

    /// The fault of naming an organization that doesn't exist.
    fn fault_in_org(&self, org: &Text) -> Option<OrgFault>
        ensures { result ≡ fault_in_org org.now None self.now.people }
    {
        self.org(org).is_none().then_some(OrgFault::UnknownOrg)
    }

    /// The fault of naming an organization that doesn't exist, or else a user who doesn't exist.
    fn fault_of_member(&self, org: &Text, user: &Text) -> Option<OrgFault>
        ensures { result ≡ fault_of_member org.now user.now None self.now.people }
    {
        match self.fault_in_org(org) {
            Some(fault) => Some(fault),
            None => (!self.has_user(user.as_str())).then_some(OrgFault::UnknownUser),
        }
    }

    /// Makes room for what the change adds. The people stay as they are.
    fn make_room(&mut self, change: &OrgChange) -> Result<(), AllocError>
        ensures same { self.new.people ≡ self.old.people }
        ensures room { OnOk result (IsTrue (has_room change.now self.new.room)) }
    {
        match change {
            OrgChange::Create(_) => reserve(&mut self.orgs),
            OrgChange::SetRole(_, _, _) => reserve(&mut self.roles),
            OrgChange::Patch(_) => Ok(()),
            OrgChange::Remove(_) => Ok(()),
            OrgChange::DropRole(_, _) => Ok(()),
        }
    }

    /// Adds the organization, or replaces the one of its name.
    fn set_org(&mut self, org: Org)
        requires { org_in self.old.people org.name ≡ None → IsTrue self.old.room.org }
        ensures { self.new.people ≡ with_org org self.old.people }
    {
        replace_or_put(&mut self.orgs, org);
    }

    /// Drops the organization of that name, and all roles in it.
    fn drop_org(&mut self, name: &Text)
        ensures { self.new.people ≡ without_org name.now self.old.people }
    {
        drop_at(&mut self.orgs, name);
        drop_roles_in(&mut self.roles, name);
    }

    /// Adds the role, or replaces the one of its organization and user.
    fn set_role(&mut self, membership: Membership)
        requires { role_in self.old.people membership.org membership.user ≡ None → IsTrue self.old.room.role }
        ensures { self.new.people ≡ with_role membership self.old.people }
    {
        replace_or_put(&mut self.roles, membership);
    }

    /// Drops the role of that organization and user.
    fn drop_role(&mut self, org: &Text, user: &Text)
        ensures { self.new.people ≡ without_role org.now user.now self.old.people }
    {
        drop_at(&mut self.roles, &Pair { org, user });
    }
}

/// Drops all roles in the organization of that name.
fn drop_roles_in(roles: &mut Vec<Membership>, org: &Text)
    ensures { roles.new.items ≡ dropped (membership_in_org_at org.now) roles.old.items }
{
    roles.retain(|membership| is_elsewhere(membership, org));
}

/// Whether the role is in another organization than the one of that name.
fn is_elsewhere(membership: &Membership, org: &Text) -> bool
    ensures { result ≡ not (bytes_eq membership.now.org org.now) }
{
    membership.org != *org
}
