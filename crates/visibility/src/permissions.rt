//! Who sees a dataset and who may edit it. Nothing here allocates.
ghost use Rattle.std.specs.Prelude.{◌≡◌};
ghost use Rattle.org_roles.specs.PeopleLists.{is_sysadmin_in};
ghost use Rattle.visibility.specs.Visibility.{caller_role, is_harvested, is_creator, is_public, may_edit_in, sees_in};
ghost use Rattle.visibility.specs.Visibility.{sees_private_in};
ghost use Rattle.visibility.specs.View.{administers, edits_somewhere, is_called, is_editing_role};

use org_roles::entry::Membership;
use org_roles::people::People;
use org_roles::role::{Role, rights_of};
use packages::package::{Package, State};
use portal_base::caller::Caller;
use portal_base::text::Text;
use std::marker::Model;

/// A caller among the people, and what is found of it once: whether it is a sysadmin. Its roles are looked up. Contracts see
/// the caller and the people.
#[derive(Drop)]
pub struct Standing<'a> {
    caller: &'a Caller,
    people: &'a People,
    is_sysadmin: bool,
}

impl<'a> Model for Standing<'a> {
    ghost use Rattle.std.specs.Prelude.{◌≡◌};
    ghost use Rattle.org_roles.specs.PeopleLists.{is_sysadmin_in};
    ghost use Rattle.visibility.specs.Viewer.{StandingState};

    ghost Value = { StandingState };

    ghost view = { λ s. record { caller = s.caller.now; people = s.people.now.people } };

    ghost invariant = { λ s. s.is_sysadmin ≡ is_sysadmin_in s.people.now.people s.caller.now };
}

impl<'a> Standing<'a> {
    /// The standing of the caller among the people.
    pub fn of(people: &'a People, caller: &'a Caller) -> Standing<'a>
        ensures { result ≡ record { caller = caller.now; people = people.now.people } }
    {
        Standing {
            caller,
            people,
            is_sysadmin: people.is_sysadmin(caller),
        }
    }

    /// The people.
    pub(crate) fn people(&self) -> &'a People
        ensures { result.now.people ≡ self.now.people }
    {
        self.people
    }

    /// Whether the caller is a sysadmin.
    pub fn is_sysadmin(&self) -> bool
        ensures { result ≡ is_sysadmin_in self.now.people self.now.caller }
    {
        self.is_sysadmin
    }

    /// The caller's role in the organization. An anonymous caller has none.
    pub fn role(&self, org: &Text) -> Option<Role>
        ensures { result ≡ caller_role self.now.people self.now.caller org.now }
    {
        match self.caller {
            Caller::Anonymous => None,
            Caller::Named(user) => self.people.role_of(org, user),
        }
    }

    /// Whether the caller administers the organization: a sysadmin administers each one, an admin its own.
    pub fn administers(&self, org: &Text) -> bool
        ensures { result ≡ administers self.now.people self.now.caller org.now }
    {
        self.is_sysadmin || rights_of(self.role(org)).administer
    }

    /// Whether the caller is editor or admin of some organization.
    pub fn edits_somewhere(&self) -> bool
        ensures { result ≡ edits_somewhere self.now.people self.now.caller }
    {
        self.people
            .memberships()
            .iter()
            .any(|membership| is_editing_role(self.caller, membership))
    }

    /// Whether the caller may edit the dataset. Nobody may edit a harvested dataset. Sysadmins, and editors and admins of
    /// its organization, may edit any other.
    pub fn may_edit(&self, package: &Package) -> bool
        ensures { result ≡ may_edit_in self.now.people self.now.caller «package».now }
    {
        !is_harvested(package)
            && (self.is_sysadmin || rights_of(self.role(&package.owner_org)).edit)
    }

    /// Whether the caller sees the dataset. A sysadmin sees every dataset. Everybody sees an active dataset that isn't
    /// private; whoever has a role in its organization sees one that is. Its creator and whoever may edit it see a
    /// draft. Whoever may edit it sees a deleted dataset.
    pub fn sees(&self, package: &Package) -> bool
        ensures { result ≡ sees_in self.now.people self.now.caller «package».now }
    {
        self.is_sysadmin
            || match package.state {
                State::Draft => is_creator(self.caller, package) || self.may_edit(package),
                State::Active => !package.private || self.sees_private(package),
                State::Deleted => self.may_edit(package),
            }
    }

    /// Whether the caller's role in the dataset's organization lets it see private datasets.
    fn sees_private(&self, package: &Package) -> bool
        ensures { result ≡ sees_private_in self.now.people self.now.caller «package».now }
    {
        rights_of(self.role(&package.owner_org)).see_private
    }
}

/// Whether the caller may edit the dataset, as `Standing::may_edit` says.
pub fn may_edit(people: &People, caller: &Caller, package: &Package) -> bool
    ensures { result ≡ may_edit_in people.now.people caller.now «package».now }
{
    Standing::of(people, caller).may_edit(package)
}

/// Whether the caller sees the dataset, as `Standing::sees` says.
pub fn sees(people: &People, caller: &Caller, package: &Package) -> bool
    ensures { result ≡ sees_in people.now.people caller.now «package».now }
{
    Standing::of(people, caller).sees(package)
}

/// Whether the membership is the caller's own and makes it editor or admin.
fn is_editing_role(caller: &Caller, membership: &Membership) -> bool
    ensures { result ≡ is_editing_role caller.now membership.now }
{
    is_called(caller, &membership.user) && rights_of(Some(membership.role)).edit
}

/// Whether the caller is the user with this name.
fn is_called(caller: &Caller, name: &Text) -> bool
    ensures { result ≡ is_called caller.now name.now }
{
    match caller {
        Caller::Anonymous => false,
        Caller::Named(user) => *user == *name,
    }
}

/// Whether the dataset is public: active and not private, so that everybody sees it.
pub fn is_public(package: &Package) -> bool
    ensures { result ≡ is_public «package».now }
{
    package.state == State::Active && !package.private
}

/// Whether the dataset was harvested from a source.
pub fn is_harvested(package: &Package) -> bool
    ensures { result ≡ is_harvested «package».now }
{
    !package.source.is_empty()
}

/// Whether the caller created the dataset.
fn is_creator(caller: &Caller, package: &Package) -> bool
    ensures { result ≡ is_creator caller.now «package».now }
{
    match caller {
        Caller::Anonymous => false,
        Caller::Named(name) => *name == package.creator,
    }
}
