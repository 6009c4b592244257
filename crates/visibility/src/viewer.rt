//! A caller and the state that it asks about. Each look-up returns what the caller's view contains, and builds no view.
ghost use Rattle.std.specs.Prelude.{◌≡◌, ◌<◌, ◌&&◌, ℕ, List, IfOk, IfSome, IsTrue, filter, find, length, option_map};
ghost use Rattle.std.specs.Option.{option_copied};
ghost use Rattle.org_roles.specs.PeopleLists.{is_sysadmin_in, is_user_in, org_in, role_in};
ghost use Rattle.std.specs.List.{list_all};
ghost use Rattle.std.specs.Str.{bytes_eq};
ghost use Rattle.visibility.specs.View.{administers, public_count, datasets_seen, edits_somewhere, has_datasets};
ghost use Rattle.visibility.specs.View.{public_names};
ghost use Rattle.visibility.specs.Viewer.{datasets_for, people_for};
ghost use Rattle.visibility.specs.Visibility.{caller_role, is_public_if_harvested, may_edit_in, sees_in};
ghost use Rattle.packages.specs.Named.{is_named, resource_named};
ghost use Rattle.packages.specs.LocatedResource.{located_now};
ghost use Rattle.packages.specs.Owners.{count_at};
ghost use Rattle.packages.specs.Shelf.{IsValidShelf, datasets_of};

use crate::permissions::Standing;
use crate::predicates::{IsOwnedBy, IsPublic, IsSeenAnd};
use org_roles::entry::{Membership, Org, User};
use org_roles::people::People;
use org_roles::role::Role;
use packages::named::{LocatedResource, dataset_part, resource_in};
use packages::package::Package;
use packages::shelf::Shelf;
use packages::walk::Test;
use portal_base::caller::Caller;
use portal_base::seq::Seq;
use portal_base::text::Text;
use std::alloc::{AllocError, Global};
use std::collections::BTreeMap;
use std::marker::Model;

/// A caller, and the people and the datasets that it asks about, of which each harvested dataset is public. It is made once
/// for a call. Contracts see the caller, the people and the datasets.
#[derive(Drop)]
pub struct Viewer<'a> {
    standing: Standing<'a>,
    shelf: &'a Shelf,
}

impl<'a> Model for Viewer<'a> {
    ghost use Rattle.std.specs.Prelude.{IsTrue};
    ghost use Rattle.std.specs.List.{list_all};
    ghost use Rattle.packages.specs.Shelf.{datasets_of};
    ghost use Rattle.visibility.specs.Viewer.{ViewerState};
    ghost use Rattle.visibility.specs.Visibility.{is_public_if_harvested};

    ghost Value = { ViewerState };

    ghost view = { λ v. record {
      caller = v.standing.caller;
      people = v.standing.people;
      datasets = datasets_of v.shelf.now;
    } };

    ghost invariant = { λ v. IsTrue (list_all is_public_if_harvested (datasets_of v.shelf.now)) };
}

impl<'a> Viewer<'a> {
    /// The caller as a viewer of the people and of the datasets.
    pub fn new(people: &'a People, shelf: &'a Shelf, caller: &'a Caller) -> Viewer<'a>
        requires { IsTrue (list_all is_public_if_harvested (datasets_of shelf.now)) }
        ensures { result ≡ record {
          caller = caller.now;
          people = people.now.people;
          datasets = datasets_of shelf.now;
        } }
    {
        Viewer {
            standing: Standing::of(people, caller),
            shelf,
        }
    }

    /// All users, also with flags that the caller doesn't see.
    pub fn users(&self) -> &'a [User]
        ensures { result.now ≡ self.now.people.users }
    {
        self.standing.people().users()
    }

    /// The organizations.
    pub fn orgs(&self) -> &'a [Org]
        ensures { result.now ≡ self.now.people.orgs }
    {
        self.standing.people().orgs()
    }

    /// All memberships, also those that the caller doesn't see.
    pub fn memberships(&self) -> &'a [Membership]
        ensures { result.now ≡ self.now.people.roles }
    {
        self.standing.people().memberships()
    }

    /// Whether the caller is a sysadmin.
    #[tactic(auto, using(crate::proofs::ViewLemmas::is_sysadmin_in_seen))]
    pub fn is_sysadmin(&self) -> bool
        ensures { result ≡ is_sysadmin_in (people_for self.now) self.now.caller }
    {
        self.standing.is_sysadmin()
    }

    /// Whether the caller administers the organization.
    #[tactic(auto, using(crate::proofs::ViewLemmas::administers_seen))]
    pub fn administers(&self, org: &Text) -> bool
        ensures { result ≡ administers (people_for self.now) self.now.caller org.now }
    {
        self.standing.administers(org)
    }

    /// Whether the caller is editor or admin of some organization.
    #[tactic(auto, using(crate::proofs::ViewLemmas::edits_somewhere_seen))]
    pub fn edits_somewhere(&self) -> bool
        ensures { result ≡ edits_somewhere (people_for self.now) self.now.caller }
    {
        self.standing.edits_somewhere()
    }

    /// Whether the caller may edit the dataset.
    #[tactic(auto, using(crate::proofs::ViewLemmas::may_edit_in_seen))]
    pub fn may_edit(&self, dataset: &Package) -> bool
        ensures { result ≡ may_edit_in (people_for self.now) self.now.caller dataset.now }
    {
        self.standing.may_edit(dataset)
    }

    /// The caller's role in the organization, if it has one.
    #[tactic(auto, using(crate::proofs::ViewLemmas::caller_role_seen))]
    pub fn role(&self, org: &Text) -> Option<Role>
        ensures { result ≡ caller_role (people_for self.now) self.now.caller org.now }
    {
        self.standing.role(org)
    }

    /// The organization with this name.
    pub fn org(&self, name: &Text) -> Option<&'a Org>
        ensures { option_copied result ≡ org_in (people_for self.now) name.now }
    {
        self.standing.people().org(name)
    }

    /// The role of a user in an organization that the caller administers.
    #[tactic(auto, using(crate::proofs::ViewLemmas::role_in_seen))]
    pub fn role_of_member(&self, org: &Text, user: &Text) -> Option<Role>
        requires { IsTrue (administers (people_for self.now) self.now.caller org.now) }
        ensures { result ≡ role_in (people_for self.now) org.now user.now }
    {
        self.standing.people().role_of(org, user)
    }

    /// Whether a user with this name exists.
    #[tactic(auto, using(crate::proofs::ViewLemmas::is_user_in_seen))]
    pub fn has_user(&self, name: &Text) -> bool
        ensures { result ≡ is_user_in (people_for self.now) name.now }
    {
        self.standing.people().has_user(name.as_str())
    }

    /// The dataset with this id or name, if the caller sees it. The visibility of this one dataset is checked, and of
    /// no other.
    pub fn dataset(&self, key: &str) -> Option<&'a Package>
        ensures { option_copied result ≡ find (is_named key.now) (datasets_for self.now) }
    {
        find_visible_dataset(&self.standing, self.shelf, key)
    }

    /// The resource at this address, which starts with its dataset's id or name, if the caller sees the dataset. The
    /// visibility of this one dataset is checked, and of no other.
    pub fn resource(&self, address: &str) -> Option<LocatedResource<'a>>
        ensures placed { option_map located_now result ≡ resource_named (datasets_for self.now) address.now }
        ensures within { IfSome result (λ placed. placed.position < length placed.dataset.now.resources) }
    {
        let Some(key) = dataset_part(address) else {
            return None;
        };
        match find_visible_dataset(&self.standing, self.shelf, key) {
            Some(dataset) => resource_in(address, dataset),
            None => None,
        }
    }

    /// The names of the public datasets, each once, ascending.
    #[tactic(auto, using(crate::proofs::PublicLemmas::public_names_seen))]
    pub fn public_names(&self, alloc: Global) -> Result<Seq<Text>, AllocError>
        ensures { IfOk result (λ names. names ≡ public_names (datasets_for self.now)) }
    {
        Ok(Seq::from(self.shelf.names_of(alloc, &IsPublic)?))
    }

    /// Whether the caller sees the dataset.
    pub fn sees(&self, dataset: &Package) -> bool
        ensures { result ≡ sees_in self.now.people self.now.caller dataset.now }
    {
        self.standing.sees(dataset)
    }

    /// The numbers of the datasets that the caller sees and that pass the test, by the names of the organizations that own
    /// them. It walks the datasets once.
    #[tactic(auto, using(crate::proofs::ViewLemmas::filter_both))]
    pub fn counts_by_owner<T: Test>(
        &self,
        alloc: Global,
        test: &T,
    ) -> Result<BTreeMap<Text, usize>, AllocError>
        ensures { IfOk result (λ counts. (org : List ℕ) → count_at org counts
            ≡ length (filter (λ d. bytes_eq d.owner_org org && T.test test.now d) (datasets_for self.now))) }
    {
        let test = IsSeenAnd {
            standing: &self.standing,
            test,
        };
        self.shelf.counts_by_owner(alloc, &test)
    }

    /// The numbers of the organizations' public datasets, by the organizations' names. It walks the datasets once.
    #[tactic(auto, using(crate::proofs::PublicLemmas::public_count_seen))]
    pub fn public_counts(&self, alloc: Global) -> Result<BTreeMap<Text, usize>, AllocError>
        ensures { IfOk result (λ counts. (org : List ℕ) → count_at org counts
            ≡ public_count org (datasets_for self.now)) }
    {
        self.shelf.counts_by_owner(alloc, &IsPublic)
    }

    /// Whether an organization that the caller administers has a dataset, in any state.
    #[tactic(auto, using(crate::proofs::PublicLemmas::has_datasets_seen))]
    pub fn has_datasets(&self, org: &Text) -> bool
        requires { IsTrue (administers (people_for self.now) self.now.caller org.now) }
        ensures { result ≡ has_datasets org.now (datasets_for self.now) }
    {
        self.shelf.has(&IsOwnedBy { org })
    }
}

/// The dataset with this id or name, if the caller sees it.
#[tactic(auto, using(packages::proofs::ShelfLemmas::find_named_kept))]
fn find_visible_dataset<'a>(
    standing: &Standing<'_>,
    shelf: &'a Shelf,
    key: &str,
) -> Option<&'a Package>
    ensures dataset { option_copied result ≡ find (is_named key.now)
        (datasets_seen standing.now.caller standing.now.people (datasets_of shelf.now)) }
    ensures shelved { IsValidShelf shelf.now }
{
    let number = shelf.number_of(key)?;
    let dataset = shelf.package_at(number)?;
    if standing.sees(dataset) {
        Some(dataset)
    } else {
        None
    }
}
