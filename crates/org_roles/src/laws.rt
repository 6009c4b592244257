//! Laws of the changes of people: functions with an empty body, whose contracts are the laws.
ghost use Rattle.std.specs.Prelude.{◌≡◌, ◌≢◌, ◌⊎◌, ℕ, List, Some, None, IsTrue, is_none};
ghost use Rattle.std.specs.List.{All};
ghost use Rattle.org_roles.specs.declared.change.OrgChange.{OrgChange};
ghost use Rattle.org_roles.specs.declared.change.OrgChange.TheVariants.{Create, Patch, Remove, SetRole, DropRole};
ghost use Rattle.org_roles.specs.declared.entry.Membership.{Membership};
ghost use Rattle.org_roles.specs.declared.entry.Org.{Org};
ghost use Rattle.org_roles.specs.declared.entry.User.{User};
ghost use Rattle.org_roles.specs.declared.role.Role.{Role};
ghost use Rattle.org_roles.specs.Changed.{changed_people, people_after, org_fault, AreAllowed};
ghost use Rattle.org_roles.specs.Distinct.{have_distinct_names};
ghost use Rattle.org_roles.specs.PeopleLists.{PeopleLists, AreSorted, RolesHaveOrgs, org_in, role_in};
ghost use Rattle.org_roles.specs.Restored.{is_restorable, people_of};

/// A look-up finds an organization that was created or patched by its name, as it was given. It finds every other
/// organization as before. A patch keeps every role.
pub fn an_organization_that_is_set_is_found()
    ensures created { (people : PeopleLists) (org : Org) →
        org_in (changed_people (Create org) people) org.name ≡ Some org }
    ensures patched { (people : PeopleLists) (org : Org) →
        org_in (changed_people (Patch org) people) org.name ≡ Some org }
    ensures others_at_creation { (people : PeopleLists) (org : Org) (other : List ℕ) → other ≢ org.name →
        org_in (changed_people (Create org) people) other ≡ org_in people other }
    ensures others_at_patch { (people : PeopleLists) (org : Org) (other : List ℕ) → other ≢ org.name →
        org_in (changed_people (Patch org) people) other ≡ org_in people other }
    ensures roles { (people : PeopleLists) (org : Org) (name user : List ℕ) →
        role_in (changed_people (Patch org) people) name user ≡ role_in people name user }
{}

/// A look-up doesn't find a removed organization, and no role names it. It finds every other organization as before,
/// and the roles in it.
pub fn an_organization_that_is_removed_leaves_no_role()
    ensures gone { (people : PeopleLists) (name : List ℕ) → org_in (changed_people (Remove name) people) name ≡ None }
    ensures roles { (people : PeopleLists) (name : List ℕ) →
        All (λ role. role.org ≢ name) (changed_people (Remove name) people).roles }
    ensures others { (people : PeopleLists) (name other : List ℕ) → other ≢ name →
        org_in (changed_people (Remove name) people) other ≡ org_in people other }
    ensures other_roles { (people : PeopleLists) (name other user : List ℕ) → other ≢ name →
        role_in (changed_people (Remove name) people) other user ≡ role_in people other user }
{}

/// A role that is set is the user's role in the organization, whatever it was before. Every other pair of organization
/// and user keeps its role.
pub fn a_role_that_is_set_is_the_users()
    ensures role { (people : PeopleLists) (org user : List ℕ) (role : Role) →
        role_in (changed_people (SetRole org user role) people) org user ≡ Some role }
    ensures others { (people : PeopleLists) (org user other_org other_user : List ℕ) (role : Role) →
        (other_org ≢ org) ⊎ (other_user ≢ user) →
        role_in (changed_people (SetRole org user role) people) other_org other_user
        ≡ role_in people other_org other_user }
{}

/// A role that is dropped is gone. Every other pair of organization and user keeps its role.
pub fn a_role_that_is_dropped_is_gone()
    ensures role { (people : PeopleLists) (org user : List ℕ) →
        role_in (changed_people (DropRole org user) people) org user ≡ None }
    ensures others { (people : PeopleLists) (org user other_org other_user : List ℕ) →
        (other_org ≢ org) ⊎ (other_user ≢ user) →
        role_in (changed_people (DropRole org user) people) other_org other_user
        ≡ role_in people other_org other_user }
{}

/// Changes keep the users and the order of each list. If no change is refused, each role stays in an organization that
/// exists.
pub fn changes_that_are_allowed_keep_the_rules()
    ensures users { (people : PeopleLists) (change : OrgChange) → (changed_people change people).users ≡ people.users }
    ensures ordered { (people : PeopleLists) (changes : List OrgChange) →
        AreSorted people → AreSorted (people_after changes people) }
    ensures roles_have_orgs { (people : PeopleLists) (changes : List OrgChange) → AreAllowed changes people →
        RolesHaveOrgs people → RolesHaveOrgs (people_after changes people) }
{}

/// Restored lists are in order, and each role is in an organization that exists. People with these two properties are
/// restored from their own lists without a change.
pub fn people_are_restored_as_they_are()
    ensures ordered { (users : List User) (orgs : List Org) (roles : List Membership) →
        IsTrue (have_distinct_names users) → IsTrue (is_restorable orgs roles) →
        AreSorted (people_of users orgs roles) }
    ensures roles_have_orgs { (users : List User) (orgs : List Org) (roles : List Membership) →
        IsTrue (is_restorable orgs roles) → RolesHaveOrgs (people_of users orgs roles) }
    ensures distinct { (people : PeopleLists) → AreSorted people → IsTrue (have_distinct_names people.users) }
    ensures restorable { (people : PeopleLists) → AreSorted people → RolesHaveOrgs people →
        IsTrue (is_restorable people.orgs people.roles) }
    ensures same { (people : PeopleLists) → AreSorted people →
        people_of people.users people.orgs people.roles ≡ people }
{}
