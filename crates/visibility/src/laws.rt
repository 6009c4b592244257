//! Laws on who sees and who edits a dataset: functions with an empty body, whose contracts are the laws.
ghost use Rattle.std.specs.Prelude.{◌≡◌, IsTrue};
ghost use Rattle.portal_base.specs.declared.caller.Caller.{Caller};
ghost use Rattle.org_roles.specs.PeopleLists.{PeopleLists, is_sysadmin_in};
ghost use Rattle.packages.specs.declared.package.Package.{Package};
ghost use Rattle.visibility.specs.Visibility.{caller_role, may_edit_in, sees_in};

/// Whether the caller may edit a dataset depends on two facts about the people, and on no other: whether the caller is
/// a sysadmin, and the caller's role in the dataset's organization.
pub fn editing_depends_on_the_callers_own_role()
    ensures { (p q : PeopleLists) (caller : Caller) (dataset : Package) →
        is_sysadmin_in p caller ≡ is_sysadmin_in q caller →
        caller_role p caller dataset.owner_org ≡ caller_role q caller dataset.owner_org →
        may_edit_in p caller dataset ≡ may_edit_in q caller dataset }
{}

/// Whether the caller sees a dataset depends on two facts about the people, and on no other: whether the caller is a
/// sysadmin, and the caller's role in the dataset's organization.
pub fn visibility_depends_on_the_callers_own_role()
    ensures { (p q : PeopleLists) (caller : Caller) (dataset : Package) →
        is_sysadmin_in p caller ≡ is_sysadmin_in q caller →
        caller_role p caller dataset.owner_org ≡ caller_role q caller dataset.owner_org →
        sees_in p caller dataset ≡ sees_in q caller dataset }
{}

/// Whoever may edit a dataset sees it.
pub fn who_may_edit_sees()
    ensures { (people : PeopleLists) (caller : Caller) (dataset : Package) →
        IsTrue (may_edit_in people caller dataset) → IsTrue (sees_in people caller dataset) }
{}
