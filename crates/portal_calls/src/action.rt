//! Actions, by the names that CKAN's Action API (2.10) gives them.
ghost use Rattle.std.specs.Prelude.{◌≡◌};
ghost use Rattle.portal_calls.specs.Action.{action_name, action_named, is_reading};

/// An action of the API.
#[derive(Clone, Copy, Debug, PartialEq, Eq)]
pub enum Action {
    PackageCreate,
    PackageUpdate,
    PackagePatch,
    PackageDelete,
    DatasetPurge,
    PackageShow,
    PackageList,
    PackageSearch,
    ResourceCreate,
    ResourceUpdate,
    ResourceDelete,
    ResourceShow,
    OrganizationCreate,
    OrganizationPatch,
    OrganizationDelete,
    OrganizationShow,
    OrganizationList,
    OrganizationListForUser,
    OrganizationMemberCreate,
    OrganizationMemberDelete,
    MemberList,
    UserList,
    DatastoreCreate,
    DatastoreUpsert,
    DatastoreDelete,
    DatastoreSearch,
    DatastoreInfo,
    HarvestSourceCreate,
    HarvestSourceUpdate,
    HarvestSourceDelete,
    HarvestSourceShow,
    HarvestSourceList,
    HarvestJobCreate,
    HarvestJobShow,
}

impl Action {
    /// Every action.
    pub const ALL: [Action; 34] = [
        Action::PackageCreate,
        Action::PackageUpdate,
        Action::PackagePatch,
        Action::PackageDelete,
        Action::DatasetPurge,
        Action::PackageShow,
        Action::PackageList,
        Action::PackageSearch,
        Action::ResourceCreate,
        Action::ResourceUpdate,
        Action::ResourceDelete,
        Action::ResourceShow,
        Action::OrganizationCreate,
        Action::OrganizationPatch,
        Action::OrganizationDelete,
        Action::OrganizationShow,
        Action::OrganizationList,
        Action::OrganizationListForUser,
        Action::OrganizationMemberCreate,
        Action::OrganizationMemberDelete,
        Action::MemberList,
        Action::UserList,
        Action::DatastoreCreate,
        Action::DatastoreUpsert,
        Action::DatastoreDelete,
        Action::DatastoreSearch,
        Action::DatastoreInfo,
        Action::HarvestSourceCreate,
        Action::HarvestSourceUpdate,
        Action::HarvestSourceDelete,
        Action::HarvestSourceShow,
        Action::HarvestSourceList,
        Action::HarvestJobCreate,
        Action::HarvestJobShow,
    ];

    /// The action's name in a call.
    pub fn name(self) -> &'static str
        ensures { result.now ≡ action_name self }
    {
        match self {
            Action::PackageCreate => "package_create",
            Action::PackageUpdate => "package_update",
            Action::PackagePatch => "package_patch",
            Action::PackageDelete => "package_delete",
            Action::DatasetPurge => "dataset_purge",
            Action::PackageShow => "package_show",
            Action::PackageList => "package_list",
            Action::PackageSearch => "package_search",
            Action::ResourceCreate => "resource_create",
            Action::ResourceUpdate => "resource_update",
            Action::ResourceDelete => "resource_delete",
            Action::ResourceShow => "resource_show",
            Action::OrganizationCreate => "organization_create",
            Action::OrganizationPatch => "organization_patch",
            Action::OrganizationDelete => "organization_delete",
            Action::OrganizationShow => "organization_show",
            Action::OrganizationList => "organization_list",
            Action::OrganizationListForUser => "organization_list_for_user",
            Action::OrganizationMemberCreate => "organization_member_create",
            Action::OrganizationMemberDelete => "organization_member_delete",
            Action::MemberList => "member_list",
            Action::UserList => "user_list",
            Action::DatastoreCreate => "datastore_create",
            Action::DatastoreUpsert => "datastore_upsert",
            Action::DatastoreDelete => "datastore_delete",
            Action::DatastoreSearch => "datastore_search",
            Action::DatastoreInfo => "datastore_info",
            Action::HarvestSourceCreate => "harvest_source_create",
            Action::HarvestSourceUpdate => "harvest_source_update",
            Action::HarvestSourceDelete => "harvest_source_delete",
            Action::HarvestSourceShow => "harvest_source_show",
            Action::HarvestSourceList => "harvest_source_list",
            Action::HarvestJobCreate => "harvest_job_create",
            Action::HarvestJobShow => "harvest_job_show",
        }
    }

    /// The action of that name. `None` where no action has it.
    pub fn named(name: &str) -> Option<Action>
        ensures { result ≡ action_named name.now }
    {
        Action::ALL
            .iter()
            .copied()
            .find(|action| action.name() == name)
    }

    /// Whether the action only reads, whoever calls it.
    pub fn is_reading(self) -> bool
        ensures { result ≡ is_reading self }
    {
        matches!(
            self,
            Action::PackageShow
                | Action::PackageList
                | Action::PackageSearch
                | Action::ResourceShow
                | Action::OrganizationShow
                | Action::OrganizationList
                | Action::OrganizationListForUser
                | Action::MemberList
                | Action::UserList
                | Action::DatastoreSearch
                | Action::DatastoreInfo
                | Action::HarvestSourceShow
                | Action::HarvestSourceList
                | Action::HarvestJobShow
        )
    }
}
