//! Actions by what they are about: each of these groups is answered by a crate of its own.
ghost use Rattle.std.specs.Prelude.{◌≡◌};
ghost use Rattle.portal_calls.specs.Topic.{topic_of};

use crate::action::Action;

/// An action on organizations, their members and users.
#[derive(Clone, Copy)]
pub enum OrganizationAction {
    OrganizationCreate,
    OrganizationPatch,
    OrganizationDelete,
    OrganizationShow,
    OrganizationList,
    OrganizationListForUser,
    OrganizationMemberCreate,
    OrganizationMemberDelete,
    MemberList,
    UserList,
}

/// An action on datasets and their resources.
#[derive(Clone, Copy)]
pub enum DatasetAction {
    PackageCreate,
    PackageUpdate,
    PackagePatch,
    PackageDelete,
    DatasetPurge,
    PackageShow,
    PackageList,
    ResourceCreate,
    ResourceUpdate,
    ResourceDelete,
    ResourceShow,
}

/// An action on sources of harvests and their jobs.
#[derive(Clone, Copy)]
pub enum HarvestAction {
    HarvestSourceCreate,
    HarvestSourceUpdate,
    HarvestSourceDelete,
    HarvestSourceShow,
    HarvestSourceList,
    HarvestJobCreate,
    HarvestJobShow,
}

/// An action on the tables of resources whose body holds no query.
#[derive(Clone, Copy)]
pub enum TableAction {
    DatastoreCreate,
    DatastoreUpsert,
    DatastoreInfo,
}

/// An action on the tables of resources whose body may hold a query.
#[derive(Clone, Copy)]
pub enum QueryAction {
    DatastoreSearch,
    DatastoreDelete,
}

/// What an action is about. A search of datasets is a topic of its own, since it reads the index of their terms.
#[derive(Clone, Copy)]
pub enum Topic {
    Organizations(OrganizationAction),
    Datasets(DatasetAction),
    Search,
    Tables(TableAction),
    Queries(QueryAction),
    Harvests(HarvestAction),
}

impl Topic {
    /// What the action is about.
    pub fn of(action: Action) -> Topic
        ensures { result ≡ topic_of action }
    {
        match action {
            Action::OrganizationCreate => Topic::Organizations(
                OrganizationAction::OrganizationCreate,
            ),
            Action::OrganizationPatch => Topic::Organizations(
                OrganizationAction::OrganizationPatch,
            ),
            Action::OrganizationDelete => Topic::Organizations(
                OrganizationAction::OrganizationDelete,
            ),
            Action::OrganizationShow => Topic::Organizations(OrganizationAction::OrganizationShow),
            Action::OrganizationList => Topic::Organizations(OrganizationAction::OrganizationList),
            Action::OrganizationListForUser => Topic::Organizations(
                OrganizationAction::OrganizationListForUser,
            ),
            Action::OrganizationMemberCreate => Topic::Organizations(
                OrganizationAction::OrganizationMemberCreate,
            ),
            Action::OrganizationMemberDelete => Topic::Organizations(
                OrganizationAction::OrganizationMemberDelete,
            ),
            Action::MemberList => Topic::Organizations(OrganizationAction::MemberList),
            Action::UserList => Topic::Organizations(OrganizationAction::UserList),
            Action::PackageCreate => Topic::Datasets(DatasetAction::PackageCreate),
            Action::PackageUpdate => Topic::Datasets(DatasetAction::PackageUpdate),
            Action::PackagePatch => Topic::Datasets(DatasetAction::PackagePatch),
            Action::PackageDelete => Topic::Datasets(DatasetAction::PackageDelete),
            Action::DatasetPurge => Topic::Datasets(DatasetAction::DatasetPurge),
            Action::PackageShow => Topic::Datasets(DatasetAction::PackageShow),
            Action::PackageList => Topic::Datasets(DatasetAction::PackageList),
            Action::PackageSearch => Topic::Search,
            Action::ResourceCreate => Topic::Datasets(DatasetAction::ResourceCreate),
            Action::ResourceUpdate => Topic::Datasets(DatasetAction::ResourceUpdate),
            Action::ResourceDelete => Topic::Datasets(DatasetAction::ResourceDelete),
            Action::ResourceShow => Topic::Datasets(DatasetAction::ResourceShow),
            Action::DatastoreCreate => Topic::Tables(TableAction::DatastoreCreate),
            Action::DatastoreUpsert => Topic::Tables(TableAction::DatastoreUpsert),
            Action::DatastoreInfo => Topic::Tables(TableAction::DatastoreInfo),
            Action::DatastoreSearch => Topic::Queries(QueryAction::DatastoreSearch),
            Action::DatastoreDelete => Topic::Queries(QueryAction::DatastoreDelete),
            Action::HarvestSourceCreate => Topic::Harvests(HarvestAction::HarvestSourceCreate),
            Action::HarvestSourceUpdate => Topic::Harvests(HarvestAction::HarvestSourceUpdate),
            Action::HarvestSourceDelete => Topic::Harvests(HarvestAction::HarvestSourceDelete),
            Action::HarvestSourceShow => Topic::Harvests(HarvestAction::HarvestSourceShow),
            Action::HarvestSourceList => Topic::Harvests(HarvestAction::HarvestSourceList),
            Action::HarvestJobCreate => Topic::Harvests(HarvestAction::HarvestJobCreate),
            Action::HarvestJobShow => Topic::Harvests(HarvestAction::HarvestJobShow),
        }
    }
}
