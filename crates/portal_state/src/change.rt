//! The plan of an accepted call, and what a change claims.
use dataset_answers::change::DatasetChange;
use datastore_answers::plan::TablePlan;
use harvest_sources::SourceChange;
use org_roles::change::OrgChange;
use portal_base::text::Text;

/// The change of an accepted call, in the words of the crate that answered it, with what a table prepared for it. In
/// contracts it is the planned change without the prepared part (`planned_of`), and the entries that this is on its
/// caller's view (`change_of`).
#[derive(Drop)]
pub enum Plan {
    People(OrgChange),
    Datasets(DatasetChange),
    Tables(TablePlan),
    Sources(SourceChange),
}

/// A name or an id that a change claims for a new entry.
#[derive(Drop)]
pub enum Claim {
    OrgName(Text),
    DatasetName(Text),
    DatasetId(Text),
    SourceName(Text),
}
