//! The method of a batch (CKAN's `datastore_upsert`).

/// What a record of the batch does, depending on its primary key.
#[derive(Clone, Copy, Debug, Drop, PartialEq, Eq)]
pub enum Method {
    /// It replaces the row that has its key, or is a new row.
    Upsert,
    /// It is a new row.
    Insert,
    /// It replaces the row that has its key.
    Update,
}
