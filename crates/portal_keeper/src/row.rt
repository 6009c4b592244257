//! The rows of a store.
ghost use Rattle.std.specs.Prelude.{◌≡◌, ◌≢◌, IfSome, IsNone};
ghost use Rattle.portal_keeper.specs.declared.row.RowKind.{RowKind};
ghost use Rattle.portal_keeper.specs.Rows.{kind_number, key_cmp, are_distinct};

use portal_base::copy::TryClone;
use portal_base::ordered::{Ordered, are_apart};
use portal_base::text::Text;
use std::alloc::{AllocError, Global};
use std::cmp::Ordering;

/// What a row is about.
#[derive(Clone, Copy, Debug, PartialEq, Eq)]
pub enum RowKind {
    /// The version of the rows.
    Version,
    /// An organization with its roles.
    Org,
    /// A dataset.
    Set,
    /// A table without its rows.
    Table,
    /// A row of a table.
    Row,
    /// A harvest source.
    Source,
    /// A harvest job.
    Job,
}

impl RowKind {
    /// The number of the kind, from 1 to 7. Rows are in order by it, and a file has it in place of the kind.
    pub fn number(self) -> u8
        ensures { result ≡ kind_number self }
    {
        match self {
            RowKind::Version => 1,
            RowKind::Org => 2,
            RowKind::Set => 3,
            RowKind::Table => 4,
            RowKind::Row => 5,
            RowKind::Source => 6,
            RowKind::Job => 7,
        }
    }

    /// The kind of that number, if there is one.
    pub fn of_number(number: u8) -> Option<RowKind>
        ensures kind { IfSome result (λ kind. kind_number kind ≡ number) }
        ensures none { IsNone result → (kind : RowKind) → kind_number kind ≢ number }
    {
        match number {
            1 => Some(RowKind::Version),
            2 => Some(RowKind::Org),
            3 => Some(RowKind::Set),
            4 => Some(RowKind::Table),
            5 => Some(RowKind::Row),
            6 => Some(RowKind::Source),
            7 => Some(RowKind::Job),
            _ => None,
        }
    }
}

/// A row of a store: a body at a kind and a key.
#[derive(Drop)]
pub struct KeptRow {
    pub kind: RowKind,
    pub key: Text,
    pub body: Text,
}

impl TryClone for KeptRow {
    fn try_clone(&self, alloc: Global) -> Result<KeptRow, AllocError> {
        Ok(KeptRow {
            kind: self.kind,
            key: self.key.try_clone(alloc)?,
            body: self.body.try_clone(alloc)?,
        })
    }
}

impl Ordered for KeptRow {
    ghost use Rattle.portal_keeper.specs.Rows.{row_cmp, row_cmp_total};

    ghost order = { row_cmp };

    ghost total = { row_cmp_total };

    /// The order by kind, then by key.
    fn compare(&self, other: &KeptRow) -> Ordering {
        compare_keys(self.kind, &self.key, other.kind, &other.key)
    }
}

/// The order of kinds and keys: by the number of the kind, then by the bytes of the key.
pub(crate) fn compare_keys(
    kind: RowKind,
    key: &Text,
    other_kind: RowKind,
    other_key: &Text,
) -> Ordering
    ensures { result ≡ key_cmp kind key.now other_kind other_key.now }
{
    match kind.number().cmp(&other_kind.number()) {
        Ordering::Equal => key.cmp(other_key),
        unequal => unequal,
    }
}

/// Whether no row has the kind and the key of a later row.
pub fn rows_are_distinct(rows: &[KeptRow]) -> bool
    ensures { result ≡ are_distinct rows.now }
{
    are_apart(rows)
}
