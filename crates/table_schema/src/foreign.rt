//! Foreign keys.

use portal_base::seq::Seq;
use portal_base::text::Text;

/// A foreign key (Table Schema v1, "Foreign Keys"): the values of some fields refer to a row of another table, or of
/// the same one.
#[derive(Drop)]
pub struct Foreign {
    /// The indices of the fields, counted from 0.
    pub fields: Seq<u32>,
    /// The resource whose table the key refers to. The empty text is the same table.
    pub resource: Text,
    /// The names of the fields in that table.
    pub target: Seq<Text>,
}
