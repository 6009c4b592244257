//! The request of a connection.
use portal_base::seq::Seq;
use portal_base::text::Text;

/// The request of a connection, whose action is named by its path.
#[derive(Debug, Drop)]
pub enum Incoming {
    /// The action, the body, and the token where there is one.
    Post(Text, Seq<u8>, Option<Text>),
    /// The action, the query, and the token where there is one.
    Get(Text, Text, Option<Text>),
}
