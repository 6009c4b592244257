//! The terms of RDF and the triples of a graph.

use portal_base::text::Text;

/// A term (RDF 1.1 Concepts, section 3.1).
#[derive(Debug, Drop)]
pub enum Term {
    /// An IRI, which needn't be absolute.
    Iri(Text),
    /// A blank node, by its label without `_:`.
    Blank(Text),
    /// A literal: its lexical form, the IRI of its datatype, and its language tag as written.
    Literal(Text, Text, Option<Text>),
}

/// A triple: an IRI or a blank node, the IRI of a property, and any term.
#[derive(Debug, Drop)]
pub struct Triple {
    pub subject: Term,
    pub predicate: Text,
    pub object: Term,
}
