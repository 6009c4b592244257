//! A subject's triples, which are searched for in the graph once for all the predicates that are asked of it.
ghost use Rattle.std.specs.Prelude.{◌≡◌};
ghost use Rattle.dcat_map.specs.Graphs.{about};

use crate::graph::Graph;
use ntriples::{Borrowed, Term, Triple};
use std::marker::Model;

/// A node of a graph, and the triples that have it as their subject. A contract sees it as the graph and the node.
#[derive(Drop)]
pub(crate) struct Subject<'s, 'a> {
    graph: &'s Graph<'a>,
    node: &'s Term,
    triples: &'s [Borrowed<'a, Triple>],
}

impl<'s, 'a> Model for Subject<'s, 'a> {
    ghost use Rattle.std.specs.Prelude.{◌≡◌, List, filter};
    ghost use Rattle.std.specs.List.Sorted.{IsStrictlySortedBy};
    ghost use Rattle.ntriples.specs.declared.term.Term.{Term};
    ghost use Rattle.ntriples.specs.declared.term.Triple.{Triple};
    ghost use Rattle.dcat_map.specs.Graphs.{has_subject};
    ghost use Rattle.dcat_map.specs.Terms.{triple_cmp};

    ghost Value = { List Triple × Term };

    ghost view = { λ s. (s.graph.now, s.node.now) };

    ghost invariant = { λ s. (s.triples.now ≡ filter (has_subject s.node.now) s.graph.now) ×
        IsStrictlySortedBy triple_cmp s.graph.now };
}

impl<'s, 'a> Subject<'s, 'a> {
    /// The node in the graph.
    pub(crate) fn of(graph: &'s Graph<'a>, node: &'s Term) -> Subject<'s, 'a>
        ensures { result ≡ (graph.now, node.now) }
    {
        Subject {
            graph,
            node,
            triples: graph.triples_of(node),
        }
    }

    /// The graph.
    pub(crate) fn graph(&self) -> &'s Graph<'a>
        ensures { result.now ≡ self.now.0 }
    {
        self.graph
    }

    /// The triples with this subject and this predicate, by two binary searches among the subject's own.
    pub(crate) fn about(&self, predicate: &str) -> &'s [Borrowed<'a, Triple>]
        ensures { result.now ≡ about self.now.0 self.now.1 predicate.now }
    {
        let triples = self.triples;
        let start = triples.partition_point(|t| t.get().predicate.as_str().cmp(predicate).is_lt());
        let (_, rest) = triples.split_at(start);
        let end = rest.partition_point(|t| t.get().predicate.as_str().cmp(predicate).is_le());
        let (part, _) = rest.split_at(end);
        part
    }
}

/// The graph's triples with this subject and this predicate.
pub(crate) fn about<'s, 'a>(
    graph: &'s Graph<'a>,
    subject: &'s Term,
    predicate: &str,
) -> &'s [Borrowed<'a, Triple>]
    ensures { result.now ≡ about graph.now subject.now predicate.now }
{
    Subject::of(graph, subject).about(predicate)
}
