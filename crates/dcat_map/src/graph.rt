//! A graph as the ascending list of its triples, in which those of a subject are next to each other.
ghost use Rattle.std.specs.Prelude.{◌≡◌, filter, IfOk, IfSome};
ghost use Rattle.dcat_map.specs.Graphs.{graph_of, has_subject, is_typed, is_described};
ghost use Rattle.std.specs.List.Sorted.{IsStrictlySortedBy};
ghost use Rattle.dcat_map.specs.Terms.{triple_cmp};
ghost use Rattle.dcat_map.specs.Distributions.{distribution_in};
ghost use Rattle.dcat_map.specs.Vocabulary.{dcat_dataset_class};

use crate::sets::make_triple_set;
use crate::shared::{self, Shared, described_shared};
use crate::terms::{compare_terms, is_iri};
use crate::vocabulary::{DATASET_CLASS, TYPE};
use harvest_records::Distribution;
use ntriples::{Borrowed, Term, Triple};
use portal_base::seq::Seq;
use portal_base::text::Text;
use std::alloc::{AllocError, Global};
use std::marker::Model;

/// The set of the triples of a list that is lent. A contract sees it as the ascending list of them, each once. What it
/// says of distributions that several datasets share is kept, so that each of these is described once.
#[derive(Drop)]
pub struct Graph<'a> {
    triples: Vec<Borrowed<'a, Triple>>,
    shared: Vec<Shared<'a>>,
}

impl<'a> Model for Graph<'a> {
    ghost use Rattle.std.specs.Prelude.{List};
    ghost use Rattle.std.specs.List.Sorted.{IsStrictlySortedBy};
    ghost use Rattle.ntriples.specs.declared.term.Triple.{Triple};
    ghost use Rattle.dcat_map.specs.Terms.{triple_cmp};
    ghost use Rattle.dcat_map.specs.Distributions.{AreDescribed};

    ghost Value = { List Triple };

    ghost view = { λ g. g.triples.items };

    ghost invariant = { λ g. IsStrictlySortedBy triple_cmp g.triples.items ×
        AreDescribed g.triples.items g.shared.items };
}

impl<'a> Graph<'a> {
    /// The graph of the triples.
    pub fn of(alloc: Global, triples: &'a Seq<Triple>) -> Result<Graph<'a>, AllocError>
        ensures { IfOk result (λ graph. graph ≡ graph_of triples.now) }
    {
        let mut graph = Graph::undescribed(alloc, triples.as_slice())?;
        graph.shared = described_shared(alloc, &graph)?;
        Ok(graph)
    }

    // The graph of the triples, without what it says of distributions.
    fn undescribed(alloc: Global, triples: &'a [Triple]) -> Result<Graph<'a>, AllocError>
        ensures { IfOk result (λ graph. graph ≡ graph_of triples.now) }
    {
        let mut triples = borrow_all(alloc, triples)?;
        make_triple_set(&mut triples);
        Ok(Graph {
            triples,
            shared: Vec::new(alloc),
        })
    }

    /// The triples.
    pub(crate) fn triples(&self) -> &[Borrowed<'a, Triple>]
        ensures { result.now ≡ self.now }
    {
        self.triples.as_slice()
    }

    /// The triples with this subject, by two binary searches.
    pub(crate) fn triples_of(&self, subject: &Term) -> &[Borrowed<'a, Triple>]
        ensures part { result.now ≡ filter (has_subject subject.now) self.now }
        ensures ascending { IsStrictlySortedBy triple_cmp self.now }
    {
        let triples = self.triples.as_slice();
        let start = triples.partition_point(|t| compare_terms(&t.get().subject, subject).is_lt());
        let (_, rest) = triples.split_at(start);
        let end = rest.partition_point(|t| compare_terms(&t.get().subject, subject).is_le());
        let (part, _) = rest.split_at(end);
        part
    }

    /// What is known of a distribution that several datasets share.
    pub(crate) fn shared(&self, node: &Term) -> Option<&Distribution>
        ensures { IfSome result (λ distribution. distribution.now ≡ distribution_in self.now node.now) }
    {
        shared::find(self.shared.as_slice(), node)
    }
}

/// Whether a triple says that the IRI is a dataset. Takes no memory.
#[tactic(auto, unfolding(crate::specs::Graphs::is_described))]
pub fn described(graph: &Seq<Triple>, iri: &Text) -> bool
    ensures { result ≡ is_described graph.now iri.now }
{
    graph.as_slice().iter().any(|triple| is_iri(&triple.subject, iri.as_str())
        && is_typed(triple, DATASET_CLASS))
}

/// Whether the triple says that its subject is of this class.
pub(crate) fn is_typed(triple: &Triple, class: &str) -> bool
    ensures { result ≡ is_typed class.now triple.now }
{
    triple.predicate.as_str() == TYPE && is_iri(&triple.object, class)
}

// A reference to each triple.
fn borrow_all(alloc: Global, triples: &[Triple]) -> Result<Vec<Borrowed<'_, Triple>>, AllocError>
    ensures { IfOk result (λ borrowed. borrowed.items ≡ triples.now) }
{
    let mut borrowed = Vec::with_capacity(alloc, triples.len())?;
    for triple in triples {
        borrowed.push(Borrowed::new(triple))?;
    }
    Ok(borrowed)
}
