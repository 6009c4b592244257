//! The distributions that several datasets of a graph share, each described once.
ghost use Rattle.std.specs.Prelude.{◌≡◌, List, IfOk, IfSome, OnOk};
ghost use Rattle.ntriples.specs.declared.term.Triple.{Triple};
ghost use Rattle.dcat_map.specs.Distributions.{distribution_in, AreDescribed};

use crate::distributions::{distribution_of, is_iri_or_blank};
use crate::graph::Graph;
use crate::sets::make_term_set;
use crate::subject::Subject;
use crate::terms::compare_terms;
use crate::vocabulary::DISTRIBUTION;
use harvest_records::Distribution;
use ntriples::{Borrowed, Term, Triple};
use std::alloc::{AllocError, Global};

/// An IRI or a blank node, and what the graph says of it as a distribution.
#[derive(Drop)]
pub(crate) struct Shared<'a> {
    node: Borrowed<'a, Term>,
    distribution: Distribution,
}

impl<'a> Shared<'a> {
    fn of(alloc: Global, graph: &Graph<'_>, node: &'a Term) -> Result<Shared<'a>, AllocError>
        ensures { IfOk result (λ shared. shared.distribution ≡ distribution_in graph.now shared.node) }
    {
        Ok(Shared {
            distribution: distribution_of(alloc, &Subject::of(graph, node))?,
            node: Borrowed::new(node),
        })
    }
}

/// Describes what several datasets of the graph have as a distribution.
pub(crate) fn described_shared<'a>(
    alloc: Global,
    graph: &Graph<'a>,
) -> Result<Vec<Shared<'a>>, AllocError>
    ensures { IfOk result (λ shared. AreDescribed graph.now shared.items) }
{
    let nodes = shared_nodes(alloc, graph)?;
    describe_all(alloc, graph, &nodes)
}

// Describes each of the nodes.
fn describe_all<'a>(
    alloc: Global,
    graph: &Graph<'a>,
    nodes: &[Borrowed<'a, Term>],
) -> Result<Vec<Shared<'a>>, AllocError>
    ensures { IfOk result (λ shared. AreDescribed graph.now shared.items) }
{
    let mut shared = Vec::new(alloc);
    for node in nodes {
        push_described(alloc, &mut shared, graph, node.get())?;
    }
    Ok(shared)
}

// Adds the node, and what the graph says of it.
fn push_described<'a>(
    alloc: Global,
    shared: &mut Vec<Shared<'a>>,
    graph: &Graph<'_>,
    node: &'a Term,
) -> Result<(), AllocError>
    requires { AreDescribed graph.now shared.old.items }
    ensures { OnOk result (AreDescribed graph.now shared.new.items) }
{
    let described = Shared::of(alloc, graph, node)?;
    Ok(shared.push(described)?)
}

/// What is known of the node, if it was described.
pub(crate) fn find<'s>(shared: &'s [Shared<'_>], node: &Term) -> Option<&'s Distribution>
    ensures { (g : List Triple) → AreDescribed g shared.now →
        IfSome result (λ distribution. distribution.now ≡ distribution_in g node.now) }
{
    let place = shared.partition_point(|one| compare_terms(one.node.get(), node).is_lt());
    let found = shared.get(place)?;
    if compare_terms(found.node.get(), node).is_eq() {
        Some(&found.distribution)
    } else {
        None
    }
}

// The IRIs and blank nodes that several datasets have as a distribution, each once and in order.
fn shared_nodes<'a>(
    alloc: Global,
    graph: &Graph<'a>,
) -> Result<Vec<Borrowed<'a, Term>>, AllocError> {
    let mut nodes = all_nodes(alloc, graph)?;
    nodes.sort_unstable_by(|first, second| compare_terms(first.get(), second.get()));
    let mut shared = repeats_of(alloc, &nodes)?;
    make_term_set(&mut shared);
    Ok(shared)
}

// The nodes that are equal to the one before. They only spare copies, so that nothing is promised of them.
fn repeats_of<'a>(
    alloc: Global,
    nodes: &[Borrowed<'a, Term>],
) -> Result<Vec<Borrowed<'a, Term>>, AllocError> {
    let mut repeats = Vec::new(alloc);
    for pair in nodes.windows(2) {
        push_repeat(&mut repeats, pair)?;
    }
    Ok(repeats)
}

// Adds the second node of a pair, if the two are equal.
fn push_repeat<'a>(
    repeats: &mut Vec<Borrowed<'a, Term>>,
    pair: &[Borrowed<'a, Term>],
) -> Result<(), AllocError> {
    match pair {
        [first, second] if compare_terms(first.get(), second.get()).is_eq() => {
            Ok(repeats.push(Borrowed::new(second.get()))?)
        }
        _ => Ok(()),
    }
}

// What some dataset has as a distribution, once for each.
fn all_nodes<'a>(alloc: Global, graph: &Graph<'a>) -> Result<Vec<Borrowed<'a, Term>>, AllocError> {
    let mut nodes = Vec::new(alloc);
    for triple in graph.triples() {
        push_node(&mut nodes, triple.get())?;
    }
    Ok(nodes)
}

// Adds the triple's object, if some dataset has it as a distribution.
fn push_node<'a>(
    nodes: &mut Vec<Borrowed<'a, Term>>,
    triple: &'a Triple,
) -> Result<(), AllocError> {
    if triple.predicate.as_str() == DISTRIBUTION && is_iri_or_blank(&triple.object) {
        nodes.push(Borrowed::new(&triple.object))?;
    }
    Ok(())
}
