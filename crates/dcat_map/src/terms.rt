//! The order of terms, and tests of them.
ghost use Rattle.std.specs.Prelude.{◌≡◌};
ghost use Rattle.dcat_map.specs.Terms.{ends_subtag, is_english, rank_of, language_of, text_of, datatype_of, term_cmp};
ghost use Rattle.dcat_map.specs.Terms.{triple_cmp, is_iri};

use ntriples::{Term, Triple};
use std::cmp::Ordering;

// Whether a subtag of a language ends here.
fn ends_subtag(rest: &[u8]) -> bool
    ensures { result ≡ ends_subtag rest.now }
{
    match rest {
        [] => true,
        [byte, ..] => *byte == b'-',
    }
}

// Whether the language is English.
fn is_english(tag: &[u8]) -> bool
    ensures { result ≡ is_english tag.now }
{
    match tag {
        [first, second, rest @ ..] => {
            (*first == b'e' || *first == b'E')
                && (*second == b'n' || *second == b'N')
                && ends_subtag(rest)
        }
        _ => false,
    }
}

fn rank_of(term: &Term) -> u8
    ensures { result ≡ rank_of term.now }
{
    match term {
        Term::Literal(_, _, None) => 0,
        Term::Literal(_, _, Some(tag)) => { if is_english(tag.as_bytes()) { 1 } else { 2 } }
        Term::Iri(_) => 3,
        Term::Blank(_) => 4,
    }
}

fn language_of(term: &Term) -> &str
    ensures { result.now ≡ language_of term.now }
{
    match term {
        Term::Literal(_, _, Some(tag)) => tag.as_str(),
        _ => "",
    }
}

/// A literal's text, an IRI, or a label.
pub(crate) fn text_of(term: &Term) -> &str
    ensures { result.now ≡ text_of term.now }
{
    match term {
        Term::Iri(text) | Term::Blank(text) | Term::Literal(text, _, _) => text.as_str(),
    }
}

fn datatype_of(term: &Term) -> &str
    ensures { result.now ≡ datatype_of term.now }
{
    match term {
        Term::Literal(_, datatype, _) => datatype.as_str(),
        _ => "",
    }
}

/// The order of terms by which one of several literals is picked. Two IRIs differ by their texts alone, and so do two blank
/// nodes.
#[tactic(auto, using(crate::proofs::Orders::iris_by_text, crate::proofs::Orders::blank_nodes_by_label))]
pub(crate) fn compare_terms(first: &Term, second: &Term) -> Ordering
    ensures { result ≡ term_cmp first.now second.now }
{
    match (first, second) {
        (Term::Iri(first), Term::Iri(second)) => first.cmp(second),
        (Term::Blank(first), Term::Blank(second)) => first.cmp(second),
        _ => compare_parts(first, second),
    }
}

// The order of terms by each of their parts. It looks no further than where they first differ.
#[tactic(auto, unfolding(crate::specs::Terms::term_cmp))]
fn compare_parts(first: &Term, second: &Term) -> Ordering
    ensures { result ≡ term_cmp first.now second.now }
{
    let by_rank = rank_of(first).cmp(&rank_of(second));
    if by_rank.is_ne() {
        return by_rank;
    }
    let by_language = language_of(first).cmp(language_of(second));
    if by_language.is_ne() {
        return by_language;
    }
    let by_text = text_of(first).cmp(text_of(second));
    if by_text.is_ne() {
        return by_text;
    }
    datatype_of(first).cmp(datatype_of(second))
}

/// The order of triples by subject, then predicate, then object. It looks no further than where they first differ.
#[tactic(auto, unfolding(crate::specs::Terms::triple_cmp))]
pub(crate) fn compare_triples(first: &Triple, second: &Triple) -> Ordering
    ensures { result ≡ triple_cmp first.now second.now }
{
    let by_subject = compare_terms(&first.subject, &second.subject);
    if by_subject.is_ne() {
        return by_subject;
    }
    let by_predicate = first.predicate.cmp(&second.predicate);
    if by_predicate.is_ne() {
        return by_predicate;
    }
    compare_terms(&first.object, &second.object)
}

/// Whether the term is this IRI.
pub(crate) fn is_iri(term: &Term, iri: &str) -> bool
    ensures { result ≡ is_iri iri.now term.now }
{
    match term {
        Term::Iri(name) => name.as_str() == iri,
        _ => false,
    }
}
