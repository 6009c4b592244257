//! How one value is taken of several.
ghost use Rattle.std.specs.Prelude.{◌≡◌};
ghost use Rattle.std.specs.Option.{option_copied};
ghost use Rattle.dcat_map.specs.Terms.{text_cmp, term_cmp};
ghost use Rattle.dcat_map.specs.Picks.{filled, pick, picked, name_or_text, least_named, least_iri};
ghost use Rattle.dcat_map.specs.Listings.{iri_of};
ghost use Rattle.dcat_map.specs.Sets.{lesser_of};

use crate::terms::{compare_terms, text_of};
use ntriples::{Borrowed, Term, Triple};
use portal_base::text::Text;

// The term, where it is a literal that isn't empty.
fn filled(term: &Term) -> Option<&Term>
    ensures { option_copied result ≡ filled term.now }
{
    match term {
        Term::Literal(text, _, _) => { if text.is_empty() { None } else { Some(term) } }
        _ => None,
    }
}

// The earlier, in the order of terms, of what is there.
fn earlier<'a>(best: Option<&'a Term>, other: Option<&'a Term>) -> Option<&'a Term>
    ensures { option_copied result ≡
        lesser_of term_cmp (option_copied best.entry) (option_copied other.entry) }
{
    match (best, other) {
        (Some(best), Some(other)) => {
            Some(if compare_terms(other, best).is_lt() {
                other
            } else {
                best
            })
        }
        (None, Some(other)) => Some(other),
        (best, None) => best,
    }
}

// Of the literals that aren't empty, the one that comes before all others.
fn pick<'a>(triples: &[Borrowed<'a, Triple>]) -> Option<&'a Term>
    ensures { option_copied result ≡ pick triples.now }
{
    let mut best = None;
    for triple in triples {
        best = earlier(best, filled(&triple.get().object));
    }
    best
}

/// The text of the literal that isn't empty and comes before all others, or else empty.
#[tactic(auto, unfolding(crate::specs::Picks::picked))]
pub(crate) fn picked<'a>(triples: &[Borrowed<'a, Triple>]) -> &'a str
    ensures { result.now ≡ picked triples.now }
{
    match pick(triples) {
        Some(literal) => text_of(literal),
        None => "",
    }
}

// The term's IRI, or its text if it is a literal.
fn name_or_text(term: &Term) -> Option<&Text>
    ensures { option_copied result ≡ name_or_text term.now }
{
    match term {
        Term::Iri(text) | Term::Literal(text, _, _) => Some(text),
        Term::Blank(_) => None,
    }
}

// The term's IRI.
fn iri_of(term: &Term) -> Option<&Text>
    ensures { option_copied result ≡ iri_of term.now }
{
    match term {
        Term::Iri(iri) => Some(iri),
        _ => None,
    }
}

// The lesser of the texts that are there.
fn lesser<'a>(best: Option<&'a Text>, other: Option<&'a Text>) -> Option<&'a Text>
    ensures { option_copied result ≡
        lesser_of text_cmp (option_copied best.entry) (option_copied other.entry) }
{
    match (best, other) {
        (Some(best), Some(other)) => Some(if other.cmp(best).is_lt() { other } else { best }),
        (None, Some(other)) => Some(other),
        (best, None) => best,
    }
}

/// The least by bytes of the IRIs and of the literals' texts.
pub(crate) fn least_named<'a>(triples: &[Borrowed<'a, Triple>]) -> Option<&'a Text>
    ensures { option_copied result ≡ least_named triples.now }
{
    let mut best = None;
    for triple in triples {
        best = lesser(best, name_or_text(&triple.get().object));
    }
    best
}

/// The least by bytes of the IRIs.
pub(crate) fn least_iri<'a>(triples: &[Borrowed<'a, Triple>]) -> Option<&'a Text>
    ensures { option_copied result ≡ least_iri triples.now }
{
    let mut best = None;
    for triple in triples {
        best = lesser(best, iri_of(&triple.get().object));
    }
    best
}
