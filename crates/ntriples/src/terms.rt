//! Terms, triples and lines.
ghost use Rattle.std.specs.Prelude.{◌≡◌};
ghost use Rattle.std.specs.Str.{chars};
ghost use Rattle.ntriples.specs.Reading.{Gives, character, skip_blanks};
ghost use Rattle.ntriples.specs.Parsing.{datatype, language_tagged, typed, literal_suffix, literal, blank_node};
ghost use Rattle.ntriples.specs.Parsing.{iri_term};
ghost use Rattle.ntriples.specs.Parsing.{subject, object, object_end, predicate_object, triple, is_end};
ghost use Rattle.ntriples.specs.Parsing.{triple_alone, line, quoted};
ghost use Rattle.ntriples.specs.Grammar.{xsd_string, rdf_lang_string};

use crate::fault::Refusal;
use crate::names::{blank_node_label, langtag};
use crate::quoted::{QuoteKind, iriref, quoted};
use crate::term::{Term, Triple};
use crate::text::{after, first, skip_blanks};
use portal_base::split::split_first;
use portal_base::text::Text;
use std::alloc::Global;

/// The datatype of a literal with neither a datatype nor a language.
pub(crate) const XSD_STRING: &str = "http://www.w3.org/2001/XMLSchema#string";

/// The datatype of a literal with a language.
pub(crate) const RDF_LANG_STRING: &str = "http://www.w3.org/1999/02/22-rdf-syntax-ns#langString";

// The datatype of a literal after its first `^`.
#[tactic(auto, unfolding(crate::specs::Parsing::datatype))]
fn datatype(alloc: Global, text: &str) -> Result<(Text, &str), Refusal>
    ensures { Gives (λ x. (x.0, chars x.1.now)) result (datatype (chars text.now)) }
{
    let rest = after(text, '^')?;
    iriref(alloc, rest)
}

// The literal of a language, after its `@`.
fn language_tagged(alloc: Global, lexical: Text, text: &str) -> Result<(Term, &str), Refusal>
    ensures { Gives (λ x. (x.0, chars x.1.now)) result (language_tagged lexical (chars text.now)) }
{
    let (tag, rest) = langtag(alloc, text)?;
    let lang_string = Text::from_static(RDF_LANG_STRING);
    Ok((Term::Literal(lexical, lang_string, Some(tag)), rest))
}

// The literal of a datatype, after its first `^`.
fn typed(alloc: Global, lexical: Text, text: &str) -> Result<(Term, &str), Refusal>
    ensures { Gives (λ x. (x.0, chars x.1.now)) result (typed lexical (chars text.now)) }
{
    let (datatype, rest) = datatype(alloc, text)?;
    Ok((Term::Literal(lexical, datatype, None), rest))
}

// What may follow a literal's closing quote.
#[tactic(auto, unfolding(crate::specs::Parsing::literal_suffix))]
fn literal_suffix(alloc: Global, lexical: Text, text: &str) -> Result<(Term, &str), Refusal>
    ensures { Gives (λ x. (x.0, chars x.1.now)) result (literal_suffix lexical (chars text.now)) }
{
    match split_first(text) {
        Some(('@', rest)) => language_tagged(alloc, lexical, rest),
        Some(('^', rest)) => typed(alloc, lexical, rest),
        _ => {
            let string = Text::from_static(XSD_STRING);
            Ok((Term::Literal(lexical, string, None), text))
        }
    }
}

#[tactic(auto, unfolding(crate::specs::Parsing::literal))]
fn literal(alloc: Global, text: &str) -> Result<(Term, &str), Refusal>
    ensures { Gives (λ x. (x.0, chars x.1.now)) result (literal (chars text.now)) }
{
    let rest = after(text, '"')?;
    let (lexical, rest) = quoted(alloc, QuoteKind::Literal, rest)?;
    literal_suffix(alloc, lexical, rest)
}

#[tactic(auto, unfolding(crate::specs::Parsing::subject))]
fn subject(alloc: Global, text: &str) -> Result<(Term, &str), Refusal>
    ensures { Gives (λ x. (x.0, chars x.1.now)) result (subject (chars text.now)) }
{
    let (character, _) = first(text)?;
    if character == '_' {
        blank_node(alloc, text)
    } else {
        iri_term(alloc, text)
    }
}

fn blank_node(alloc: Global, text: &str) -> Result<(Term, &str), Refusal>
    ensures { Gives (λ x. (x.0, chars x.1.now)) result (blank_node (chars text.now)) }
{
    let (label, rest) = blank_node_label(alloc, text)?;
    Ok((Term::Blank(label), rest))
}

fn iri_term(alloc: Global, text: &str) -> Result<(Term, &str), Refusal>
    ensures { Gives (λ x. (x.0, chars x.1.now)) result (iri_term (chars text.now)) }
{
    let (iri, rest) = iriref(alloc, text)?;
    Ok((Term::Iri(iri), rest))
}

#[tactic(auto, unfolding(crate::specs::Parsing::object))]
fn object(alloc: Global, text: &str) -> Result<(Term, &str), Refusal>
    ensures { Gives (λ x. (x.0, chars x.1.now)) result (object (chars text.now)) }
{
    let (character, _) = first(text)?;
    if character == '"' {
        literal(alloc, text)
    } else {
        subject(alloc, text)
    }
}

// The object, up to the triple's full stop.
#[tactic(auto, unfolding(crate::specs::Parsing::object_end))]
fn object_end(alloc: Global, text: &str) -> Result<(Term, &str), Refusal>
    ensures { Gives (λ x. (x.0, chars x.1.now)) result (object_end (chars text.now)) }
{
    let (object, rest) = object(alloc, skip_blanks(text))?;
    let rest = after(skip_blanks(rest), '.')?;
    Ok((object, rest))
}

// The predicate and the object, up to the triple's full stop.
#[tactic(auto, unfolding(crate::specs::Parsing::predicate_object))]
fn predicate_object(alloc: Global, text: &str) -> Result<((Text, Term), &str), Refusal>
    ensures { Gives (λ x. (x.0, chars x.1.now)) result (predicate_object (chars text.now)) }
{
    let (predicate, rest) = iriref(alloc, skip_blanks(text))?;
    let (object, rest) = object_end(alloc, rest)?;
    Ok(((predicate, object), rest))
}

#[tactic(auto, unfolding(crate::specs::Parsing::triple))]
fn triple(alloc: Global, text: &str) -> Result<(Triple, &str), Refusal>
    ensures { Gives (λ x. (x.0, chars x.1.now)) result (triple (chars text.now)) }
{
    let (subject, rest) = subject(alloc, text)?;
    let ((predicate, object), rest) = predicate_object(alloc, rest)?;
    let triple = Triple {
        subject,
        predicate,
        object,
    };
    Ok((triple, rest))
}

// Whether the text is empty, or a comment.
fn is_end(text: &str) -> bool
    ensures { result ≡ is_end (chars text.now) }
{
    match split_first(text) {
        Some((character, _)) => character == '#',
        None => true,
    }
}

#[tactic(auto, unfolding(crate::specs::Parsing::triple_alone))]
fn triple_alone(alloc: Global, text: &str) -> Result<Triple, Refusal>
    ensures { Gives (λ t. t) result (triple_alone (chars text.now)) }
{
    let (triple, rest) = triple(alloc, text)?;
    is_end(skip_blanks(rest))
        .then_some(triple)
        .ok_or(Refusal::Malformed)
}

/// The triple of a line, if it has one.
#[tactic(auto, unfolding(crate::specs::Parsing::line))]
pub(crate) fn line(alloc: Global, text: &str) -> Result<Option<Triple>, Refusal>
    ensures { Gives (λ t. t) result (line (chars text.now)) }
{
    let text = skip_blanks(text);
    if is_end(text) {
        return Ok(None);
    }
    Ok(Some(triple_alone(alloc, text)?))
}
