//! The distributions of a dataset.
ghost use Rattle.std.specs.Prelude.{◌≡◌, ◌∷◌, [], ◌++◌, ◌<◌, map, IfOk, OnOk};
ghost use Rattle.std.specs.Option.{option_copied};
ghost use Rattle.dcat_map.specs.Distributions.{after_mark, last_part, stripped, media_type, or_other, or_last_part};
ghost use Rattle.dcat_map.specs.Distributions.{distribution_in, distribution_cmp, is_iri_or_blank, distributions_in};
ghost use Rattle.dcat_map.specs.Distributions.{resources_in};
ghost use Rattle.dcat_map.specs.Graphs.{about};
ghost use Rattle.dcat_map.specs.Picks.{picked, least_named, least_iri, or_empty};
ghost use Rattle.dcat_map.specs.Vocabulary.{dcat_download_url, dcat_access_url, dcat_media_type, dct_title};
ghost use Rattle.dcat_map.specs.Vocabulary.{dct_description, dct_format};

use crate::graph::Graph;
use crate::picks::{least_iri, least_named, picked};
use crate::subject::Subject;
use crate::vocabulary::{
    ACCESS_URL, DESCRIPTION, DISTRIBUTION, DOWNLOAD_URL, FORMAT, MEDIA_TYPE, MEDIA_TYPES,
    OLD_MEDIA_TYPES, TITLE,
};
use harvest_records::Distribution;
use ntriples::{Borrowed, Term, Triple};
use portal_base::copy::TryClone;
use portal_base::seq::Seq;
use portal_base::text::Text;
use std::alloc::{AllocError, Global};
use std::cmp::Ordering;

/// How many resources a dataset may have.
const MOST_RESOURCES: usize = 200;

// What follows the last such character, or all where there is none.
fn after_mark(text: &str, mark: char) -> &str
    requires { mark < 128 }
    ensures { result.now ≡ after_mark mark text.now }
{
    match text.rsplit_once(mark) {
        Some((_, rest)) => rest,
        None => text,
    }
}

// What follows the last `/` or `#`.
fn last_part(iri: &str) -> &str
    ensures { result.now ≡ last_part iri.now }
{
    after_mark(after_mark(iri, '/'), '#')
}

// What follows this front, if the text begins with it.
fn stripped<'a>(text: &'a str, front: &str) -> Option<&'a str>
    ensures { option_copied result ≡ stripped front.now text.now }
{
    text.strip_prefix(front)
}

// The text without what the IRIs of media types begin with.
fn media_type(text: &str) -> &str
    ensures { result.now ≡ media_type text.now }
{
    if let Some(rest) = stripped(text, MEDIA_TYPES) {
        return rest;
    }
    match stripped(text, OLD_MEDIA_TYPES) {
        Some(rest) => rest,
        None => text,
    }
}

// The text, or empty.
pub(crate) fn or_empty<'a>(text: Option<&'a Text>) -> &'a str
    ensures { result.now ≡ or_empty (option_copied text.entry) }
{
    match text {
        Some(text) => text.as_str(),
        None => "",
    }
}

// Where the distribution is found.
fn url_of<'a>(node: &Subject<'_, 'a>) -> &'a str
    ensures { result.now ≡ or_other (least_named (about node.now.0 node.now.1 dcat_download_url))
        (least_named (about node.now.0 node.now.1 dcat_access_url)) }
{
    match least_named(node.about(DOWNLOAD_URL)) {
        Some(url) => url.as_str(),
        None => or_empty(least_named(node.about(ACCESS_URL))),
    }
}

// Its format.
fn format_of<'a>(node: &Subject<'_, 'a>) -> &'a str
    ensures { result.now ≡ or_last_part (picked (about node.now.0 node.now.1 dct_format))
        (or_empty (least_iri (about node.now.0 node.now.1 dct_format))) }
{
    let formats = node.about(FORMAT);
    let format = picked(formats);
    if !format.is_empty() {
        return format;
    }
    last_part(or_empty(least_iri(formats)))
}

// Its media type.
fn media_type_of<'a>(node: &Subject<'_, 'a>) -> &'a str
    ensures { result.now ≡ media_type (or_empty (least_named (about node.now.0 node.now.1 dcat_media_type))) }
{
    media_type(or_empty(least_named(node.about(MEDIA_TYPE))))
}

/// What the graph says of the distribution.
#[tactic(auto, unfolding(crate::specs::Distributions::distribution_in))]
pub(crate) fn distribution_of(
    alloc: Global,
    node: &Subject<'_, '_>,
) -> Result<Distribution, AllocError>
    ensures { IfOk result (λ distribution. distribution ≡ distribution_in node.now.0 node.now.1) }
{
    let (name, description) = texts_of(alloc, node)?;
    let (url, format, mimetype) = file_of(alloc, node)?;
    Ok(Distribution {
        url,
        name,
        format,
        mimetype,
        description,
    })
}

// The title and the description.
fn texts_of(alloc: Global, node: &Subject<'_, '_>) -> Result<(Text, Text), AllocError>
    ensures name { IfOk result (λ texts. texts.0 ≡ picked (about node.now.0 node.now.1 dct_title)) }
    ensures description { IfOk result (λ texts. texts.1 ≡ picked (about node.now.0 node.now.1 dct_description)) }
{
    let name = Text::from_str(alloc, picked(node.about(TITLE)))?;
    let description = picked(node.about(DESCRIPTION));
    Ok((name, Text::from_str(alloc, description)?))
}

// Where the file is found, its format and its media type.
fn file_of(alloc: Global, node: &Subject<'_, '_>) -> Result<(Text, Text, Text), AllocError>
    ensures url { IfOk result (λ file. file.0 ≡ or_other (least_named (about node.now.0 node.now.1 dcat_download_url))
        (least_named (about node.now.0 node.now.1 dcat_access_url))) }
    ensures format { IfOk result (λ file. file.1 ≡ or_last_part (picked (about node.now.0 node.now.1 dct_format))
        (or_empty (least_iri (about node.now.0 node.now.1 dct_format)))) }
    ensures mimetype { IfOk result (λ file.
        file.2 ≡ media_type (or_empty (least_named (about node.now.0 node.now.1 dcat_media_type)))) }
{
    let url = Text::from_str(alloc, url_of(node))?;
    let format = Text::from_str(alloc, format_of(node))?;
    Ok((url, format, Text::from_str(alloc, media_type_of(node))?))
}

// A copy of the distribution.
fn copy_of(alloc: Global, distribution: &Distribution) -> Result<Distribution, AllocError>
    ensures { IfOk result (λ copy. copy ≡ distribution.now) }
{
    Ok(Distribution {
        url: distribution.url.try_clone(alloc)?,
        name: distribution.name.try_clone(alloc)?,
        format: distribution.format.try_clone(alloc)?,
        mimetype: distribution.mimetype.try_clone(alloc)?,
        description: distribution.description.try_clone(alloc)?,
    })
}

// What the graph says of the distribution, which is known already where several datasets share it.
fn known_or_described(
    alloc: Global,
    graph: &Graph<'_>,
    node: &Term,
) -> Result<Distribution, AllocError>
    ensures { IfOk result (λ distribution. distribution ≡ distribution_in graph.now node.now) }
{
    match graph.shared(node) {
        Some(distribution) => copy_of(alloc, distribution),
        None => distribution_of(alloc, &Subject::of(graph, node)),
    }
}

// The order by url, name, format, mimetype and description.
#[tactic(auto, unfolding(crate::specs::Distributions::distribution_cmp))]
fn compare_distributions(first: &Distribution, second: &Distribution) -> Ordering
    ensures { result ≡ distribution_cmp first.now second.now }
{
    let by_description = first.description.cmp(&second.description);
    let by_mimetype = first.mimetype.cmp(&second.mimetype).then(by_description);
    let by_format = first.format.cmp(&second.format).then(by_mimetype);
    let by_name = first.name.cmp(&second.name).then(by_format);
    first.url.cmp(&second.url).then(by_name)
}

/// The distributions of the dataset in order, of which the first 200 are taken.
#[tactic(auto, unfolding(crate::specs::Distributions::resources_in))]
pub(crate) fn resources_of(
    alloc: Global,
    dataset: &Subject<'_, '_>,
) -> Result<Seq<Distribution>, AllocError>
    ensures { IfOk result (λ resources. resources ≡ resources_in dataset.now.0 dataset.now.1) }
{
    let triples = dataset.about(DISTRIBUTION);
    let mut distributions = distributions_of(alloc, dataset.graph(), triples)?;
    distributions.sort_unstable_by(compare_distributions);
    distributions.truncate(MOST_RESOURCES);
    Ok(Seq::from(distributions))
}

// One for each object that is no literal.
fn distributions_of(
    alloc: Global,
    graph: &Graph<'_>,
    triples: &[Borrowed<'_, Triple>],
) -> Result<Vec<Distribution>, AllocError>
    ensures { IfOk result (λ all. all.items ≡ distributions_in graph.now triples.now) }
{
    let mut distributions = Vec::new(alloc);
    for triple in triples {
        push_distribution(alloc, graph, &mut distributions, triple.get())?;
    }
    Ok(distributions)
}

// Adds what the graph says of the triple's object, if it is no literal.
#[tactic(auto, unfolding(crate::specs::Distributions::distributions_in))]
fn push_distribution(
    alloc: Global,
    graph: &Graph<'_>,
    distributions: &mut Vec<Distribution>,
    triple: &Triple,
) -> Result<(), AllocError>
    ensures { OnOk result (distributions.new.items ≡
        distributions.old.items ++ distributions_in graph.now (triple.now ∷ [])) }
{
    if is_iri_or_blank(&triple.object) {
        distributions.push(known_or_described(alloc, graph, &triple.object)?)?;
    }
    Ok(())
}

/// Whether the term may be a distribution.
pub(crate) fn is_iri_or_blank(term: &Term) -> bool
    ensures { result ≡ is_iri_or_blank term.now }
{
    !matches!(term, Term::Literal(_, _, _))
}
