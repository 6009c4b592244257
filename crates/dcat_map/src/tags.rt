//! The tags of a dataset.
ghost use Rattle.std.specs.Prelude.{◌≡◌, ◌∷◌, [], ◌++◌, IfOk, OnOk};
ghost use Rattle.std.specs.List.{filter_map};
ghost use Rattle.dcat_map.specs.Tags.{tag_of, tags_among};

use ntriples::{Borrowed, Term, Triple};
use portal_base::copy::TryClone;
use portal_base::seq::Seq;
use portal_base::tag::is_tag;
use portal_base::text::Text;
use std::alloc::{AllocError, Global};

/// How many tags a dataset may have.
const MOST_TAGS: usize = 100;

/// The tags among the objects, ascending by bytes and each once, of which the first 100 are taken.
#[tactic(auto, unfolding(crate::specs::Tags::tags_among))]
pub(crate) fn tags_among(
    alloc: Global,
    triples: &[Borrowed<'_, Triple>],
) -> Result<Seq<Text>, AllocError>
    ensures { IfOk result (λ tags. tags ≡ tags_among triples.now) }
{
    let mut tags = all_tags(alloc, triples)?;
    tags.sort_unstable();
    tags.dedup();
    tags.truncate(MOST_TAGS);
    Ok(Seq::from(tags))
}

// The tags among the objects, as they come.
fn all_tags(alloc: Global, triples: &[Borrowed<'_, Triple>]) -> Result<Vec<Text>, AllocError>
    ensures { IfOk result (λ tags. tags.items ≡ filter_map (λ t. tag_of t.object) triples.now) }
{
    let mut tags = Vec::new(alloc);
    for triple in triples {
        push_tag(alloc, &mut tags, &triple.get().object)?;
    }
    Ok(tags)
}

// Adds the literal's text, if it may be a tag.
fn push_tag(alloc: Global, tags: &mut Vec<Text>, term: &Term) -> Result<(), AllocError>
    ensures { OnOk result (tags.new.items ≡ tags.old.items ++ filter_map tag_of (term.now ∷ [])) }
{
    if let Term::Literal(text, _, _) = term {
        if is_tag(text.as_str()) {
            tags.push(text.try_clone(alloc)?)?;
        }
    }
    Ok(())
}
