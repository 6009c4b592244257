//! The count of each text of a list in which texts repeat.
//!
//! The texts are sorted, so that equal ones are next to each other. Each run of equal texts gives a count.
ghost use Rattle.std.specs.Prelude.{◌≡◌, ◌+◌, ◌<◌, ◌^◌, IfOk, OnOk, reverse};
ghost use Rattle.facets.specs.Counts.{facet_cmp};
ghost use Rattle.facets.specs.Tally.{first_count, run_and, runs, tallied};

use packages::laws::a_set_has_its_texts;
use portal_base::seq::Seq;
use portal_base::text::Text;
use std::alloc::{AllocError, Global};
use std::cmp::Ordering;

/// Higher counts come first, and equal counts by text.
fn compare(first: &(Text, u64), second: &(Text, u64)) -> Ordering
    ensures { result ≡ facet_cmp first.now second.now }
{
    match second.1.cmp(&first.1) {
        Ordering::Equal => first.0.cmp(&second.0),
        other => other,
    }
}

/// Counts one more text, which precedes the counted ones. The last run is that of the first of these.
fn count_one(runs: &mut Vec<(Text, u64)>, text: Text) -> Result<(), AllocError>
    requires { first_count (reverse runs.old.items) + 1 < 2 ^ 64 }
    ensures { OnOk result (reverse runs.new.items ≡ run_and text (reverse runs.old.items)) }
{
    if let Some(run) = runs.last_mut() {
        if text == run.0 {
            run.1 += 1;
            return Ok(());
        }
    }
    runs.push((text, 1))?;
    Ok(())
}

/// The runs of equal texts with their lengths, in reverse.
fn count_runs(alloc: Global, texts: Vec<Text>) -> Result<Vec<(Text, u64)>, AllocError>
    ensures { IfOk result (λ counts. reverse counts.items ≡ runs texts.items) }
{
    let mut rest = texts;
    let mut counts = Vec::new(alloc);
    while let Some(text) = rest.pop() {
        count_one(&mut counts, text)?;
    }
    Ok(counts)
}

/// Each text with the number of its occurrences, ordered as facets are.
pub(crate) fn tally(alloc: Global, texts: Vec<Text>) -> Result<Seq<(Text, u64)>, AllocError>
    ensures { IfOk result (λ counts. counts ≡ tallied texts.items) }
{
    a_set_has_its_texts();
    let mut sorted = texts;
    sorted.sort_unstable();
    let mut counts = count_runs(alloc, sorted)?;
    counts.sort_unstable_by(|first, second| compare(first, second));
    Ok(Seq::from(counts))
}
