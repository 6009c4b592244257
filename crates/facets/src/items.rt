//! What of the counts a search shows.
ghost use Rattle.std.specs.Prelude.{◌≡◌};
ghost use Rattle.facets.specs.Items.{items_shown, up_to};

use portal_base::seq::Seq;
use portal_base::text::Text;

/// Drops the counts after the limit. Without a limit all stay.
fn truncate(counts: &mut Vec<(Text, u64)>, limit: Option<u64>)
    ensures { counts.new.items ≡ up_to limit counts.old.items }
{
    if let Some(limit) = limit {
        counts.truncate(limit as usize);
    }
}

/// The counts that are at least `mincount`, in their order, up to the limit. Without a limit these are all.
pub fn facet_items(counts: Seq<(Text, u64)>, mincount: u64, limit: Option<u64>) -> Seq<(Text, u64)>
    ensures { result ≡ items_shown mincount limit counts }
{
    let mut items = counts.into_vec();
    items.retain(|item| mincount <= item.1);
    truncate(&mut items, limit);
    Seq::from(items)
}
