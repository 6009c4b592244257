//! The bounds of a page, and the items within them.
ghost use Rattle.std.specs.Prelude.{◌≡◌, ◌+◌, drop, min, take};

/// The bounds of a page: it skips `offset` items and has at most `limit` items.
#[derive(Clone, Copy)]
pub struct PageBounds {
    pub offset: u64,
    pub limit: u64,
}

impl PageBounds {
    /// How many of this many items are on the page or before it.
    pub fn end_within(self, count: usize) -> usize
        ensures { result ≡ min (self.offset + self.limit) count }
    {
        let end = self.offset.saturating_add(self.limit);
        count.min(end as usize)
    }
}

/// This many of the first items, or all items if there are fewer.
pub fn leading<T>(items: &[T], count: usize) -> &[T]
    ensures { result.now ≡ take count items.now }
{
    &items[..items.len().min(count)]
}

/// The items within the bounds of a page.
pub fn page_of<T>(items: &[T], bounds: PageBounds) -> &[T]
    ensures { result.now ≡ take bounds.limit (drop bounds.offset items.now) }
{
    let after = &items[items.len().min(bounds.offset as usize)..];
    leading(after, bounds.limit as usize)
}
