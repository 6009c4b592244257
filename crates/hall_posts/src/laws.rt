//! Laws of what passes know. Each function has an empty body, and its contract is the law.
ghost use Rattle.std.specs.Prelude.{◌≡◌, ◌++◌, ℕ, List, None, Option, Some, length};
ghost use Rattle.portal_hall.specs.History.{Begins, replay};
ghost use Rattle.portal_hall.specs.Passes.{IsEntry, IsRefusal};
ghost use Rattle.hall_posts.specs.Posts.{Advances};
ghost use Rattle.hall_posts.specs.Replies.{IsReplyAt};

use portal_hall::hall::Hall;
use portal_hall::machine::Machine;
use portal_hall::pass::Pass;

/// A reply at an index of a prefix of the history is the reply at that index of the history. So what a pass was told, and its
/// `seen` shows, holds of the history of the closed hall, once the pass is joined to the one that closes it.
pub fn replies_hold_of_the_history<M: Machine>()
    ensures { (core : M.Core) (prefix history : List M.Event) (event : M.Event) (reply : M.Reply) (front : ℕ)
        (entry : Option ℕ) → Begins prefix history →
        IsReplyAt M.step M.IsOutOfMemory M.IsFault core prefix event reply front entry →
        IsReplyAt M.step M.IsOutOfMemory M.IsFault core history event reply front entry }
{}

/// The reply to an accepted event is the one at the event's index.
pub fn an_entry_is_replied<M: Machine>()
    ensures { (core : M.Core) (before after : List M.Event) (event : M.Event) (reply : M.Reply) (front k : ℕ) →
        IsEntry M.step core before after event reply front k →
        IsReplyAt M.step M.IsOutOfMemory M.IsFault core after event reply front (Some k) }
{}

/// The reply to an event that isn't accepted is the one after all that the pass has then seen.
pub fn a_refusal_is_replied<M: Machine>()
    ensures { (core : M.Core) (events : List M.Event) (event : M.Event) (reply : M.Reply) (before after : ℕ) →
        IsRefusal M.step M.IsOutOfMemory M.IsFault (replay M.step core events) event reply before after →
        IsReplyAt M.step M.IsOutOfMemory M.IsFault core events event reply (length events) None }
{}

/// What a pass gained by some acts and then by others is what it gained by all of them.
pub fn advances_add_up<M: Machine>(
    hall: &Hall<M>,
    before: &Pass<M>,
    between: &Pass<M>,
    after: &Pass<M>,
)
    ensures { (some others : List ℕ) → Advances hall.now some before.now between.now →
        Advances hall.now others between.now after.now → Advances hall.now (some ++ others) before.now after.now }
{}
