//! Posts: they are split off a pass, work in threads, and are joined to the pass again.
ghost use Rattle.std.specs.Prelude.{◌≡◌, ◌+◌, ◌<◌, ◌≤◌, ◌++◌, All, IfOk, MatchResult};
ghost use Rattle.std.specs.Prelude.{map, vec_capacity, vec_len};
ghost use Rattle.std.specs.Fork.{AcceptsEach, ChangesEach};
ghost use Rattle.portal_hall.specs.History.{Begins};
ghost use Rattle.portal_hall.specs.Passes.{IsPassOf, mark, own, room_of, seen};
ghost use Rattle.hall_posts.specs.Posts.{IsNewPost, IsPostOf, Knows, indexes_of, seats_in, work_of};

use portal_hall::hall::Hall;
use portal_hall::machine::Machine;
use portal_hall::pass::Pass;
use std::alloc::Global;
use std::thread;
use std::thread::Threads;

/// A pass, and the work that is done by it.
#[derive(Drop)]
pub struct Post<M: Machine, W> {
    pub pass: Pass<M>,
    pub work: W,
}

/// Makes a post for each work, in order, by a pass with one seat of this pass. Out of memory, it returns the works, and the pass
/// keeps its seats.
pub fn split_posts<M: Machine, W: Drop>(
    alloc: Global,
    hall: &Hall<M>,
    pass: &mut Pass<M>,
    works: Vec<W>,
) -> Result<Vec<Post<M, W>>, Vec<W>>
    requires pass { IsPassOf hall.now pass.old }
    requires room { vec_len works < room_of pass.old }
    ensures pass { IsPassOf hall.now pass.new }
    ensures kept { (seen pass.new ≡ seen pass.old) × (own pass.new ≡ own pass.old) × (mark pass.new ≡ mark pass.old) }
    ensures room { MatchResult result (λ posts. room_of pass.new + vec_len posts ≡ room_of pass.old)
        (λ _. room_of pass.new ≡ room_of pass.old) }
    ensures works { MatchResult result (λ posts. map work_of posts.items ≡ works.items) (λ back. back ≡ works) }
    ensures posts { IfOk result (λ posts. All (IsNewPost hall.now pass.old) posts.items) }
{
    let Ok(mut posts) = Vec::with_capacity(alloc, works.len()) else {
        return Err(works);
    };
    for work in works {
        posts.push_reserved(new_post(hall, pass, work));
    }
    Ok(posts)
}

// A post with one seat of the pass.
fn new_post<M: Machine, W>(hall: &Hall<M>, pass: &mut Pass<M>, work: W) -> Post<M, W>
    requires pass { IsPassOf hall.now pass.old }
    requires room { 1 < room_of pass.old }
    ensures pass { IsPassOf hall.now pass.new × (room_of pass.new + 1 ≡ room_of pass.old) }
    ensures kept { (seen pass.new ≡ seen pass.old) × (own pass.new ≡ own pass.old) × (mark pass.new ≡ mark pass.old) }
    ensures post { IsNewPost hall.now pass.old result × (result.work ≡ work) }
{
    Post {
        pass: hall.split(pass, 1),
        work,
    }
}

/// Calls `f` with the index of each post and the post, from 0, each in a thread of its own where one can be made.
pub fn for_each_post<
    M: Machine + Send,
    W: Send,
    R: Threads + Sync,
    F: Fn(usize, &mut Post<M, W>) + Sync,
>(rt: &R, posts: &mut [Post<M, W>], f: &F)
where
    M::Event: Send,
    requires { AcceptsEach F.Fn f.now posts.old }
    ensures { ChangesEach F.Fn f.now posts.old posts.new }
{
    if posts.is_empty() {
        return;
    }
    let threads = posts.len();
    thread::for_each_mut(rt, posts, threads, f);
}

/// Joins the passes of the posts to this pass, in order, and adds the works to the list, which has room for them.
pub fn join_posts<M: Machine, W: Drop>(
    hall: &Hall<M>,
    pass: &mut Pass<M>,
    posts: Vec<Post<M, W>>,
    works: &mut Vec<W>,
)
    requires pass { IsPassOf hall.now pass.old }
    requires posts { All (IsPostOf hall.now) posts.items }
    requires reserved { vec_len works.old + vec_len posts ≤ vec_capacity works.old }
    ensures pass { IsPassOf hall.now pass.new × (room_of pass.new ≡ room_of pass.old + seats_in posts.items) }
    ensures seen { Begins (seen pass.old) (seen pass.new) × (mark pass.old ≤ mark pass.new) }
    ensures posts { All (Knows pass.new) posts.items }
    ensures own { own pass.new ≡ own pass.old ++ indexes_of posts.items }
    ensures works { works.new.items ≡ works.old.items ++ map work_of posts.items }
{
    for post in posts {
        let Post { pass: other, work } = post;
        hall.join(pass, other);
        works.push_reserved(work);
    }
}
