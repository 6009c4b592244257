//! Posts whose threads create names.
ghost use Rattle.std.specs.Prelude.{All};
ghost use Rattle.hall_posts.specs.Posts.{IsPostOf};

use crate::crowd::create;
use crate::shelf::Shelf;
use hall_posts::posts::{Post, for_each_post};
use portal_hall::hall::Hall;
use std::sync::Wait;
use std::thread::Threads;

/// The work of a post: the first of the 25 names that it creates, and the count of those that it created.
#[derive(Drop)]
pub struct Names {
    pub first: u64,
    pub created: u64,
}

/// Creates the 25 names of a post.
fn create_at_post<R: Wait>(rt: &R, hall: &Hall<Shelf>, post: &mut Post<Shelf, Names>)
    requires { IsPostOf hall.now post.old }
    ensures { IsPostOf hall.now post.new }
{
    let first = post.work.first;
    for name in first..first.saturating_add(25) {
        if create(rt, hall, &mut post.pass, name).is_some() {
            post.work.created = post.work.created.saturating_add(1);
        }
    }
}

/// Each post creates its names, in a thread of its own.
pub fn create_at_posts<R: Threads + Wait + Sync>(
    rt: &R,
    hall: &Hall<Shelf>,
    posts: &mut [Post<Shelf, Names>],
)
    requires { All (IsPostOf hall.now) posts.old }
    ensures { All (IsPostOf hall.now) posts.new }
{
    for_each_post(
        rt,
        posts,
        &|_: usize, post: &mut Post<Shelf, Names>|
            requires { IsPostOf hall.now post.old }
            ensures { IsPostOf hall.entry.now post.new }
        { create_at_post(rt, hall, post) },
    );
}
