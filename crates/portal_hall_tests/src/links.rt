//! A link that a pass serves where memory is ample.
use crate::echo::{Echo, serve_by_pass};
use portal_base::memory::MemoryLink;
use portal_base::moment::Moment;
use portal_base::seq::Seq;
use portal_hall::hall::Hall;
use portal_links::tokens::Tokens;
use portal_links::written::Served;
use std::alloc::{AllocError, Global};
use std::test::Fail;

const REQUEST: &str = "GET /api/3/action/user_list HTTP/1.1\r\n\r\n";

/// How the body of the response ends.
const END: &str = "\"result\":true,\"success\":true}";

/// A link over which the request comes.
fn link(alloc: Global) -> Result<MemoryLink, AllocError> {
    let bytes = Seq::from(REQUEST.as_bytes().to_vec(alloc)?);
    MemoryLink::new(alloc, bytes, 1_000, Seq::new(alloc))
}

// A reply of want of memory would meet each clause.
#[test]
fn a_pass_answers_with_ample_memory(rt: HostRuntime) -> Result<(), Fail> {
    let alloc = rt.alloc();
    let moment = Moment::from_seconds(0).ok_or("no moment")?;
    let tokens = Tokens::new(Seq::new(alloc));
    let mut link = link(alloc)?;
    let opened = Hall::open(alloc, Echo, 1);
    let (hall, mut pass) = opened.ok().ok_or("no hall")?;
    let (served, entry) = serve_by_pass(alloc, &rt, &hall, &mut pass, &tokens, &mut link, moment);
    assert!(rt; served == Served::Replied(200) && entry == None);
    assert!(rt; link.taken().ends_with(END.as_bytes()));
    let (_echo, history) = hall.close(pass);
    assert!(rt; history.is_empty());
    Ok(())
}
