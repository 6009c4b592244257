//! Links that a desk serves one after another, by their names, on one default portal: `NAME.request` is what comes over
//! one, and `NAME.response` what is expected to be written to it.
ghost use Rattle.std.specs.Prelude.{◌≡◌, false, IfOk};

use crate::scripts::{compare_with, content_of, names_with};
use cases::Tally;
use portal_base::counted::{CountNonces, ScriptClock};
use portal_base::memory::{MemoryLink, MemoryListener};
use portal_base::outside::Desk;
use portal_base::seq::Seq;
use portal_core::portal::Portal;
use portal_keeper::memory::MemoryKeeper;
use portal_serve::defaults::{default_portal, default_tokens};
use portal_serve::desk::serve_desk;
use std::alloc::{AllocError, Global};
use std::io;

/// How many bytes of a response there is room for.
const ROOM: usize = 10_000;

/// The links over which the requests of these names come.
fn links_of(rt: &HostRuntime, names: &[String]) -> io::Result<Vec<MemoryLink>> {
    let alloc = rt.alloc();
    let mut links = Vec::new(alloc);
    for name in names {
        let request = Seq::from(content_of(rt, name.as_str(), ".request")?);
        links.push(MemoryLink::new(alloc, request, ROOM, Seq::new(alloc))?)?;
    }
    Ok(links)
}

type MemoryDesk = Desk<MemoryListener, ScriptClock, CountNonces>;

fn desk_of(alloc: Global, links: Vec<MemoryLink>) -> Result<MemoryDesk, AllocError>
    ensures { IfOk result (λ desk. desk.listener.is_out ≡ false) }
{
    Ok(Desk {
        listener: MemoryListener::new(alloc, Seq::from(links), Seq::new(alloc))?,
        clock: ScriptClock::new(),
        nonces: CountNonces::new(),
    })
}

/// Serves that many of the desk's links on the portal, by the default tokens.
fn serve_on(
    alloc: Global,
    portal: &mut Portal<MemoryKeeper>,
    desk: &mut MemoryDesk,
    count: u64,
) -> Result<(), AllocError>
    requires { desk.old.listener.is_out ≡ false }
{
    let tokens = default_tokens(alloc)?;
    let _ended = serve_desk(alloc, portal, &tokens, desk, count);
    Ok(())
}

/// Serves that many of the desk's links on the default portal.
fn serve(alloc: Global, desk: &mut MemoryDesk, count: u64) -> Result<(), AllocError>
    requires { desk.old.listener.is_out ≡ false }
{
    let mut portal = default_portal(alloc)?;
    serve_on(alloc, &mut portal, desk, count)
}

/// The listener that gave these links, once all were served.
fn served(alloc: Global, links: Vec<MemoryLink>) -> Result<MemoryListener, AllocError> {
    let count = links.len() as u64;
    let mut desk = desk_of(alloc, links)?;
    serve(alloc, &mut desk, count)?;
    let Desk { listener, .. } = desk;
    Ok(listener)
}

/// Serves all links of the folder, and compares what was written to each with its response.
pub fn check_links(rt: &HostRuntime, tally: &mut Tally) -> io::Result<()> {
    let names = names_with(rt, ".request")?;
    let listener = served(rt.alloc(), links_of(rt, names.as_slice())?)?;
    for (name, link) in names.iter().zip(listener.taken_back().iter()) {
        compare_with(rt, tally, name.as_str(), ".response", link.taken())?;
    }
    Ok(())
}
