//! Serving one connection on a portal: it reads one request off a link, makes its call, and writes one response.
ghost use Rattle.std.specs.Prelude.{◌≡◌, ◌⊎◌, ◌≤◌, IfOk, OnErr};
ghost use Rattle.portal_base.specs.Outside.{Rose};
ghost use Rattle.portal_links.specs.Written.{link_trace};
ghost use Rattle.portal_serve.specs.Served.{Answers, RepliesWith, Serves, outcome_of_incoming};

use crate::calling::{NoReply, reply_to_request};
use action_api::reply::reply_text;
use http_front::incoming::Incoming;
use portal_base::moment::Moment;
use portal_base::nonce::Nonce;
use portal_base::outside::Link;
use portal_base::seq::Seq;
use portal_core::portal::Portal;
use portal_keeper::keeper::Keeper;
use portal_links::asked::{Drawn, name_in, read_request, size_in, token_in};
use portal_links::tokens::Tokens;
use portal_links::written::{
    Served, answer_fault, receive_request, store_reply, write_out_of_memory, write_text,
};
use std::alloc::{AllocError, Global};

/// Makes the call of a received request, and returns the status and the text of its reply. They say that the store failed,
/// if the keeper's count of faults rose.
fn process<P: Keeper>(
    alloc: Global,
    portal: &mut Portal<P>,
    tokens: &Tokens,
    incoming: &Incoming,
    moment: Moment,
    nonce: Nonce,
) -> Result<(u16, Seq<u8>), AllocError>
    ensures replies { IfOk result (λ text. RepliesWith incoming.now
        (outcome_of_incoming tokens.now portal.old.state moment nonce.0 incoming.now) portal.old.state text
        portal.new.state) }
    ensures store_failed { IfOk result
        (λ text. text.0 ≡ 503 → Rose (P.faults portal.old.keeper) (P.faults portal.new.keeper)) }
    ensures stopped { OnErr result ((portal.new.state ≡ portal.old.state) ⊎ (portal.new.state
        ≡ (outcome_of_incoming tokens.now portal.old.state moment nonce.0 incoming.now).state)) }
    ensures keeper_counts { P.faults portal.old.keeper ≤ P.faults portal.new.keeper }
{
    let caller = tokens.caller(alloc, token_in(incoming))?;
    let request = read_request(alloc, incoming);
    let drawn = Drawn {
        size: size_in(incoming),
        moment,
        nonce,
    };
    match reply_to_request(portal, caller, request, drawn) {
        Ok(reply) => reply_text(alloc, Some(name_in(incoming)), &reply),
        Err(NoReply::KeeperFault) => store_reply(alloc, incoming),
        Err(NoReply::OutOfMemory) => Err(AllocError),
    }
}

/// Makes the call of a received request, and writes its reply.
fn answer<P: Keeper, K: Link>(
    alloc: Global,
    portal: &mut Portal<P>,
    tokens: &Tokens,
    link: &mut K,
    incoming: &Incoming,
    moment: Moment,
    nonce: Nonce,
) -> Served
    ensures answers { Answers incoming.now
        (outcome_of_incoming tokens.now portal.old.state moment nonce.0 incoming.now) portal.old.state
        (link_trace (K.to_come link.old) (K.taken link.old) (K.faults link.old))
        (link_trace (K.to_come link.new) (K.taken link.new) (K.faults link.new)) result portal.new.state }
    ensures to_come { K.to_come link.new ≡ K.to_come link.old }
    ensures store_failed { result ≡ Served.Replied 503
        → Rose (P.faults portal.old.keeper) (P.faults portal.new.keeper) }
    ensures keeper_counts { P.faults portal.old.keeper ≤ P.faults portal.new.keeper }
    ensures counts { K.faults link.old ≤ K.faults link.new }
{
    match process(alloc, portal, tokens, incoming, moment, nonce) {
        Ok((status, text)) => write_text(link, status, text.as_slice()),
        Err(_refused) => write_out_of_memory(link),
    }
}

/// Reads one request off the link, and nothing after it but the rest of the piece in which it ends. It makes the call for
/// the token's user with this moment and nonce, and writes the reply. Where memory runs out, the reply is 507, and its
/// bytes take no memory.
pub fn serve_link<P: Keeper, K: Link>(
    alloc: Global,
    portal: &mut Portal<P>,
    tokens: &Tokens,
    link: &mut K,
    moment: Moment,
    nonce: Nonce,
) -> Served
    ensures served { Serves tokens.now portal.old.state moment nonce.0
        (link_trace (K.to_come link.old) (K.taken link.old) (K.faults link.old))
        (link_trace (K.to_come link.new) (K.taken link.new) (K.faults link.new)) result portal.new.state }
    // Status 503 says that the keeper's count of faults rose.
    ensures store_failed { result ≡ Served.Replied 503
        → Rose (P.faults portal.old.keeper) (P.faults portal.new.keeper) }
    ensures keeper_counts { P.faults portal.old.keeper ≤ P.faults portal.new.keeper }
    ensures counts { K.faults link.old ≤ K.faults link.new }
{
    match receive_request(alloc, link) {
        Ok(incoming) => answer(alloc, portal, tokens, link, &incoming, moment, nonce),
        Err(fault) => answer_fault(link, fault),
    }
}
