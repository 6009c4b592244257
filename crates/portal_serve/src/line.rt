//! The lines of a transcript.
ghost use Rattle.std.specs.Prelude.{◌≡◌, IfOk, IsTrue, option_copied};
ghost use Rattle.action_api.specs.Reply.{has_text};
ghost use Rattle.portal_serve.specs.Transcript.{reply_line};

use action_api::early::Early;
use action_api::reply::reply_text;
use portal_base::seq::Seq;
use portal_events::Reply;
use std::alloc::{AllocError, Global};

/// Renders the line for a reply, or an early fault, to a call of the action of that name: the HTTP status, a space, the
/// text and a line feed.
pub fn render_line(
    alloc: Global,
    action: Option<&str>,
    reply: &Result<Reply, Early>,
) -> Result<Seq<u8>, AllocError>
    requires { IsTrue (has_text reply.now) }
    ensures { IfOk result (λ line. line ≡ reply_line (option_copied action.entry) reply.now) }
{
    let (status, text) = reply_text(alloc, action, reply)?;
    let mut line = format!(in alloc; "{status} ")?.into_bytes();
    line.extend_from_slice(text.as_slice())?;
    line.push(b'\n')?;
    Ok(Seq::from(line))
}
