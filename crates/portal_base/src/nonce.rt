//! Nonces, and the ids made of them.
ghost use Rattle.std.specs.Prelude.{◌≡◌, IfOk};
ghost use Rattle.portal_base.specs.Id.{id_text};

use crate::text::Text;
use std::alloc::{AllocError, Global};
use uuid::Uuid;

/// A random number of 128 bits, drawn for one call.
#[derive(Clone, Copy, Debug, PartialEq, Eq)]
pub struct Nonce(pub u128);

/// The id of a nonce: its bits as the text of a UUID (RFC 9562, section 4), in lower case.
pub fn id_of(alloc: Global, nonce: Nonce) -> Result<Text, AllocError>
    ensures { IfOk result (λ id. id ≡ id_text nonce.0) }
{
    let mut buffer = Uuid::encode_buffer();
    let id = Uuid::from_u128(nonce.0).hyphenated();
    Text::from_str(alloc, id.encode_lower(&mut buffer))
}
