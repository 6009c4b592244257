//! Tokens, which identify callers over HTTP. Only their digests are kept.
ghost use Rattle.std.specs.Prelude.{◌≡◌, IfOk, string_bytes};
ghost use Rattle.std.specs.Option.{option_copied};
ghost use Rattle.portal_links.specs.Tokens.{caller_of_token, digest_of, user_of};

use portal_base::caller::Caller;
use portal_base::copy::TryClone;
use portal_base::seq::Seq;
use portal_base::text::Text;
use sha2::{Digest, Sha256};
use std::alloc::{AllocError, Global};
use std::marker::Model;

/// Users, each with the SHA-256 of a token in 64 lower-case hexadecimal digits. Its value in contracts is the list of
/// these pairs.
#[derive(Drop)]
pub struct Tokens {
    pairs: Seq<(Text, Text)>,
}

impl Model for Tokens {
    ghost use Rattle.portal_links.specs.Tokens.{Digests};

    ghost Value = { Digests };

    ghost view = { λ t. t.pairs };
}

impl Tokens {
    /// The tokens of these users, each pair a user and a digest.
    pub fn new(pairs: Seq<(Text, Text)>) -> Tokens
        ensures { result ≡ pairs }
    {
        Tokens { pairs }
    }

    /// The caller with the token: the first user whose digest is the SHA-256 of its bytes, else the anonymous caller.
    /// `AllocError` comes only where memory runs out.
    pub fn caller(&self, alloc: Global, token: Option<&str>) -> Result<Caller, AllocError>
        ensures { IfOk result (λ caller. caller ≡ caller_of_token self.now (option_copied token.entry)) }
    {
        let Some(token) = token else {
            return Ok(Caller::Anonymous);
        };
        let digest = digest_of(alloc, token)?;
        match self.user_of(digest.as_str()) {
            Some(user) => Ok(Caller::Named(user.try_clone(alloc)?)),
            None => Ok(Caller::Anonymous),
        }
    }

    /// The first user with this digest.
    fn user_of(&self, digest: &str) -> Option<&Text>
        ensures { option_copied result ≡ user_of digest.now self.now }
    {
        let pair = self
            .pairs
            .as_slice()
            .iter()
            .find(|pair| pair.1.as_str() == digest)?;
        Some(&pair.0)
    }
}

/// The SHA-256 of the token's bytes, in 64 lower-case hexadecimal digits.
pub fn digest_of(alloc: Global, token: &str) -> Result<String, AllocError>
    ensures { IfOk result (λ text. string_bytes text ≡ digest_of token.now) }
{
    hex::encode(alloc, Sha256::digest(token.as_bytes()))
}
