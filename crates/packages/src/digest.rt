//! The digest by which the shelf finds a dataset's id or its name.
ghost use Rattle.std.specs.Prelude.{◌≡◌};
ghost use Rattle.packages.specs.Digest.{digest_of};

use std::hash::{DefaultHasher, Hasher};

/// The digest by which a text is looked up.
pub(crate) fn digest_of(text: &str) -> u64
    ensures { result ≡ digest_of text.now }
{
    let mut hasher = DefaultHasher::new();
    hasher.write(text.as_bytes());
    hasher.finish()
}
