//! The names of harvested datasets.
ghost use Rattle.std.specs.Prelude.{◌≡◌, IfOk};
ghost use Rattle.harvest_records.specs.Names.{harvested_name};

use portal_base::text::Text;
use sha2::{Digest, Sha256};
use std::alloc::{AllocError, Global};

/// The name of the dataset that a source lists by the IRI: `hv-`, the source's name, `-`, and the first 20 bytes of the
/// SHA-256 of the IRI in hexadecimal digits.
#[tactic(auto, unfolding(crate::specs::Names::harvested_name))]
pub fn name_of(alloc: Global, source: &Text, iri: &Text) -> Result<Text, AllocError>
    ensures { IfOk result (λ name. name ≡ harvested_name source.now iri.now) }
{
    let digest = Sha256::digest(iri.as_bytes());
    let digits = hex::encode(alloc, &digest[..20])?;
    let source = source.as_str();
    let string = format!(in alloc; "hv-{source}-{digits}")?;
    Ok(Text::from(string))
}
