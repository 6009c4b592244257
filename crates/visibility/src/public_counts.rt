//! Counts of public datasets by organization.
ghost use Rattle.std.specs.Prelude.{◌≡◌};

use portal_base::text::Text;

/// What knows how many public datasets each organization has.
pub trait PublicCounts {
    ghost use Rattle.std.specs.Prelude.{ℕ, List};

    /// The count for an organization's name.
    ghost counts: { Self → List ℕ → ℕ };

    /// The count of public datasets of the organization with this name.
    fn public_count(&self, org: &Text) -> u64
        ensures { result ≡ counts self.now org.now };
}
