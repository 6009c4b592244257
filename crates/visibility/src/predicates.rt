//! Predicates on datasets, for walks over the shelf.
ghost use Rattle.std.specs.Prelude.{◌≡◌};

use crate::permissions::{Standing, is_public};
use packages::package::Package;
use packages::walk::Test;
use portal_base::text::Text;

/// Whether a dataset is public.
#[derive(Drop)]
pub(crate) struct IsPublic;

impl Test for IsPublic {
    ghost use Rattle.visibility.specs.Visibility.{is_public};

    ghost test = { λ _ d. is_public d };

    fn passes(&self, dataset: &Package) -> bool {
        is_public(dataset)
    }
}

/// Whether a dataset belongs to the organization.
#[derive(Drop)]
pub(crate) struct IsOwnedBy<'a> {
    pub org: &'a Text,
}

impl<'a> Test for IsOwnedBy<'a> {
    ghost use Rattle.std.specs.Str.{bytes_eq};

    ghost test = { λ own d. bytes_eq d.owner_org own.org.now };

    fn passes(&self, dataset: &Package) -> bool {
        dataset.owner_org == *self.org
    }
}

/// Whether the caller sees a dataset that passes a test.
#[derive(Drop)]
pub(crate) struct IsSeenAnd<'a, T> {
    pub standing: &'a Standing<'a>,
    pub test: &'a T,
}

impl<'a, T: Test> Test for IsSeenAnd<'a, T> {
    ghost use Rattle.std.specs.Prelude.{◌&&◌};
    ghost use Rattle.visibility.specs.Visibility.{sees_in};

    ghost test = { λ own d. T.test own.test.now d && sees_in own.standing.now.people own.standing.now.caller d };

    fn passes(&self, dataset: &Package) -> bool {
        self.test.passes(dataset) && self.standing.sees(dataset)
    }
}
