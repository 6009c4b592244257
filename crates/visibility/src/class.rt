//! The class of a dataset: who, apart from sysadmins, sees it. Counts and searches go by classes.
ghost use Rattle.std.specs.Prelude.{◌≡◌, IfOk};
ghost use Rattle.visibility.specs.Visibility.{class_for};

use packages::package::{Package, State};
use portal_base::copy::TryClone;
use portal_base::text::Text;
use std::alloc::{AllocError, Global};

/// Who sees a dataset, apart from sysadmins.
#[derive(Drop)]
pub enum Class {
    /// Everybody: the dataset is active and not private.
    Public,
    /// Whoever has a role in the organization with this name: the dataset is active and private.
    Inside(Text),
    /// Editors and admins of the organization with this name, by the rules of `sees`: the dataset is a draft or
    /// deleted. The creator of a draft sees it too.
    Editing(Text),
}

/// The dataset's class. Fails only if no memory is left.
pub fn class_of(alloc: Global, package: &Package) -> Result<Class, AllocError>
    ensures { IfOk result (λ class. class ≡ class_for «package».now) }
{
    match package.state {
        State::Active if !package.private => Ok(Class::Public),
        State::Active => Ok(Class::Inside(package.owner_org.try_clone(alloc)?)),
        State::Draft | State::Deleted => Ok(Class::Editing(package.owner_org.try_clone(alloc)?)),
    }
}
