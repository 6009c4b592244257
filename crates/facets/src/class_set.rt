//! Classes that are looked up in a time in proportion to the logarithm of their count.
ghost use Rattle.std.specs.Prelude.{◌≡◌, ◌||◌, false, IfOk, OnOk};
ghost use Rattle.visibility.specs.declared.class.Class as class_type;
ghost use Rattle.facets.specs.ClassSet.{has_class};
ghost use Rattle.facets.specs.Facts.{is_one_of, same_class};

use std::alloc::{AllocError, Global};
use std::collections::BTreeSet;
use visibility::class::Class;

/// Some classes, by the names of their organizations.
#[derive(Drop)]
pub(crate) struct ClassSet<'a> {
    has_public: bool,
    inside: BTreeSet<&'a str>,
    editing: BTreeSet<&'a str>,
}

impl<'a> ClassSet<'a> {
    fn new(alloc: Global) -> ClassSet<'a>
        ensures { (class : class_type.Class) → has_class result class ≡ false }
    {
        ClassSet {
            has_public: false,
            inside: BTreeSet::new(alloc),
            editing: BTreeSet::new(alloc),
        }
    }

    fn add(&mut self, class: &'a Class) -> Result<(), AllocError>
        ensures { OnOk result ((other : class_type.Class) →
            has_class self.new other ≡ (has_class self.old other || same_class other class.now)) }
    {
        match class {
            Class::Public => self.has_public = true,
            Class::Inside(org) => {
                self.inside.insert(org.as_str())?;
            }
            Class::Editing(org) => {
                self.editing.insert(org.as_str())?;
            }
        }
        Ok(())
    }

    pub(crate) fn of(alloc: Global, classes: &'a [Class]) -> Result<ClassSet<'a>, AllocError>
        ensures { IfOk result (λ set. (class : class_type.Class) → has_class set class ≡ is_one_of classes.now class) }
    {
        let mut set = ClassSet::new(alloc);
        for class in classes {
            set.add(class)?;
        }
        Ok(set)
    }

    /// Whether the class is one of these.
    pub(crate) fn has(&self, class: &Class) -> bool
        ensures { result ≡ has_class self.now class.now }
    {
        match class {
            Class::Public => self.has_public,
            Class::Inside(org) => self.inside.contains(org.as_str()),
            Class::Editing(org) => self.editing.contains(org.as_str()),
        }
    }
}
