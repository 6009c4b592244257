//! Counters: the facts of datasets by id, from which the counts of values are made.
//!
//! `prepare` makes room for a dataset. `commit` and `remove` change the counters as the datasets change, and take no memory.
ghost use Rattle.std.specs.Prelude.{◌≡◌, ◌+◌, ◌++◌, ◌&&◌, ◌||◌, ℕ, [], List, Some, IfOk, IsTrue, OnErr, OnOk};
ghost use Rattle.std.specs.Prelude.{filter, flat_map, length, not};
ghost use Rattle.std.specs.BTreeMap.{IsOrdered, values};
ghost use Rattle.std.specs.Cmp.Lexicographic.{slice_cmp};
ghost use Rattle.std.specs.Ordering.{nat_cmp};
ghost use Rattle.std.specs.Str.{bytes_eq};
ghost use Rattle.packages.specs.Shelf.{IsValidShelf, datasets_of, package_at};
ghost use Rattle.packages.specs.declared.package.Package.{Package};
ghost use Rattle.visibility.specs.declared.class.Class.TheVariants.{Public};
ghost use Rattle.facets.specs.Counters.{StandsFor, class_count, class_counts, entries_with, entries_without};
ghost use Rattle.facets.specs.Counters.{facts_in_classes, has_room};
ghost use Rattle.facets.specs.declared.field.FacetField.TheVariants.{Organization};
ghost use Rattle.facets.specs.Slots.{has_slot, slot_entries, slot_passes, slot_values};
ghost use Rattle.facets.specs.ClassSet.{has_class};
ghost use Rattle.facets.specs.Counts.{has_text};
ghost use Rattle.facets.specs.Facts.{facts_of, same_class, texts_at};
ghost use Rattle.facets.specs.Tally.{own_values};

use crate::class_set::ClassSet;
use crate::facts::{Facts, is_same_class};
use crate::field::FacetField;
use crate::tally::tally;
use packages::laws::a_set_has_its_texts;
use packages::package::Package;
use packages::shelf::Shelf;
use portal_base::copy::TryClone;
use portal_base::seq::Seq;
use portal_base::text::Text;
use std::alloc::{AllocError, Global};
use std::collections::BTreeMap;
use std::marker::Model;
use visibility::class::Class;
use visibility::public_counts::PublicCounts;

/// The facts of a dataset, which counters have room for.
#[derive(Drop)]
pub struct PreparedCounts {
    pub(crate) id: Text,
    pub(crate) facts: Facts,
}

/// At each id the facts of a dataset, or none yet.
type Slots = BTreeMap<Text, Option<Facts>>;

/// The facts of datasets by id. In contracts its value is the list of the ids with the facts, ordered by id, and the ids for
/// which there is room.
#[derive(Drop)]
pub struct Counters {
    alloc: Global,
    slots: Slots,
}

impl Model for Counters {
    ghost use Rattle.std.specs.BTreeMap.{IsOrdered, keys};
    ghost use Rattle.std.specs.Cmp.Lexicographic.{slice_cmp};
    ghost use Rattle.std.specs.Ordering.{nat_cmp};
    ghost use Rattle.facets.specs.Counters.{CountersState};
    ghost use Rattle.facets.specs.Slots.{slot_entries};

    ghost Value = { CountersState };

    ghost view = { λ counters. record { entries = slot_entries counters.slots.entries; room = keys counters.slots } };

    ghost invariant = { λ counters. IsOrdered (slice_cmp nat_cmp) counters.slots };
}

// ---- the slots

/// Makes a slot at the id, if it has none. No facts change.
fn make_slot(alloc: Global, slots: &mut Slots, id: &Text) -> Result<(), AllocError>
    ensures made { OnOk result ((other : List ℕ) → has_slot other slots.new.entries
        ≡ (bytes_eq id.now other || has_slot other slots.old.entries)) }
    ensures same { slot_entries slots.new.entries ≡ slot_entries slots.old.entries }
    ensures unchanged { OnErr result (slots.new.entries ≡ slots.old.entries) }
    ensures ordered { IsOrdered (slice_cmp nat_cmp) slots.old → IsOrdered (slice_cmp nat_cmp) slots.new }
{
    if slots.contains_key(id) {
        return Ok(());
    }
    drop(slots.insert(id.try_clone(alloc)?, None)?);
    Ok(())
}

/// Whether the slot has facts of a dataset in the class with the value.
fn is_counted(slot: &Option<Facts>, class: &Class, field: FacetField, value: &str) -> bool
    ensures { result ≡ slot_passes
        (λ facts. same_class facts.class class.now && has_text (texts_at field) value.now facts) slot.now }
{
    match slot {
        Some(facts) => is_same_class(&facts.class, class) && facts.has_value(field, value),
        None => false,
    }
}

/// Adds the values of the slot's facts, if they are of a dataset in one of the classes.
fn push_slot_values(
    alloc: Global,
    values: &mut Vec<Text>,
    slot: &Option<Facts>,
    classes: &ClassSet<'_>,
    field: FacetField,
) -> Result<(), AllocError>
    ensures { OnOk result
        (values.new.items ≡ values.old.items ++ slot_values (has_class classes.now) field slot.now) }
{
    match slot {
        Some(facts) if classes.has(&facts.class) => facts.push_values(alloc, values, field),
        _ => Ok(()),
    }
}

/// The values of the slots' facts whose classes are in the set, one dataset after the other.
fn values_of_slots(
    alloc: Global,
    slots: &Slots,
    classes: &ClassSet<'_>,
    field: FacetField,
) -> Result<Vec<Text>, AllocError>
    ensures { IfOk result (λ found. found.items
        ≡ flat_map (slot_values (has_class classes.now) field) (values slots.now)) }
{
    let mut found = Vec::new(alloc);
    for slot in slots.values() {
        push_slot_values(alloc, &mut found, slot, classes, field)?;
    }
    Ok(found)
}

/// The count of slots with facts of a dataset in the class with the value.
fn count_in(slots: &Slots, class: &Class, field: FacetField, value: &str) -> u64
    ensures { result ≡ length (filter (slot_passes
        (λ facts. same_class facts.class class.now && has_text (texts_at field) value.now facts)) (values slots.now)) }
{
    let mut count = 0;
    for slot in slots.values() {
        if is_counted(slot, class, field, value) {
            count += 1;
        }
    }
    count
}

impl Counters {
    /// Counters without facts. It takes no memory.
    pub fn new(alloc: Global) -> Counters
        ensures none { result.entries ≡ [] }
        ensures room { result.room ≡ [] }
    {
        Counters {
            alloc,
            slots: BTreeMap::new(alloc),
        }
    }

    /// The counters of a shelf: the facts of each of its datasets.
    pub fn of(alloc: Global, shelf: &Shelf) -> Result<Counters, AllocError>
        requires { IsValidShelf shelf.now }
        ensures { IfOk result (λ counters. StandsFor counters (datasets_of shelf.now)) }
    {
        let mut counters = Counters::new(alloc);
        let numbers = shelf.numbers(alloc)?;
        for number in numbers.as_slice() {
            counters.enter(shelf, *number)?;
        }
        Ok(counters)
    }

    /// Enters the facts of the shelf's dataset at a number.
    fn enter(&mut self, shelf: &Shelf, number: u32) -> Result<(), AllocError>
        ensures { (dataset : Package) → package_at number shelf.now ≡ Some dataset →
            OnOk result (self.new.entries ≡ entries_with dataset.id (facts_of dataset) self.old) }
    {
        if let Some(dataset) = shelf.package_at(number) {
            let counts = self.prepare(dataset)?;
            self.commit(counts);
        }
        Ok(())
    }

    /// Makes room for the dataset, and returns its facts. If memory runs out, nothing changes.
    pub fn prepare(&mut self, package: &Package) -> Result<PreparedCounts, AllocError>
        ensures id { IfOk result (λ counts. counts.id ≡ «package».now.id) }
        ensures facts { IfOk result (λ counts. counts.facts ≡ facts_of «package».now) }
        ensures room { OnOk result ((id : List ℕ) →
            has_room id self.new ≡ (bytes_eq «package».now.id id || has_room id self.old)) }
        ensures same { self.new.entries ≡ self.old.entries }
        ensures unchanged { OnErr result (self.new ≡ self.old) }
    {
        let facts = Facts::of(self.alloc, package)?;
        let id = package.id.try_clone(self.alloc)?;
        make_slot(self.alloc, &mut self.slots, &id)?;
        Ok(PreparedCounts { id, facts })
    }

    /// Enters the facts under their id, in place of those there. It takes no memory and can't fail.
    pub fn commit(&mut self, counts: PreparedCounts)
        requires { IsTrue (has_room counts.id self.old) }
        ensures entered { self.new.entries ≡ entries_with counts.id counts.facts self.old }
        ensures room { self.new.room ≡ self.old.room }
    {
        let PreparedCounts { id, facts } = counts;
        let entered: Result<_, _> = self.slots.insert(id, Some(facts));
        drop(entered.unwrap());
    }

    /// Removes the facts under the dataset's id, and the room for it. It takes no memory and can't fail.
    pub fn remove(&mut self, package: &Package)
        ensures removed { self.new.entries ≡ entries_without «package».now.id self.old }
        ensures room { (id : List ℕ) →
            has_room id self.new ≡ (not (bytes_eq «package».now.id id) && has_room id self.old) }
    {
        drop(self.slots.remove(&package.id));
    }

    /// The count of datasets in the class that have the value. An empty value counts 0. The call takes no memory.
    pub fn count(&self, class: &Class, field: FacetField, value: &str) -> u64
        ensures { result ≡ class_count class.now field value.now self.now }
    {
        count_in(&self.slots, class, field, value)
    }

    /// The values of the datasets in the classes, each with the count of datasets that have it. Higher counts come first,
    /// and equal counts by value.
    pub fn tally(
        &self,
        classes: &Seq<Class>,
        field: FacetField,
    ) -> Result<Seq<(Text, u64)>, AllocError>
        ensures { IfOk result (λ counts. counts ≡ class_counts classes.now field self.now) }
    {
        a_set_has_its_texts();
        let values = self.values_in(classes.as_slice(), field)?;
        tally(self.alloc, values)
    }

    /// The values of the datasets in the classes, one dataset after the other.
    fn values_in(&self, classes: &[Class], field: FacetField) -> Result<Vec<Text>, AllocError>
        ensures { IfOk result (λ values. values.items
            ≡ flat_map (λ facts. own_values (texts_at field facts)) (facts_in_classes classes.now self.now)) }
    {
        let classes = ClassSet::of(self.alloc, classes)?;
        values_of_slots(self.alloc, &self.slots, &classes, field)
    }
}

impl PublicCounts for Counters {
    ghost counts = { λ counters org. class_count Public Organization org counters };

    fn public_count(&self, org: &Text) -> u64 {
        self.count(&Class::Public, FacetField::Organization, org.as_str())
    }
}
