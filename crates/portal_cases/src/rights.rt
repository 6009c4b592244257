//! Who sees and edits a dataset, its class, and its caller's role.
use crate::people::{caller_of, people_of};
use cases::{Buffer, Case, invalid};
use org_roles::people::People;
use org_roles::role::Role;
use packages::package::{Package, State};
use portal_base::caller::Caller;
use portal_base::moment::Moment;
use portal_base::text::Text;
use std::alloc::Global;
use std::io;
use visibility::class::{Class, class_of};
use visibility::permissions::{Standing, may_edit, sees};

/// A dataset of `city` that the user `maker` made.
fn fresh(alloc: Global, moment: Moment) -> Package {
    Package::fresh(
        alloc,
        Text::from_static("00000000-0000-0000-0000-000000000001"),
        Text::from_static("trees"),
        Text::from_static("Trees of the city"),
        Text::from_static("city"),
        Text::from_static("maker"),
        moment,
    )
}

/// Changes the dataset as the word says, and says whether it is one of the words.
fn change(dataset: &mut Package, word: &str) -> bool {
    match word {
        "draft" => dataset.state = State::Draft,
        "active" => dataset.state = State::Active,
        "deleted" => dataset.state = State::Deleted,
        "public" => dataset.private = false,
        "private" => dataset.private = true,
        "harvested" => dataset.source = Text::from_static("lake-list"),
        "made by member" => dataset.creator = Text::from_static("member"),
        _ => return false,
    }
    true
}

/// The dataset of these words: its state, whether it is private, whether it is harvested, and who made it where this
/// isn't the user `maker`.
fn dataset_of(alloc: Global, words: &str) -> io::Result<Package> {
    let Some(moment) = Moment::from_seconds(1_704_067_200) else {
        return Err(invalid());
    };
    let mut dataset = fresh(alloc, moment);
    for word in words.split(", ") {
        if !change(&mut dataset, word) {
            return Err(invalid());
        }
    }
    Ok(dataset)
}

/// What the caller may do with the dataset, in words.
fn rights_words(people: &People, caller: &Caller, dataset: &Package) -> &'static str {
    match (
        sees(people, caller, dataset),
        may_edit(people, caller, dataset),
    ) {
        (false, false) => "neither",
        (true, false) => "sees",
        (false, true) => "edits unseen",
        (true, true) => "sees and edits",
    }
}

/// A dataset and a caller: whether the caller sees and edits it.
pub fn of_caller(alloc: Global, case: &Case, answer: &mut Buffer) -> io::Result<()> {
    let (words, name) = case.two_texts()?;
    let people = people_of(alloc)?;
    let dataset = dataset_of(alloc, words)?;
    let caller = caller_of(alloc, name)?;
    answer.push(rights_words(&people, &caller, &dataset));
    Ok(())
}

/// A dataset: its class.
pub fn class(alloc: Global, case: &Case, answer: &mut Buffer) -> io::Result<()> {
    let dataset = dataset_of(alloc, case.text(0)?)?;
    match class_of(alloc, &dataset)? {
        Class::Public => answer.push("public"),
        Class::Inside(org) => {
            answer.push("inside ");
            answer.push(org.as_str());
        }
        Class::Editing(org) => {
            answer.push("editing ");
            answer.push(org.as_str());
        }
    }
    Ok(())
}

/// An organization and a caller: the caller's role there.
pub fn role(alloc: Global, case: &Case, answer: &mut Buffer) -> io::Result<()> {
    let (org, name) = case.two_texts()?;
    let org = Text::from_str(alloc, org)?;
    let caller = caller_of(alloc, name)?;
    let people = people_of(alloc)?;
    answer.push(match Standing::of(&people, &caller).role(&org) {
        None => "none",
        Some(Role::Member) => "member",
        Some(Role::Editor) => "editor",
        Some(Role::Admin) => "admin",
    });
    Ok(())
}
