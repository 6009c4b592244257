//! Datasets, resources and errors in words.
use cases::Buffer;
use packages::package::{Package, Resource, State};
use portal_base::text::Text;

/// Writes each field that isn't empty.
fn push_fields(answer: &mut Buffer, fields: &[(&str, &str)]) {
    for (name, value) in fields {
        if !value.is_empty() {
            answer.push_all(&[" ", name, "=", value, ";"]);
        }
    }
}

/// Writes each number that isn't 0.
fn push_numbers(answer: &mut Buffer, numbers: &[(&str, i64)]) {
    for (name, value) in numbers {
        if *value != 0 {
            answer.push_all(&[" ", name, "="]);
            answer.push_value(value);
            answer.push(";");
        }
    }
}

/// Writes the tags, if there are some.
fn push_tags(answer: &mut Buffer, tags: &[Text]) {
    if tags.is_empty() {
        return;
    }
    answer.push(" tags=");
    for tag in tags {
        answer.push_all(&["<", tag.as_str(), ">"]);
    }
    answer.push(";");
}

/// Writes a resource: its number, and its fields that aren't empty.
pub fn push_resource(answer: &mut Buffer, resource: &Resource) {
    answer.push_value(&resource.number);
    answer.push(":");
    push_fields(
        answer,
        &[
            ("name", resource.name.as_str()),
            ("url", resource.url.as_str()),
            ("format", resource.format.as_str()),
            ("mimetype", resource.mimetype.as_str()),
            ("description", resource.description.as_str()),
        ],
    );
}

/// Writes the resources, each in brackets.
fn push_resources(answer: &mut Buffer, resources: &[Resource]) {
    for resource in resources {
        answer.push(" [");
        push_resource(answer, resource);
        answer.push("]");
    }
}

/// Writes the texts that bodies give.
fn push_texts(answer: &mut Buffer, dataset: &Package) {
    push_fields(
        answer,
        &[
            ("title", dataset.title.as_str()),
            ("notes", dataset.notes.as_str()),
            ("author", dataset.author.as_str()),
            ("maintainer", dataset.maintainer.as_str()),
            ("license_id", dataset.license_id.as_str()),
            ("url", dataset.url.as_str()),
            ("version", dataset.version.as_str()),
        ],
    );
}

/// Writes the fields that no body gives.
fn push_kept(answer: &mut Buffer, dataset: &Package) {
    push_fields(
        answer,
        &[
            ("id", dataset.id.as_str()),
            ("creator", dataset.creator.as_str()),
        ],
    );
    push_numbers(
        answer,
        &[
            ("created", dataset.created.seconds()),
            ("modified", dataset.modified.seconds()),
        ],
    );
    push_fields(
        answer,
        &[
            ("source", dataset.source.as_str()),
            ("iri", dataset.iri.as_str()),
        ],
    );
}

/// The state of a dataset, and whether it is private.
fn state_of(dataset: &Package) -> &'static str {
    match (dataset.state, dataset.private) {
        (State::Draft, false) => "draft ",
        (State::Draft, true) => "private draft ",
        (State::Active, false) => "active ",
        (State::Active, true) => "private active ",
        (State::Deleted, false) => "deleted ",
        (State::Deleted, true) => "private deleted ",
    }
}

/// Writes a dataset: its state, name and organization, its fields that aren't empty, its resources, and the number of
/// the next resource.
pub fn push_dataset(answer: &mut Buffer, dataset: &Package) {
    let name = dataset.name.as_str();
    let org = dataset.owner_org.as_str();
    answer.push(state_of(dataset));
    answer.push(name);
    answer.push(" of ");
    answer.push(org);
    answer.push(":");
    push_texts(answer, dataset);
    push_tags(answer, dataset.tags.as_slice());
    push_resources(answer, dataset.resources.as_slice());
    push_numbers(answer, &[("next", i64::from(dataset.next_resource))]);
    push_kept(answer, dataset);
}

/// Writes the faulty keys, each with its error.
pub fn push_errors(answer: &mut Buffer, errors: &[(Text, Text)]) {
    for (key, message) in errors {
        answer.divide(" ");
        answer.push_all(&[key.as_str(), ": ", message.as_str(), ";"]);
    }
}
