//! The datasets that bodies change.
use cases::invalid;
use packages::package::{Package, Resource, State};
use portal_base::moment::Moment;
use portal_base::seq::Seq;
use portal_base::text::Text;
use std::alloc::{AllocError, Global};
use std::io;

/// A resource that has a name alone.
fn resource(alloc: Global, number: u32, name: &'static str) -> Resource {
    Resource {
        number,
        name: Text::from_static(name),
        url: Text::new(alloc),
        format: Text::new(alloc),
        description: Text::new(alloc),
        mimetype: Text::new(alloc),
    }
}

/// `list` and `map`, of the numbers 1 and 3.
fn resources(alloc: Global) -> Result<Seq<Resource>, AllocError> {
    let resources = vec![in alloc; resource(alloc, 1, "list"), resource(alloc, 3, "map")]?;
    Ok(Seq::from(resources))
}

/// `oak` and `pine`.
fn tags(alloc: Global) -> Result<Seq<Text>, AllocError> {
    let tags = vec![in alloc; Text::from_static("oak"), Text::from_static("pine")]?;
    Ok(Seq::from(tags))
}

/// The draft `trees` of the organization `city`, of which each field has a value of its own.
fn trees(alloc: Global) -> io::Result<Package> {
    let (Some(created), Some(modified)) = (Moment::from_seconds(1), Moment::from_seconds(2)) else {
        return Err(invalid());
    };
    let tags = tags(alloc)?;
    let resources = resources(alloc)?;
    Ok(Package {
        id: Text::from_static("t"),
        name: Text::from_static("trees"),
        title: Text::from_static("Trees"),
        notes: Text::from_static("N"),
        author: Text::from_static("A"),
        maintainer: Text::from_static("M"),
        license_id: Text::from_static("L"),
        url: Text::from_static("U"),
        version: Text::from_static("V"),
        owner_org: Text::from_static("city"),
        private: true,
        state: State::Draft,
        tags,
        resources,
        next_resource: 5,
        creator: Text::from_static("ann"),
        created,
        modified,
        source: Text::from_static("S"),
        iri: Text::from_static("I"),
    })
}

/// The dataset of that name: `trees`; `deleted`, the same in the state deleted; `spent`, the same with the last number
/// but one for its next resource; `untitled`, the same with an empty title.
pub fn dataset_of(alloc: Global, name: &str) -> io::Result<Package> {
    let mut dataset = trees(alloc)?;
    match name {
        "trees" => {}
        "deleted" => dataset.state = State::Deleted,
        "spent" => dataset.next_resource = 4_294_967_294,
        "untitled" => dataset.title = Text::new(alloc),
        _ => return Err(invalid()),
    }
    Ok(dataset)
}
