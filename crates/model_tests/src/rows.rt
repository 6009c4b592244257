//! The rows of datasets, where there is enough memory.
use dataset_rows::row::{from_row, row_of};
use packages::package::{Package, Resource, State};
use portal_base::moment::Moment;
use portal_base::seq::Seq;
use portal_base::text::Text;
use std::alloc::Global;
use std::test::Fail;

/// The body of the row of `trees`.
const BODY: &str =
    "{\"author\":\"\",\"created\":\"2024-01-01T00:00:00\",\"creator\":\"ann\",\"iri\":\"\",\"license_id\":\"\",\"maintainer\":\"\",\"modified\":\"2024-01-01T00:00:00\",\"name\":\"trees\",\"next_resource\":2,\"notes\":\"\",\"owner_org\":\"city\",\"private\":false,\"resources\":[{\"description\":\"one \\\"row\\\" a tree\",\"format\":\"CSV\",\"mimetype\":\"\",\"name\":\"counts\",\"number\":1,\"url\":\"\"}],\"source\":\"\",\"state\":\"draft\",\"tags\":[\"green\",\"parks\"],\"title\":\"Trees\",\"url\":\"\",\"version\":\"\"}";

/// The resource of `trees`.
fn counts(alloc: Global) -> Resource {
    Resource {
        number: 1,
        name: Text::from_static("counts"),
        url: Text::new(alloc),
        format: Text::from_static("CSV"),
        description: Text::from_static("one \"row\" a tree"),
        mimetype: Text::new(alloc),
    }
}

/// A draft with two tags and a resource.
fn trees(alloc: Global) -> Result<Package, Fail> {
    let Some(moment) = Moment::from_seconds(1_704_067_200) else {
        return Err("no moment")?;
    };
    let mut dataset = Package::fresh(
        alloc,
        Text::from_static("7"),
        Text::from_static("trees"),
        Text::from_static("Trees"),
        Text::from_static("city"),
        Text::from_static("ann"),
        moment,
    );
    dataset.state = State::Draft;
    dataset.next_resource = 2;
    let mut tags = Vec::new(alloc);
    tags.push(Text::from_static("green"))?;
    tags.push(Text::from_static("parks"))?;
    dataset.tags = Seq::from(tags);
    let mut resources = Vec::new(alloc);
    resources.push(counts(alloc))?;
    dataset.resources = Seq::from(resources);
    Ok(dataset)
}

#[test]
fn the_row_of_a_dataset_is_read_back(rt: HostRuntime) -> Result<(), Fail> {
    let alloc = rt.alloc();
    let dataset = trees(alloc)?;
    let body = row_of(alloc, &dataset)?;
    assert!(rt; body.as_str() == BODY);
    assert!(rt; from_row(alloc, &dataset.id, &body)?.is_some());
    Ok(())
}

#[test]
fn other_texts_are_the_row_of_no_dataset(rt: HostRuntime) -> Result<(), Fail> {
    let alloc = rt.alloc();
    let id = Text::from_static("7");
    for text in ["", "{}", "[1.5]", "{\"author\":\"\"}"] {
        let body = Text::from_static(text);
        assert!(rt; from_row(alloc, &id, &body)?.is_none());
    }
    let spaced = format!(in alloc; "{BODY} ")?;
    assert!(rt; from_row(alloc, &id, &Text::from(spaced))?.is_none());
    Ok(())
}
