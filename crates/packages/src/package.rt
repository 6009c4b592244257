//! A dataset, its resources and its state.
ghost use Rattle.std.specs.Prelude.{◌≡◌, OnOk};
ghost use Rattle.packages.specs.Package.{with_kept_of, with_names_of, with_values_of, with_texts_of, with_links_of};

use portal_base::copy::TryClone;
use portal_base::moment::Moment;
use portal_base::seq::Seq;
use portal_base::text::Text;
use std::alloc::{AllocError, Global};

/// The most bytes of a title.
pub const LONGEST_TITLE: usize = 2000;

/// The most bytes of any other text of a dataset or a resource.
pub const LONGEST_TEXT: usize = 2000;

/// The most bytes of a dataset's notes.
pub const LONGEST_NOTES: usize = 100_000;

/// The most bytes of a resource's description.
pub const LONGEST_DESCRIPTION: usize = 20_000;

/// The most characters of a name.
pub const LONGEST_NAME: usize = 100;

/// Whether a dataset is a draft, listed or deleted.
#[derive(Clone, Copy, Debug, PartialEq, Eq)]
pub enum State {
    Draft,
    Active,
    Deleted,
}

impl State {
    ghost use Rattle.packages.specs.State.{state_name};

    /// Its name in replies and in stored rows.
    pub fn name(self) -> &'static str
        ensures { result.now ≡ state_name self }
    {
        match self {
            State::Draft => "draft",
            State::Active => "active",
            State::Deleted => "deleted",
        }
    }
}

/// A file or a service that a dataset offers.
#[derive(Drop)]
pub struct Resource {
    /// Its number, which tells it apart from the other resources of its dataset.
    pub number: u32,
    pub name: Text,
    pub url: Text,
    pub format: Text,
    pub description: Text,
    pub mimetype: Text,
}

impl Resource {
    ghost use Rattle.packages.specs.Reading.{blank_resource};

    /// A resource without texts. It takes no memory.
    pub(crate) fn blank(alloc: Global, number: u32) -> Resource
        ensures { result ≡ blank_resource number }
    {
        Resource {
            number,
            name: Text::new(alloc),
            url: Text::new(alloc),
            format: Text::new(alloc),
            description: Text::new(alloc),
            mimetype: Text::new(alloc),
        }
    }
}

/// A dataset.
#[derive(Drop)]
pub struct Package {
    /// A UUID (RFC 9562, section 4), which never changes.
    pub id: Text,
    /// The name in its address.
    pub name: Text,
    pub title: Text,
    pub notes: Text,
    pub author: Text,
    pub maintainer: Text,
    pub license_id: Text,
    pub url: Text,
    pub version: Text,
    /// The name of the organization that owns it.
    pub owner_org: Text,
    /// Whether only the members of its organization see it.
    pub private: bool,
    pub state: State,
    pub tags: Seq<Text>,
    pub resources: Seq<Resource>,
    /// The number of the next resource that is added.
    pub next_resource: u32,
    /// The name of the user who made it.
    pub creator: Text,
    pub created: Moment,
    pub modified: Moment,
    /// The name of the source that it was harvested from, or empty.
    pub source: Text,
    /// Its IRI at that source, or empty.
    pub iri: Text,
}

impl Package {
    ghost use Rattle.std.specs.Prelude.{[], pos};
    ghost use Rattle.packages.specs.Package.{fresh_package};

    /// A new active, public dataset without notes, tags and resources. It takes no memory.
    pub fn fresh(
        alloc: Global,
        id: Text,
        name: Text,
        title: Text,
        owner_org: Text,
        creator: Text,
        moment: Moment,
    ) -> Package
        ensures { result ≡ fresh_package id name title owner_org creator moment }
    {
        Package {
            id,
            name,
            title,
            notes: Text::new(alloc),
            author: Text::new(alloc),
            maintainer: Text::new(alloc),
            license_id: Text::new(alloc),
            url: Text::new(alloc),
            version: Text::new(alloc),
            owner_org,
            private: false,
            state: State::Active,
            tags: Seq::new(alloc),
            resources: Seq::new(alloc),
            next_resource: 1,
            creator,
            created: moment,
            modified: moment,
            source: Text::new(alloc),
            iri: Text::new(alloc),
        }
    }

    /// A new dataset whose texts are empty. It takes no memory.
    pub(crate) fn blank(alloc: Global) -> Package
        ensures { result ≡ fresh_package [] [] [] [] [] (pos 0) }
    {
        let moment = Moment::from_seconds(0).unwrap();
        Package::fresh(
            alloc,
            Text::new(alloc),
            Text::new(alloc),
            Text::new(alloc),
            Text::new(alloc),
            Text::new(alloc),
            moment,
        )
    }
}

impl TryClone for Resource {
    fn try_clone(&self, alloc: Global) -> Result<Resource, AllocError> {
        let mut copy = Resource::blank(alloc, self.number);
        copy_resource(alloc, self, &mut copy)?;
        Ok(copy)
    }
}

impl TryClone for Package {
    fn try_clone(&self, alloc: Global) -> Result<Package, AllocError> {
        let mut copy = Package::blank(alloc);
        copy_kept(alloc, self, &mut copy)?;
        copy_values(alloc, self, &mut copy)?;
        Ok(copy)
    }
}

// ---- the parts of a copy

/// Replaces a value by a copy of another one.
fn copy_to<T: TryClone + Drop>(alloc: Global, from: &T, to: &mut T) -> Result<(), AllocError>
    ensures { OnOk result (to.new ≡ from.now) }
{
    *to = from.try_clone(alloc)?;
    Ok(())
}

/// Copies the texts of a resource.
fn copy_resource(alloc: Global, from: &Resource, to: &mut Resource) -> Result<(), AllocError>
    ensures { OnOk result (to.new ≡ record from.now { number = to.old.number }) }
{
    copy_to(alloc, &from.name, &mut to.name)?;
    copy_to(alloc, &from.url, &mut to.url)?;
    copy_to(alloc, &from.format, &mut to.format)?;
    copy_to(alloc, &from.description, &mut to.description)?;
    copy_to(alloc, &from.mimetype, &mut to.mimetype)
}

/// Copies what no body sets, and the state.
pub(crate) fn copy_kept(alloc: Global, from: &Package, to: &mut Package) -> Result<(), AllocError>
    ensures { OnOk result (to.new ≡ with_kept_of from.now to.old) }
{
    copy_names(alloc, from, to)?;
    copy_to(alloc, &from.creator, &mut to.creator)?;
    copy_to(alloc, &from.source, &mut to.source)?;
    copy_to(alloc, &from.iri, &mut to.iri)?;
    to.state = from.state;
    to.next_resource = from.next_resource;
    to.created = from.created;
    to.modified = from.modified;
    Ok(())
}

fn copy_names(alloc: Global, from: &Package, to: &mut Package) -> Result<(), AllocError>
    ensures { OnOk result (to.new ≡ with_names_of from.now to.old) }
{
    copy_to(alloc, &from.id, &mut to.id)?;
    copy_to(alloc, &from.name, &mut to.name)?;
    copy_to(alloc, &from.owner_org, &mut to.owner_org)
}

/// Copies what bodies set, the state aside.
fn copy_values(alloc: Global, from: &Package, to: &mut Package) -> Result<(), AllocError>
    ensures { OnOk result (to.new ≡ with_values_of from.now to.old) }
{
    copy_texts(alloc, from, to)?;
    copy_links(alloc, from, to)?;
    copy_to(alloc, &from.version, &mut to.version)?;
    copy_to(alloc, &from.tags, &mut to.tags)?;
    to.private = from.private;
    copy_to(alloc, &from.resources, &mut to.resources)
}

fn copy_texts(alloc: Global, from: &Package, to: &mut Package) -> Result<(), AllocError>
    ensures { OnOk result (to.new ≡ with_texts_of from.now to.old) }
{
    copy_to(alloc, &from.title, &mut to.title)?;
    copy_to(alloc, &from.notes, &mut to.notes)?;
    copy_to(alloc, &from.author, &mut to.author)
}

fn copy_links(alloc: Global, from: &Package, to: &mut Package) -> Result<(), AllocError>
    ensures { OnOk result (to.new ≡ with_links_of from.now to.old) }
{
    copy_to(alloc, &from.maintainer, &mut to.maintainer)?;
    copy_to(alloc, &from.license_id, &mut to.license_id)?;
    copy_to(alloc, &from.url, &mut to.url)
}
