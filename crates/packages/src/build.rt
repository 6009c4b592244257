//! The dataset that a call's body describes.
ghost use Rattle.std.specs.Prelude.{◌≡◌, ◌⊎◌, [], IfOk, IfErr, IfNone, IsTrue, None, OnOk, codes, drop, take};
ghost use Rattle.std.specs.Option.{option_copied};
ghost use Rattle.packages.specs.Body.{body_checks, body_errors, reset_dataset, built_dataset};
ghost use Rattle.packages.specs.Body.{IsRefusal};
ghost use Rattle.packages.specs.Reading.{base_read, with_reading, with_authors_read, with_names_read};
ghost use Rattle.packages.specs.Reading.{with_lists_read, with_title_read};
ghost use Rattle.packages.specs.declared.build.BuildFault.TheVariants.{Fields};
ghost use Rattle.portal_base.specs.KeyErrors.{has_error, with_rule_errors};

use crate::package::{LONGEST_NOTES, LONGEST_TEXT, Package, copy_kept};
use crate::resource_list::read_resources;
use crate::tags::read_tags;
use crate::texts::{
    copy_if_new, read_name, read_organization, read_private, read_state, read_text, read_title,
};
use portal_base::copy::TryClone;
use portal_base::json_value::Json;
use portal_base::key_errors::KeyErrors;
use portal_base::seq::Seq;
use portal_base::text::Text;
use std::alloc::{AllocError, Global};

/// Why a dataset can't be built.
#[derive(Debug, Drop)]
pub enum BuildFault {
    /// The faulty keys of the body, in the order of the keys, each with its one message.
    Fields(Seq<(Text, Text)>),
    OutOfMemory,
}

impl From<AllocError> for BuildFault {
    ghost use Rattle.std.specs.Prelude.{◌≡◌};
    ghost use Rattle.packages.specs.declared.build.BuildFault.TheVariants.{OutOfMemory};

    ghost from_gives = { λ _ fault. fault ≡ OutOfMemory };

    fn from(_refused: AllocError) -> BuildFault {
        BuildFault::OutOfMemory
    }
}

/// What is read of a body: the dataset that it describes, and the errors of its keys.
#[derive(Drop)]
pub struct DatasetReading {
    /// The dataset, in which a faulty key counts as absent.
    pub dataset: Package,
    pub errors: KeyErrors,
}

/// The dataset that a body describes: a new one, or `old` changed. With `whole` absent keys take their defaults (CKAN's
/// `package_create` and `package_update`), and without it the values of `old` (`package_patch`). A faulty body is
/// refused with the error of each faulty key. The function doesn't check whether the organization exists, nor whether a
/// table refers to a table of a removed resource.
pub fn build(
    alloc: Global,
    body: &Json,
    old: Option<&Package>,
    whole: bool,
) -> Result<Package, BuildFault>
    requires { IfNone old (IsTrue whole) }
    ensures built { IfOk result (λ dataset. dataset ≡ built_dataset body.now (option_copied old.entry) whole) }
    ensures faultless { OnOk result (body_errors body.now (option_copied old.entry) ≡ []) }
    ensures errors { IfErr result (IsRefusal (body_errors body.now (option_copied old.entry))) }
{
    let read = read_dataset(alloc, body, old, whole)?;
    unless_error(read.errors)?;
    Ok(read.dataset)
}

/// Refuses a body with errors. It takes no memory.
pub fn unless_error(faults: KeyErrors) -> Result<(), BuildFault>
    ensures faultless { OnOk result (faults ≡ []) }
    ensures errors { IfErr result (IsRefusal faults) }
    ensures fields { IfErr result (λ fault. fault ≡ Fields faults) }
{
    if faults.is_empty() {
        Ok(())
    } else {
        Err(BuildFault::Fields(faults.into_list()))
    }
}

// ---- the reading

/// Reads each key of a dataset's body once: into the dataset, or to its error. The dataset is new, or `old` changed, as
/// `build` says. It is the one that the body describes if no key has an error, and its resources are those if their key
/// has none.
pub fn read_dataset(
    alloc: Global,
    body: &Json,
    old: Option<&Package>,
    whole: bool,
) -> Result<DatasetReading, AllocError>
    ensures errors { IfOk result (λ read. read.errors ≡ body_errors body.now (option_copied old.entry)) }
    ensures built { IfOk result (λ read.
        read.errors ≡ [] → read.dataset ≡ built_dataset body.now (option_copied old.entry) whole) }
    ensures id { IfOk result (λ read.
        read.dataset.id ≡ (built_dataset body.now (option_copied old.entry) whole).id) }
    ensures resources { IfOk result (λ read. IsTrue (has_error (codes "resources") read.errors)
        ⊎ (read.dataset.resources ≡ (built_dataset body.now (option_copied old.entry) whole).resources)) }
{
    let mut errors = KeyErrors::new(alloc);
    let mut dataset = base_dataset(alloc, old, whole)?;
    read_keys(alloc, &mut errors, body, old, &mut dataset)?;
    Ok(DatasetReading { dataset, errors })
}

/// Reads the keys of the body in their order into the dataset, and adds their errors.
fn read_keys(
    alloc: Global,
    faults: &mut KeyErrors,
    body: &Json,
    old: Option<&Package>,
    dataset: &mut Package,
) -> Result<(), AllocError>
    ensures errors { OnOk result
        (faults.new ≡ with_rule_errors (body_checks body.now (option_copied old.entry)) faults.old) }
    ensures dataset { OnOk result (dataset.new ≡ with_reading body.now (option_copied old.entry) dataset.old) }
{
    read_authors(alloc, faults, body, dataset)?;
    read_names(alloc, faults, body, old, dataset)?;
    read_lists(alloc, faults, body, old, dataset)?;
    read_title_and_links(alloc, faults, body, dataset)
}

/// Reads the first three keys.
fn read_authors(
    alloc: Global,
    faults: &mut KeyErrors,
    body: &Json,
    dataset: &mut Package,
) -> Result<(), AllocError>
    ensures errors { OnOk result (faults.new ≡ with_rule_errors (take 3 (body_checks body.now None)) faults.old) }
    ensures dataset { OnOk result (dataset.new ≡ with_authors_read body.now dataset.old) }
{
    read_text(
        alloc,
        faults,
        body,
        "author",
        LONGEST_TEXT,
        &mut dataset.author,
    )?;
    read_text(
        alloc,
        faults,
        body,
        "license_id",
        LONGEST_TEXT,
        &mut dataset.license_id,
    )?;
    read_text(
        alloc,
        faults,
        body,
        "maintainer",
        LONGEST_TEXT,
        &mut dataset.maintainer,
    )
}

/// Reads the next three keys: name, notes and organization. The title of a new dataset is its name by default.
fn read_names(
    alloc: Global,
    faults: &mut KeyErrors,
    body: &Json,
    old: Option<&Package>,
    dataset: &mut Package,
) -> Result<(), AllocError>
    ensures errors { OnOk result (faults.new
        ≡ with_rule_errors (take 3 (drop 3 (body_checks body.now (option_copied old.entry)))) faults.old) }
    ensures dataset { OnOk result (dataset.new ≡ with_names_read body.now (option_copied old.entry) dataset.old) }
{
    read_name(alloc, faults, body, old, &mut dataset.name)?;
    copy_if_new(alloc, old, &dataset.name, &mut dataset.title)?;
    read_text(
        alloc,
        faults,
        body,
        "notes",
        LONGEST_NOTES,
        &mut dataset.notes,
    )?;
    read_organization(alloc, faults, body, old, &mut dataset.owner_org)
}

/// Reads the next four keys.
fn read_lists(
    alloc: Global,
    faults: &mut KeyErrors,
    body: &Json,
    old: Option<&Package>,
    dataset: &mut Package,
) -> Result<(), AllocError>
    ensures errors { OnOk result (faults.new
        ≡ with_rule_errors (take 4 (drop 6 (body_checks body.now (option_copied old.entry)))) faults.old) }
    ensures dataset { OnOk result (dataset.new ≡ with_lists_read body.now (option_copied old.entry) dataset.old) }
{
    read_private(alloc, faults, body, &mut dataset.private)?;
    read_resources(
        alloc,
        faults,
        body,
        old,
        &mut dataset.resources,
        &mut dataset.next_resource,
    )?;
    read_state(alloc, faults, body, &mut dataset.state)?;
    read_tags(alloc, faults, body, &mut dataset.tags)
}

/// Reads the last three keys.
fn read_title_and_links(
    alloc: Global,
    faults: &mut KeyErrors,
    body: &Json,
    dataset: &mut Package,
) -> Result<(), AllocError>
    ensures errors { OnOk result (faults.new ≡ with_rule_errors (drop 10 (body_checks body.now None)) faults.old) }
    ensures dataset { OnOk result (dataset.new ≡ with_title_read body.now dataset.old) }
{
    read_title(alloc, faults, body, &dataset.name, &mut dataset.title)?;
    read_text(alloc, faults, body, "url", LONGEST_TEXT, &mut dataset.url)?;
    read_text(
        alloc,
        faults,
        body,
        "version",
        LONGEST_TEXT,
        &mut dataset.version,
    )
}

// ---- the dataset into which a body is read

/// The dataset that gives the values for absent keys.
fn base_dataset(alloc: Global, old: Option<&Package>, whole: bool) -> Result<Package, AllocError>
    ensures { IfOk result (λ dataset. dataset ≡ base_read (option_copied old.entry) whole) }
{
    match old {
        None => Ok(Package::blank(alloc)),
        Some(old) if whole => reset_dataset(alloc, old),
        Some(old) => old.try_clone(alloc),
    }
}

/// The dataset with the defaults for all keys of bodies but its name, its organization and its state.
fn reset_dataset(alloc: Global, old: &Package) -> Result<Package, AllocError>
    ensures { IfOk result (λ dataset. dataset ≡ reset_dataset old.now) }
{
    let mut dataset = Package::blank(alloc);
    copy_kept(alloc, old, &mut dataset)?;
    dataset.title = old.name.try_clone(alloc)?;
    Ok(dataset)
}
