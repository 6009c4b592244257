//! Whether the only dataset of a shelf is found by a query.
ghost use Rattle.std.specs.Prelude.{◌≡◌};
ghost use Rattle.search_index.specs.Index.{StandsFor};

use cases::{Buffer, Case, invalid};
use packages::build::build;
use packages::package::Package;
use packages::shelf::Shelf;
use portal_base::json_value::Json;
use portal_base::steps::Steps;
use search_index::index::Index;
use search_index::query::SearchQuery;
use std::alloc::{AllocError, Global};
use std::io;
use std::marker::Brand;
use std::sync::ledger::{Blank, Ledger};

/// The dataset that the body in a column describes.
fn dataset_in(alloc: Global, case: &Case, column: usize) -> io::Result<Package> {
    let Ok(body) = Json::read(alloc, case.bytes(column)) else {
        return Err(invalid());
    };
    match build(alloc, &body, None, true) {
        Ok(dataset) => Ok(dataset),
        Err(_) => Err(invalid()),
    }
}

/// Puts a dataset on the shelf, and enters it in the index. Returns its number.
fn put(shelf: &mut Shelf, index: &mut Index, dataset: Package) -> io::Result<u32>
    requires { StandsFor index.old shelf.old }
    ensures { StandsFor index.new shelf.new }
{
    if shelf.is_in_use(dataset.id.as_str()) || shelf.is_in_use(dataset.name.as_str()) {
        return Err(invalid());
    }
    let number = shelf.prepare()?;
    let terms = index.prepare(number, &dataset)?;
    index.commit(terms);
    Ok(shelf.put(dataset))
}

/// Removes the dataset at the number, which there has to be.
fn remove(shelf: &mut Shelf, index: &mut Index, number: u32) -> io::Result<()>
    requires { StandsFor index.old shelf.old }
    ensures { StandsFor index.new shelf.new }
{
    if shelf.package_at(number).is_none() {
        return Err(invalid());
    }
    let _removed = shelf.remove(number);
    index.remove(number);
    Ok(())
}

/// Whether the query finds a dataset.
fn finds<L: Ledger>(
    blank: Blank,
    query: &SearchQuery,
    shelf: &Shelf,
    index: &Index,
) -> Result<bool, AllocError>
    requires stands { StandsFor index.now shelf.now }
    requires name { blank.name ≡ L.name }
    requires parts { (blank.parts ≡ L.parts) × (blank.parts ≡ 1) }
{
    let mut steps = Steps::<L>::open(blank);
    let found = index.find(query, shelf, &mut steps)?;
    Ok(!found.is_empty())
}

/// Writes whether the query finds a dataset.
fn push_finding(
    answer: &mut Buffer,
    query: &SearchQuery,
    shelf: &Shelf,
    index: &Index,
) -> io::Result<()>
    requires { StandsFor index.now shelf.now }
{
    let finds = finds::<Brand>(Blank::new(1), query, shelf, index)?;
    answer.push(if finds { "yes" } else { "no" });
    Ok(())
}

/// A dataset's body and the two texts of a query: whether the query finds the dataset.
pub fn of_new(alloc: Global, case: &Case, answer: &mut Buffer) -> io::Result<()> {
    let (mut shelf, mut index) = (Shelf::new(alloc), Index::new(alloc));
    put(&mut shelf, &mut index, dataset_in(alloc, case, 0)?)?;
    let query = SearchQuery::read(alloc, case.text(1)?, case.text(2)?)?;
    push_finding(answer, &query, &shelf, &index)
}

/// The bodies of two datasets and a query: whether it finds the second, put in the place of the first.
pub fn of_changed(alloc: Global, case: &Case, answer: &mut Buffer) -> io::Result<()> {
    let (mut shelf, mut index) = (Shelf::new(alloc), Index::new(alloc));
    let number = put(&mut shelf, &mut index, dataset_in(alloc, case, 0)?)?;
    remove(&mut shelf, &mut index, number)?;
    put(&mut shelf, &mut index, dataset_in(alloc, case, 1)?)?;
    let query = SearchQuery::read(alloc, case.text(2)?, "")?;
    push_finding(answer, &query, &shelf, &index)
}
