//! The rows of datasets.
ghost use Rattle.std.specs.Prelude.{◌≡◌, ◌↔◌, IfOk, IfSome, IfNone, IsTrue};
ghost use Rattle.packages.specs.declared.package.Package.{Package};
ghost use Rattle.dataset_rows.specs.Rows.{row_text, HasRow};

use crate::read::dataset_read;
use crate::write::row_json;
use packages::package::Package;
use portal_base::text::Text;
use std::alloc::{AllocError, Global};

/// The body of a dataset's row: a JSON text with a dictionary of the fields. The id isn't in it, since it is the key of
/// the row.
#[tactic(auto, unfolding(crate::specs::Rows::row_text))]
pub fn row_of(alloc: Global, dataset: &Package) -> Result<Text, AllocError>
    ensures { IfOk result (λ body. body ≡ row_text dataset.now) }
{
    let json = row_json(alloc, dataset)?;
    json.text(alloc)
}

/// The dataset with this id whose row has this body. It is none exactly if no dataset has that row.
pub fn from_row(alloc: Global, id: &Text, body: &Text) -> Result<Option<Package>, AllocError>
    ensures found { IfOk result (λ found. IfSome found (HasRow id.now body.now)) }
    ensures none { IfOk result (λ found. IfNone found
        ((dataset : Package) → ¬ HasRow id.now body.now dataset)) }
{
    let Some(dataset) = dataset_read(alloc, id, body)? else {
        return Ok(None);
    };
    if has_body(alloc, &dataset, body)? {
        Ok(Some(dataset))
    } else {
        Ok(None)
    }
}

/// Whether this is the body of the dataset's row.
fn has_body(alloc: Global, dataset: &Package, body: &Text) -> Result<bool, AllocError>
    ensures { IfOk result (λ same. IsTrue same ↔ (row_text dataset.now ≡ body.now)) }
{
    let own = row_of(alloc, dataset)?;
    Ok(own.as_str() == body.as_str())
}
