//! Bodies of rows, which are the texts of JSON values.
ghost use Rattle.std.specs.Prelude.{◌≡◌, IfOk};
ghost use Rattle.dataset_rows.specs.Reading.{json_read};

use portal_base::json_value::{Json, JsonFault};
use portal_base::text::Text;
use std::alloc::{AllocError, Global};

/// The JSON value of a body, if it has one.
pub(crate) fn json_read(alloc: Global, body: &Text) -> Result<Option<Json>, AllocError>
    ensures { IfOk result (λ json. json ≡ json_read body.now) }
{
    match Json::read(alloc, body.as_str().as_bytes()) {
        Ok(json) => Ok(Some(json)),
        Err(JsonFault::NotJson) => Ok(None),
        Err(JsonFault::Fraction) => Ok(None),
        Err(JsonFault::OutOfMemory) => Err(AllocError),
    }
}
