//! Laws of the rows of datasets. Each law is the contract of a function with an empty body.
ghost use Rattle.std.specs.Prelude.{◌≡◌, ℕ, List, Ok, Some};
ghost use Rattle.std.specs.Str.{IsUtf8};
ghost use Rattle.packages.specs.declared.package.Package.{Package};
ghost use Rattle.portal_base.specs.Json.{json_reading};
ghost use Rattle.dataset_rows.specs.Reading.{dataset_read};
ghost use Rattle.dataset_rows.specs.Rows.{row_json, row_text, IsWellTyped, HasRow};

/// No two datasets have the same row.
pub fn a_row_is_of_one_dataset()
    ensures { (id body : List ℕ) (one other : Package) →
        HasRow id body one → HasRow id body other → one ≡ other }
{}

/// The row of a dataset is read back as that dataset.
pub fn rows_are_read_back()
    ensures { (dataset : Package) → IsWellTyped dataset →
        dataset_read dataset.id (row_text dataset) ≡ Some dataset }
{}

/// The body of a dataset's row is JSON, if it is UTF-8: it is read as the JSON value of the dataset.
pub fn bodies_are_json()
    ensures { (dataset : Package) → IsWellTyped dataset → IsUtf8 (row_text dataset) →
        json_reading (row_text dataset) ≡ Ok (row_json dataset) }
{}
