//! The row of the version.
ghost use Rattle.std.specs.Prelude.{◌≡◌};
ghost use Rattle.portal_rows.specs.VersionRow.{version_row};

use portal_base::text::Text;
use portal_keeper::row::{KeptRow, RowKind};

/// The row of the version. It takes no memory.
pub fn version_row() -> KeptRow
    ensures { result ≡ version_row }
{
    KeptRow {
        kind: RowKind::Version,
        key: Text::from_static("portal"),
        body: Text::from_static("1"),
    }
}
