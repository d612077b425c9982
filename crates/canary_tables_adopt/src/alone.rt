//! Rows of which there is to be just one.
ghost use Rattle.std.specs.Prelude.{◌≡◌};
ghost use Rattle.canary_tables_adopt.specs.Alone.{only};

use canary_base::lists::Listed;

/// The row, if it is the only one.
pub(crate) fn only<R: Drop>(rows: Listed<R>) -> Option<R>
    ensures { result ≡ only rows }
{
    let mut rows = rows.into_vec();
    let row = rows.pop()?;
    if rows.is_empty() { Some(row) } else { None }
}
