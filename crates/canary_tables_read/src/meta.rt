//! Which rows stand in `meta`, by which a database says of which schema it is.
ghost use Rattle.std.specs.Prelude.{◌≡◌, ◌≢◌, Err};
ghost use Rattle.canary_tables_schema.specs.Cells.{meta_rows};
ghost use Rattle.canary_tables_schema.specs.First.{HasFirstMeta};
ghost use Rattle.canary_tables_read.specs.Meta.{Stands, standing as standing_by, FindsRisen};
ghost use Rattle.canary_tables_read.specs.Queries.{IsQuery};
ghost use Rattle.canary_tables_read.specs.Reader.{Reads};
ghost use Rattle.canary_tables_read.specs.First.{FindsFirst};
ghost use Rattle.canary_tables_read.specs.Rows.{ShowsAny};

use crate::fault::ReadFault;
use crate::reader::Reader;

/// How the row of a schema stands in `meta`. Its id is 1, and it holds the schema's number.
#[derive(Clone, Copy)]
pub enum MetaRow {
    /// It is the only row.
    Alone,
    /// It is there, and other rows beside it.
    WithOthers,
    /// It is not there.
    Missing,
}

/// How the row of a desk's schema, which is 1, 2, stands in `meta` of a desk's database. `Memory`
/// if there is not enough, `Storage` if the database fails; never `Broken`.
pub fn desk_row<Q: Reader>(conn: &mut Q) -> Result<MetaRow, ReadFault>
    requires ready { Q.IsReady conn.old }
    ensures reads { Reads Q.IsReady Q.place Q.below Q.shows conn.old conn.new }
    ensures found { FindsRisen (λ db. Stands 2 (db.trees 0 ≡ meta_rows) (db.trees 0))
        Q.shows conn.old conn.new result }
    ensures whole { result ≢ Err ReadFault.Broken }
{
    conn.look();
    let is_there = is_shown(
        conn,
        "SELECT 1 FROM meta WHERE id = 1 AND schema = 2 LIMIT 1",
    )?;
    let has_others = is_shown(conn, "SELECT 1 FROM meta WHERE id <> 1 LIMIT 1")?;
    Ok(standing(is_there, has_others))
}

/// How the row of the first schema, which is 1, 1, stands in `meta` of a database of that schema.
/// `Memory` if there is not enough, `Storage` if the database fails; never `Broken`.
pub fn first_row<Q: Reader>(conn: &mut Q) -> Result<MetaRow, ReadFault>
    requires ready { Q.IsReady conn.old }
    ensures reads { Reads Q.IsReady Q.place Q.below Q.shows conn.old conn.new }
    ensures found { FindsFirst (λ db. Stands 1 (HasFirstMeta (db.trees 0)) (db.trees 0))
        Q.shows conn.old conn.new result }
    ensures whole { result ≢ Err ReadFault.Broken }
{
    conn.look();
    let is_there = is_shown(
        conn,
        "SELECT 1 FROM meta WHERE id = 1 AND schema = 1 LIMIT 1",
    )?;
    let has_others = is_shown(conn, "SELECT 1 FROM meta WHERE id <> 1 LIMIT 1")?;
    Ok(standing(is_there, has_others))
}

// What two queries come to: without the row it is `Missing`, whatever else `meta` has.
fn standing(is_there: bool, has_others: bool) -> MetaRow
    ensures { result ≡ standing_by is_there has_others }
{
    match (is_there, has_others) {
        (true, false) => MetaRow::Alone,
        (true, true) => MetaRow::WithOthers,
        (false, _) => MetaRow::Missing,
    }
}

// Whether the query shows a row.
fn is_shown<Q: Reader>(conn: &mut Q, text: &str) -> Result<bool, ReadFault>
    requires ready { Q.IsReady conn.old }
    requires query { IsQuery text.now }
    ensures reads { Reads Q.IsReady Q.place Q.below Q.shows conn.old conn.new }
    ensures shown { ShowsAny text.now Q.shows conn.old conn.new result }
    ensures whole { result ≢ Err ReadFault.Broken }
{
    let rows = conn.ask(text, &[])?;
    Ok(!rows.is_empty())
}
