//! What the tables of the first schema hold that a desk's no longer do: its templates and its
//! tallies.
ghost use Rattle.std.specs.Prelude.{◌≡◌, ◌≢◌, IfOk, Err, map};
ghost use Rattle.std.specs.List.{AllByRecursion};
ghost use Rattle.sqlite.specs.Order.{Row as Cells};
ghost use Rattle.canary_tables_read.specs.First.{AreTemplatesIn, AreTalliesIn, IsTemplateWithin};
ghost use Rattle.canary_tables_read.specs.First.{IsFirstTallyWithin, FindsFirst, FindsOnly};
ghost use Rattle.canary_tables_read.specs.First.{BreaksFirst};
ghost use Rattle.canary_tables_read.specs.Reader.{Reads};
ghost use Rattle.canary_tables_read.specs.Breaks.{BreaksIfNone};

use crate::columns;
use crate::fault::ReadFault;
use crate::reader::Reader;
use canary_base::lists::{Listed, Text};
use canary_base::moments::Moment;
use canary_base::names::Name;
use sqlite::Row;
use std::alloc::Global;

/// A template of the first schema, by the canonical text of the command that added it.
#[derive(Drop)]
pub struct TemplateRow {
    pub name: Name,
    pub spec: Text,
}

/// The counts of a metric's measurements in a run as the first schema has them, without passes.
#[derive(Clone, Copy)]
pub struct FirstTally {
    pub service: Name,
    pub run: u32,
    pub metric: u32,
    pub counted: u32,
    pub failed: u32,
    pub inconclusive: u32,
    pub errors: u32,
    pub consecutive: u32,
    pub last: Option<Moment>,
}

/// A row of the first schema, all of which is shown.
pub(crate) trait FromFirstRow: Drop {
    /// Its cells.
    ghost cells: { Self → Cells };

    /// That a program can hold it.
    ghost Within: { Self → Type 0 };

    /// The row with these columns. `Memory` if there is not enough, `Broken` if a program can hold
    /// no such row.
    fn read(row: &Row) -> Result<Self, ReadFault>
        ensures found { IfOk result (λ read. cells read ≡ row.now) }
        ensures broken { BreaksIfNone result (λ read. cells read ≡ row.now) Within }
        ensures unasked { result ≢ Err ReadFault.Storage };
}

impl FromFirstRow for TemplateRow {
    ghost use Rattle.canary_tables_read.specs.First.{template_cells, IsTemplateWithin};

    ghost cells = { template_cells };

    ghost Within = { IsTemplateWithin };

    // The template in columns 0 and 1: its name, and the text of its command.
    fn read(row: &Row) -> Result<TemplateRow, ReadFault> {
        columns::has_width(row, 2)?;
        Ok(TemplateRow {
            name: columns::name_at(row, 0)?,
            spec: columns::text_at(row, 1)?,
        })
    }
}

impl FromFirstRow for FirstTally {
    ghost use Rattle.canary_tables_read.specs.First.{first_tally_cells, IsFirstTallyWithin};

    ghost cells = { first_tally_cells };

    ghost Within = { IsFirstTallyWithin };

    // The tally in columns 0 to 8. Whether its counts agree is not looked at.
    fn read(row: &Row) -> Result<FirstTally, ReadFault> {
        columns::has_width(row, 9)?;
        Ok(FirstTally {
            service: columns::name_at(row, 0)?,
            run: columns::number_at(row, 1)?,
            metric: columns::number_at(row, 2)?,
            counted: columns::number_at(row, 3)?,
            failed: columns::number_at(row, 4)?,
            inconclusive: columns::number_at(row, 5)?,
            errors: columns::number_at(row, 6)?,
            consecutive: columns::number_at(row, 7)?,
            last: columns::maybe_moment_at(row, 8)?,
        })
    }
}

// All rows, in their order. `Memory` if there is not enough, `Broken` if a program cannot hold one
// of them.
fn all<R: FromFirstRow>(alloc: Global, rows: &[Row]) -> Result<Listed<R>, ReadFault>
    ensures found { IfOk result (λ all. map R.cells all ≡ rows.now) }
    ensures broken { BreaksIfNone result (λ all. map R.cells all ≡ rows.now)
        (AllByRecursion R.Within) }
    ensures unasked { result ≢ Err ReadFault.Storage }
{
    let mut all = Listed::of(Vec::new(alloc));
    for row in rows {
        all.push(R::read(row)?)?;
    }
    Ok(all)
}

/// The templates of a database of the first schema, in the order in which they were added. `Memory`
/// if there is not enough, `Storage` if the database fails, `Broken` if a template is not one that
/// a program can hold.
pub fn templates<Q: Reader>(conn: &mut Q, alloc: Global) -> Result<Listed<TemplateRow>, ReadFault>
    requires ready { Q.IsReady conn.old }
    ensures reads { Reads Q.IsReady Q.place Q.below Q.shows conn.old conn.new }
    ensures found { FindsFirst AreTemplatesIn Q.shows conn.old conn.new result }
    ensures only { FindsOnly AreTemplatesIn Q.shows conn.old conn.new result }
    ensures broken { BreaksFirst AreTemplatesIn IsTemplateWithin Q.shows conn.old conn.new result }
{
    let rows = conn.ask("SELECT name, spec FROM template ORDER BY rowid", &[])?;
    all(alloc, rows.as_slice())
}

/// The tallies of a database of the first schema, in the order in which they were added. `Memory`
/// if there is not enough, `Storage` if the database fails, `Broken` if a tally is not one that a
/// program can hold.
pub fn tallies<Q: Reader>(conn: &mut Q, alloc: Global) -> Result<Listed<FirstTally>, ReadFault>
    requires ready { Q.IsReady conn.old }
    ensures reads { Reads Q.IsReady Q.place Q.below Q.shows conn.old conn.new }
    ensures found { FindsFirst AreTalliesIn Q.shows conn.old conn.new result }
    ensures only { FindsOnly AreTalliesIn Q.shows conn.old conn.new result }
    ensures broken { BreaksFirst AreTalliesIn IsFirstTallyWithin Q.shows conn.old conn.new result }
{
    let rows = conn.ask(
        "SELECT service, run, metric, counted, failed, inconclusive, errors, consecutive, last \
         FROM tally ORDER BY rowid",
        &[],
    )?;
    all(alloc, rows.as_slice())
}
