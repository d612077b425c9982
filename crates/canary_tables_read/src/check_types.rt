//! Whether the rows of a desk's database are those of tables at all.
ghost use Rattle.std.specs.Prelude.{Err};
ghost use Rattle.canary_tables_read.specs.TreeRows.{HasEarlyRows, HasLateRows, Assures, Denies};
ghost use Rattle.canary_tables_read.specs.TreeRows.{HasCallers, HasKept, HasServices, HasRuns};
ghost use Rattle.canary_tables_read.specs.TreeRows.{HasMeasurements, HasLines, HasRevisions};
ghost use Rattle.canary_tables_read.specs.TreeRows.{HasBindings, HasTallies, HasTalliesIfWhole};
ghost use Rattle.canary_tables_read.specs.TreeRows.{HasLateRowsIfWhole, AssuresAll, DeniesAll};
ghost use Rattle.canary_tables_read.specs.Queries.{IsQuery};
ghost use Rattle.canary_tables_read.specs.Reader.{Reads};
ghost use Rattle.canary_tables_read.specs.Rows.{ShowsNone, ShowsSome};

use crate::fault::ReadFault;
use crate::reader::Reader;

/// That the rows of a formed database are those of tables: each number is one from 0 on. `Memory`
/// if there is not enough, `Storage` if the database fails, `Broken` if a number is negative.
pub fn check_types<Q: Reader>(conn: &mut Q) -> Result<(), ReadFault>
    requires ready { Q.IsReady conn.old }
    ensures reads { Reads Q.IsReady Q.place Q.below Q.shows conn.old conn.new }
    ensures typed { AssuresAll Q.shows conn.old conn.new result }
    ensures broken { DeniesAll Q.shows conn.old conn.new result }
{
    conn.look();
    early_typed(conn)?;
    late_typed(conn)
}

// That no number in the tables of callers, of their requests, of services and of their runs is
// negative.
fn early_typed<Q: Reader>(conn: &mut Q) -> Result<(), ReadFault>
    requires ready { Q.IsReady conn.old }
    ensures reads { Reads Q.IsReady Q.place Q.below Q.shows conn.old conn.new }
    ensures typed { Assures HasEarlyRows Q.shows conn.old conn.new result }
    ensures broken { Denies HasEarlyRows Q.shows conn.old conn.new result }
{
    callers_typed(conn)?;
    kept_typed(conn)?;
    services_typed(conn)?;
    runs_typed(conn)
}

// That no number in the tables of measurements, of histories, of revisions, of bindings and of
// tallies is negative.
fn late_typed<Q: Reader>(conn: &mut Q) -> Result<(), ReadFault>
    requires ready { Q.IsReady conn.old }
    ensures reads { Reads Q.IsReady Q.place Q.below Q.shows conn.old conn.new }
    ensures typed { Assures HasLateRowsIfWhole Q.shows conn.old conn.new result }
    ensures broken { Denies HasLateRows Q.shows conn.old conn.new result }
{
    measurements_typed(conn)?;
    history_typed(conn)?;
    revisions_typed(conn)?;
    bindings_typed(conn)?;
    tallies_typed(conn)
}

// That no number in `caller` is negative; else `Broken`.
fn callers_typed<Q: Reader>(conn: &mut Q) -> Result<(), ReadFault>
    requires ready { Q.IsReady conn.old }
    ensures reads { Reads Q.IsReady Q.place Q.below Q.shows conn.old conn.new }
    ensures typed { Assures HasCallers Q.shows conn.old conn.new result }
    ensures broken { Denies HasCallers Q.shows conn.old conn.new result }
{
    conn.look();
    none_shown(conn, "SELECT 1 FROM caller WHERE settled < 0 LIMIT 1")
}

// That no number in `kept` is negative; else `Broken`.
fn kept_typed<Q: Reader>(conn: &mut Q) -> Result<(), ReadFault>
    requires ready { Q.IsReady conn.old }
    ensures reads { Reads Q.IsReady Q.place Q.below Q.shows conn.old conn.new }
    ensures typed { Assures HasKept Q.shows conn.old conn.new result }
    ensures broken { Denies HasKept Q.shows conn.old conn.new result }
{
    conn.look();
    none_shown(
        conn,
        "SELECT 1 FROM kept WHERE number < 0 OR status < 0 LIMIT 1",
    )
}

// That no number in `service` is negative; else `Broken`.
fn services_typed<Q: Reader>(conn: &mut Q) -> Result<(), ReadFault>
    requires ready { Q.IsReady conn.old }
    ensures reads { Reads Q.IsReady Q.place Q.below Q.shows conn.old conn.new }
    ensures typed { Assures HasServices Q.shows conn.old conn.new result }
    ensures broken { Denies HasServices Q.shows conn.old conn.new result }
{
    conn.look();
    none_shown(
        conn,
        "SELECT 1 FROM service \
         WHERE state < 0 OR step < 0 OR entered < 0 OR hold < 0 OR background < 0 \
         OR runs < 0 OR last < 0 LIMIT 1",
    )
}

// That no number in `run` is negative; else `Broken`.
fn runs_typed<Q: Reader>(conn: &mut Q) -> Result<(), ReadFault>
    requires ready { Q.IsReady conn.old }
    ensures reads { Reads Q.IsReady Q.place Q.below Q.shows conn.old conn.new }
    ensures typed { Assures HasRuns Q.shows conn.old conn.new result }
    ensures broken { Denies HasRuns Q.shows conn.old conn.new result }
{
    conn.look();
    none_shown(
        conn,
        "SELECT 1 FROM run \
         WHERE number < 0 OR step < 0 OR started < 0 OR closed < 0 OR outside < 0 \
         OR verdict < 0 LIMIT 1",
    )
}

// That no number in `measurement` is negative; else `Broken`.
fn measurements_typed<Q: Reader>(conn: &mut Q) -> Result<(), ReadFault>
    requires ready { Q.IsReady conn.old }
    ensures reads { Reads Q.IsReady Q.place Q.below Q.shows conn.old conn.new }
    ensures typed { Assures HasMeasurements Q.shows conn.old conn.new result }
    ensures broken { Denies HasMeasurements Q.shows conn.old conn.new result }
{
    conn.look();
    none_shown(
        conn,
        "SELECT 1 FROM measurement \
         WHERE run < 0 OR metric < 0 OR ordinal < 0 OR taken < 0 OR phase < 0 LIMIT 1",
    )
}

// That no number in `history` is negative; else `Broken`.
fn history_typed<Q: Reader>(conn: &mut Q) -> Result<(), ReadFault>
    requires ready { Q.IsReady conn.old }
    ensures reads { Reads Q.IsReady Q.place Q.below Q.shows conn.old conn.new }
    ensures typed { Assures HasLines Q.shows conn.old conn.new result }
    ensures broken { Denies HasLines Q.shows conn.old conn.new result }
{
    conn.look();
    none_shown(conn, "SELECT 1 FROM history WHERE moment < 0 LIMIT 1")
}

// That no number in `revision` is negative; else `Broken`.
fn revisions_typed<Q: Reader>(conn: &mut Q) -> Result<(), ReadFault>
    requires ready { Q.IsReady conn.old }
    ensures reads { Reads Q.IsReady Q.place Q.below Q.shows conn.old conn.new }
    ensures typed { Assures HasRevisions Q.shows conn.old conn.new result }
    ensures broken { Denies HasRevisions Q.shows conn.old conn.new result }
{
    conn.look();
    none_shown(conn, "SELECT 1 FROM revision WHERE revision < 0 LIMIT 1")
}

// That no number in `binding` is negative; else `Broken`.
fn bindings_typed<Q: Reader>(conn: &mut Q) -> Result<(), ReadFault>
    requires ready { Q.IsReady conn.old }
    ensures reads { Reads Q.IsReady Q.place Q.below Q.shows conn.old conn.new }
    ensures typed { Assures HasBindings Q.shows conn.old conn.new result }
    ensures broken { Denies HasBindings Q.shows conn.old conn.new result }
{
    conn.look();
    none_shown(
        conn,
        "SELECT 1 FROM binding WHERE run < 0 OR revision < 0 LIMIT 1",
    )
}

// That no number in `tally` is negative; else `Broken`.
fn tallies_typed<Q: Reader>(conn: &mut Q) -> Result<(), ReadFault>
    requires ready { Q.IsReady conn.old }
    ensures reads { Reads Q.IsReady Q.place Q.below Q.shows conn.old conn.new }
    ensures typed { Assures HasTalliesIfWhole Q.shows conn.old conn.new result }
    ensures broken { Denies HasTallies Q.shows conn.old conn.new result }
{
    conn.look();
    none_shown(
        conn,
        "SELECT 1 FROM tally \
         WHERE run < 0 OR metric < 0 OR counted < 0 OR failed < 0 OR inconclusive < 0 \
         OR errors < 0 OR consecutive < 0 OR passes < 0 OR last < 0 LIMIT 1",
    )
}

// That the query shows no row; else `Broken`.
fn none_shown<Q: Reader>(conn: &mut Q, text: &str) -> Result<(), ReadFault>
    requires ready { Q.IsReady conn.old }
    requires query { IsQuery text.now }
    ensures reads { Reads Q.IsReady Q.place Q.below Q.shows conn.old conn.new }
    ensures none { ShowsNone text.now Q.shows conn.old conn.new result }
    ensures some { ShowsSome text.now Q.shows conn.old conn.new result }
{
    let rows = conn.ask(text, &[])?;
    if rows.is_empty() {
        Ok(())
    } else {
        Err(ReadFault::Broken)
    }
}
