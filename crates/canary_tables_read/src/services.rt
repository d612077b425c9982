//! Revisions of templates, services, and to which revisions these are bound.
ghost use Rattle.std.specs.Prelude.{◌≢◌, ◌∷◌, Err, false};
ghost use Rattle.sqlite.specs.declared.types.Value.TheVariants.{Text as Words};
ghost use Rattle.canary_tables_schema.specs.Cells.{revision_cells, service_cells};
ghost use Rattle.canary_tables_read.specs.Finds.{Gives, Finds, TellsCells, first};
ghost use Rattle.canary_tables_read.specs.Breaks.{BreaksUnless, RevisionsWithin, ServicesWithin};
ghost use Rattle.canary_tables_read.specs.Breaks.{BindingsWithin};
ghost use Rattle.canary_tables_read.specs.Reader.{Reads};
ghost use Rattle.canary_tables_read.specs.Chosen.{revision_of, service_of, bindings_of};
ghost use Rattle.canary_tables_read.specs.Chosen.{is_attempt_bound, first_revision, first_service};
ghost use Rattle.canary_tables_read.specs.Chosen.{IsNewestOf};

use crate::fault::ReadFault;
use crate::from_row;
use crate::reader::Reader;
use canary_base::lists::Listed;
use canary_base::names::Name;
use canary_tables_rows::rows::{BindingRow, RevisionRow, ServiceRow};
use canary_tables_schema::fault::StoreFault;
use sqlite::{Row, params};
use std::alloc::Global;

/// The newest revision of the template of that name, which is the one with the greatest number, if
/// there is one. `Memory` if there is not enough, `Storage` if the database fails, `Broken` if the
/// revision's row is not one that a program can hold.
pub fn newest<Q: Reader>(conn: &mut Q, name: &Name) -> Result<Option<RevisionRow>, ReadFault>
    requires ready { Q.IsReady conn.old }
    ensures reads { Reads Q.IsReady Q.place Q.below Q.shows conn.old conn.new }
    ensures found { Finds (IsNewestOf name.now) Q.shows conn.old conn.new result }
    ensures broken { BreaksUnless RevisionsWithin Q.shows conn.old conn.new result }
{
    let rows = conn.ask(
        "SELECT revision, spec FROM revision WHERE name = ?1 ORDER BY revision DESC LIMIT 1",
        params![name.as_str()],
    )?;
    from_row::first(name, rows.as_slice())
}

/// The revision of the template of that name under that number, if there is one. `Memory` if there
/// is not enough, `Storage` if the database fails, `Broken` if the revision's row is not one that a
/// program can hold.
pub fn revision<Q: Reader>(
    conn: &mut Q,
    name: &Name,
    number: u32,
) -> Result<Option<RevisionRow>, ReadFault>
    requires ready { Q.IsReady conn.old }
    ensures reads { Reads Q.IsReady Q.place Q.below Q.shows conn.old conn.new }
    ensures found { Gives (first_revision name.now number) Q.shows conn.old conn.new result }
    ensures broken { BreaksUnless RevisionsWithin Q.shows conn.old conn.new result }
{
    let rows = revision_shown(conn, name, number)?;
    from_row::first(name, rows.as_slice())
}

/// The rows of that revision of the template, of which a desk writes one at most. `Memory` if there
/// is not enough, `Storage` if the database fails, `Broken` if a program cannot hold one of them.
pub fn revision_rows<Q: Reader>(
    conn: &mut Q,
    alloc: Global,
    name: &Name,
    number: u32,
) -> Result<Listed<RevisionRow>, ReadFault>
    requires ready { Q.IsReady conn.old }
    ensures reads { Reads Q.IsReady Q.place Q.below Q.shows conn.old conn.new }
    ensures found { Gives (revision_of name.now number) Q.shows conn.old conn.new result }
    ensures broken { BreaksUnless RevisionsWithin Q.shows conn.old conn.new result }
{
    let rows = revision_shown(conn, name, number)?;
    from_row::all(alloc, name, rows.as_slice())
}

// What is shown of the revision's rows, after the template's name.
fn revision_shown<Q: Reader>(conn: &mut Q, name: &Name, number: u32) -> Result<Vec<Row>, StoreFault>
    requires ready { Q.IsReady conn.old }
    ensures reads { Reads Q.IsReady Q.place Q.below Q.shows conn.old conn.new }
    ensures found { Finds (λ t rows. TellsCells revision_cells (λ row. Words name.now ∷ row)
        (revision_of name.now number t) rows.items) Q.shows conn.old conn.new result }
{
    conn.ask(
        "SELECT revision, spec FROM revision WHERE name = ?1 AND revision = ?2 ORDER BY rowid",
        params![name.as_str(), number],
    )
}

/// The service of that name, if there is one. `Memory` if there is not enough, `Storage` if the
/// database fails, `Broken` if the service's row is not one that a program can hold.
pub fn service<Q: Reader>(conn: &mut Q, name: &Name) -> Result<Option<ServiceRow>, ReadFault>
    requires ready { Q.IsReady conn.old }
    ensures reads { Reads Q.IsReady Q.place Q.below Q.shows conn.old conn.new }
    ensures found { Gives (first_service name.now) Q.shows conn.old conn.new result }
    ensures broken { BreaksUnless ServicesWithin Q.shows conn.old conn.new result }
{
    let rows = service_shown(conn, name)?;
    from_row::first(name, rows.as_slice())
}

/// The rows of the service, of which a desk writes one at most. `Memory` if there is not enough,
/// `Storage` if the database fails, `Broken` if a program cannot hold one of them.
pub fn service_rows<Q: Reader>(
    conn: &mut Q,
    alloc: Global,
    name: &Name,
) -> Result<Listed<ServiceRow>, ReadFault>
    requires ready { Q.IsReady conn.old }
    ensures reads { Reads Q.IsReady Q.place Q.below Q.shows conn.old conn.new }
    ensures found { Gives (service_of name.now) Q.shows conn.old conn.new result }
    ensures broken { BreaksUnless ServicesWithin Q.shows conn.old conn.new result }
{
    let rows = service_shown(conn, name)?;
    from_row::all(alloc, name, rows.as_slice())
}

// What is shown of the service's rows, after its name.
fn service_shown<Q: Reader>(conn: &mut Q, name: &Name) -> Result<Vec<Row>, StoreFault>
    requires ready { Q.IsReady conn.old }
    ensures reads { Reads Q.IsReady Q.place Q.below Q.shows conn.old conn.new }
    ensures found { Finds (λ t rows. TellsCells service_cells (λ row. Words name.now ∷ row)
        (service_of name.now t) rows.items) Q.shows conn.old conn.new result }
{
    conn.ask(
        "SELECT spec, stable, version, state, step, entered, hold, background, runs, last \
         FROM service WHERE name = ?1 ORDER BY rowid",
        params![name.as_str()],
    )
}

/// The revisions of templates to which that run of the service is bound, in the order in which they
/// were added; those of its present attempt under run 0. `Memory` if there is not enough, `Storage`
/// if the database fails, `Broken` if a row is not one that a program can hold.
pub fn bindings<Q: Reader>(
    conn: &mut Q,
    alloc: Global,
    service: &Name,
    run: u32,
) -> Result<Listed<BindingRow>, ReadFault>
    requires ready { Q.IsReady conn.old }
    ensures reads { Reads Q.IsReady Q.place Q.below Q.shows conn.old conn.new }
    ensures found { Gives (bindings_of service.now run) Q.shows conn.old conn.new result }
    ensures broken { BreaksUnless BindingsWithin Q.shows conn.old conn.new result }
{
    let rows = conn.ask(
        "SELECT run, template, revision FROM binding \
         WHERE service = ?1 AND run = ?2 ORDER BY rowid",
        params![service.as_str(), run],
    )?;
    from_row::all(alloc, service, rows.as_slice())
}

/// Whether the service's present attempt is bound to a revision of any template. `Memory` if there
/// is not enough, `Storage` if the database fails; never `Broken`.
pub fn has_bindings<Q: Reader>(conn: &mut Q, service: &Name) -> Result<bool, ReadFault>
    requires ready { Q.IsReady conn.old }
    ensures reads { Reads Q.IsReady Q.place Q.below Q.shows conn.old conn.new }
    ensures found { Gives (is_attempt_bound service.now) Q.shows conn.old conn.new result }
    ensures whole { result ≢ Err ReadFault.Broken }
{
    let rows = conn.ask(
        "SELECT template FROM binding WHERE service = ?1 AND run = 0 ORDER BY rowid",
        params![service.as_str()],
    )?;
    Ok(!rows.is_empty())
}
