//! The templates to which the runs of a service are bound, by rows of binding. Run 0 stands for the
//! service's present attempt.
ghost use Rattle.std.specs.Prelude.{◌≡◌, ◌↔◌, false, ℕ, List, Option, IsTrue, IfOk, length};
ghost use Rattle.std.specs.Prelude.{option_map};
ghost use Rattle.std.specs.FinMap.{get};
ghost use Rattle.canary_plan.specs.Plans.{distinct};
ghost use Rattle.canary_tables_rows.specs.Limits.{AreWithin};
ghost use Rattle.canary_tables_read.specs.Breaks.{BreaksUnless};
ghost use Rattle.canary_tables_read.specs.Finds.{Finds};
ghost use Rattle.canary_tables_adopt.specs.OfService.{HasSuch};
ghost use Rattle.canary_tables_adopt.specs.OneService.{RefusesJudged};
ghost use Rattle.canary_tables_adopt.specs.Bindings.{IsTemplateOf, IsKnownBy, IsKnownIn, IsBindingOf};
ghost use Rattle.canary_tables_adopt.specs.Bindings.{IsBoundWhole, IsAttemptBound};
ghost use Rattle.canary_tables_adopt.specs.Templates.{IsReadAs};
ghost use Rattle.canary_tables_read.specs.Reader.{Reads};

use canary_base::error::Memory;
use canary_base::names::Name;
use canary_plan::analysis_parts::{Revision, distinct};
use canary_plan::bound::Bound;
use canary_plan::strategy::Strategy;
use canary_plan::template::Template;
use canary_plan::templates::Templates;
use canary_tables_contents::fault::RowFault;
use canary_tables_contents::{judged_laws as judged, reading};
use canary_tables_read::fault::ReadFault;
use canary_tables_read::reader::Reader;
use canary_tables_read::services;
use canary_tables_rows::rows::{BindingRow, RevisionRow};
use std::alloc::Global;

/// What rows of binding make of a service's strategy, and how many they are.
#[derive(Drop)]
pub(crate) struct Binding {
    pub bound: Bound,
    pub rows: u64,
}

/// The templates to which a run of the service is bound, or its present attempt (0); none if one of
/// its rows of binding names a revision that is not there, or that is read as no accepted template.
///
/// # Errors
/// `Broken` if the tables hold what no program can, `Memory` if there is not enough, `Storage` if
/// the database fails.
pub fn bound_templates<Q: Reader>(
    conn: &mut Q,
    alloc: Global,
    service: &Name,
    run: u32,
) -> Result<Option<Templates>, ReadFault>
    requires ready { Q.IsReady conn.old }
    ensures reads { Reads Q.IsReady Q.place Q.below Q.shows conn.old conn.new }
    ensures found { Finds (λ t found. IsKnownIn service.now run t (option_map get found))
        Q.shows conn.old conn.new result }
    ensures broken { BreaksUnless AreWithin Q.shows conn.old conn.new result }
{
    let rows = services::bindings(conn, alloc, service, run)?;
    known_by(conn, alloc, rows.as_slice())
}

// The templates that these rows name, each the first of its name.
fn known_by<Q: Reader>(
    conn: &mut Q,
    alloc: Global,
    rows: &[BindingRow],
) -> Result<Option<Templates>, ReadFault>
    requires ready { Q.IsReady conn.old }
    ensures reads { Reads Q.IsReady Q.place Q.below Q.shows conn.old conn.new }
    ensures found { Finds (λ t found. IsKnownBy rows.now t (option_map get found))
        Q.shows conn.old conn.new result }
    ensures broken { BreaksUnless AreWithin Q.shows conn.old conn.new result }
{
    let mut known = Templates::new(alloc);
    for row in rows {
        if known.get(row.template).is_none() {
            let Some(template) = template_of(conn, alloc, row)? else {
                return Ok(None);
            };
            known.insert(row.template, template)?;
        }
    }
    Ok(Some(known))
}

/// The template of the revision that the row names; none if it names none that is there, or that is
/// read as an accepted template.
///
/// # Errors
/// `Broken` if the tables hold what no program can, `Memory` if there is not enough, `Storage` if
/// the database fails.
pub(crate) fn template_of<Q: Reader>(
    conn: &mut Q,
    alloc: Global,
    row: &BindingRow,
) -> Result<Option<Template>, ReadFault>
    requires ready { Q.IsReady conn.old }
    ensures reads { Reads Q.IsReady Q.place Q.below Q.shows conn.old conn.new }
    ensures found { Finds (IsTemplateOf row.now) Q.shows conn.old conn.new result }
    ensures broken { BreaksUnless AreWithin Q.shows conn.old conn.new result }
{
    let Some(found) = services::revision(conn, &row.template, row.revision)? else {
        return Ok(None);
    };
    Ok(template_in(alloc, &found)?)
}

// The template of that row; none if it is read as no accepted template.
fn template_in(alloc: Global, row: &RevisionRow) -> Result<Option<Template>, Memory>
    ensures { IfOk result (IsReadAs row.now) }
{
    match reading::revision(alloc, row) {
        Ok(template) => Ok(Some(template)),
        Err(RowFault::Broken) => Ok(None),
        Err(RowFault::Memory) => Err(Memory),
    }
}

/// What the present attempt of the service of that strategy is bound to, which has no rows of
/// binding but for the templates of its analyses.
///
/// # Errors
/// `Broken` if it has others, or the tables hold what no program can; `Memory` if there is not
/// enough, `Storage` if the database fails.
pub(crate) fn attempt<Q: Reader>(
    conn: &mut Q,
    alloc: Global,
    service: &Name,
    strategy: &Strategy,
) -> Result<Bound, ReadFault>
    requires ready { Q.IsReady conn.old }
    ensures reads { Reads Q.IsReady Q.place Q.below Q.shows conn.old conn.new }
    ensures found { Finds (IsAttemptBound service.now strategy.now)
        Q.shows conn.old conn.new result }
    ensures broken { RefusesJudged (HasSuch (IsAttemptBound service.now strategy.now))
        (Q.shows conn.old) (Q.shows conn.new) result }
{
    judged::bindings();
    let binding = bound(conn, alloc, service, strategy)?;
    let revisions = binding.bound.revisions(alloc)?;
    if are_all(alloc, revisions.as_slice(), binding.rows)? {
        Ok(binding.bound)
    } else {
        Err(ReadFault::Broken)
    }
}

// What the rows of binding of the present attempt make of the strategy.
fn bound<Q: Reader>(
    conn: &mut Q,
    alloc: Global,
    service: &Name,
    strategy: &Strategy,
) -> Result<Binding, ReadFault>
    requires ready { Q.IsReady conn.old }
    ensures reads { Reads Q.IsReady Q.place Q.below Q.shows conn.old conn.new }
    ensures found { Finds (IsBindingOf service.now 0 strategy.now)
        Q.shows conn.old conn.new result }
    ensures broken { RefusesJudged (IsBoundWhole service.now 0)
        (Q.shows conn.old) (Q.shows conn.new) result }
{
    let rows = services::bindings(conn, alloc, service, 0)?;
    let Some(known) = known_by(conn, alloc, rows.as_slice())? else {
        return Err(ReadFault::Broken);
    };
    Ok(Binding {
        bound: strategy.bound_to(alloc, &known)?,
        rows: rows.as_slice().len() as u64,
    })
}

/// Whether the templates of these revisions are so many.
///
/// # Errors
/// `Memory`.
pub(crate) fn are_all(alloc: Global, revisions: &[Revision], rows: u64) -> Result<bool, Memory>
    ensures { IfOk result (λ are. IsTrue are ↔ (rows ≡ length (distinct revisions.now))) }
{
    let templates = distinct(alloc, revisions)?;
    Ok(rows == templates.as_slice().len() as u64)
}
