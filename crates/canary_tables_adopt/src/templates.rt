//! Templates, revision by revision.
ghost use Rattle.std.specs.Prelude.{◌≡◌, ◌≢◌, ◌↔◌, false, IsTrue, IfOk, OnOk, Err};
ghost use Rattle.std.specs.List.{AllByRecursion};
ghost use Rattle.canary_plan.specs.declared.template.Template.{Template};
ghost use Rattle.canary_tables_contents.specs.Judged.{AreTemplatesJudged};
ghost use Rattle.canary_tables_read.specs.declared.fault.ReadFault.TheVariants.{Broken, Storage};
ghost use Rattle.canary_tables_adopt.specs.Alone.{IsAlone};
ghost use Rattle.canary_tables_adopt.specs.Judges.{FindsThat, RefusesUnless};
ghost use Rattle.canary_tables_adopt.specs.Templates.{IsAccepted, IsAcceptedAs, IsNumbered};
ghost use Rattle.canary_tables_adopt.specs.Templates.{IsJudgedUnder};
ghost use Rattle.canary_tables_read.specs.Reader.{Reads};

use crate::alone;
use crate::fault::read_fault;
use canary_base::lists::Listed;
use canary_base::names::Name;
use canary_plan::template::Template;
use canary_release::decide::MAX_REVISIONS;
use canary_tables_contents::reading;
use canary_tables_read::fault::ReadFault;
use canary_tables_read::lists::{self, RevisionKey};
use canary_tables_read::reader::Reader;
use canary_tables_read::services;
use canary_tables_rows::rows::RevisionRow;
use std::alloc::Global;

/// That each revision stands once, that its row is read as an accepted template of its name, and
/// that the revisions of each name are numbered from 1 on, to 1,000,000 at most, with no gap.
///
/// # Errors
/// `Broken` if that is not so, `Memory` if there is not enough, `Storage` if the database fails.
pub(crate) fn validate<Q: Reader>(conn: &mut Q, alloc: Global) -> Result<(), ReadFault>
    requires ready { Q.IsReady conn.old }
    ensures reads { Reads Q.IsReady Q.place Q.below Q.shows conn.old conn.new }
    ensures judged { FindsThat AreTemplatesJudged Q.shows conn.old conn.new result }
    ensures refused { RefusesUnless AreTemplatesJudged Q.shows conn.old conn.new result }
{
    let keys = lists::revision_keys(conn, alloc)?;
    judge_each(conn, alloc, keys.as_slice())
}

// That `judge_one` accepts each of the keys.
fn judge_each<Q: Reader>(conn: &mut Q, alloc: Global, keys: &[RevisionKey]) -> Result<(), ReadFault>
    requires ready { Q.IsReady conn.old }
    ensures reads { Reads Q.IsReady Q.place Q.below Q.shows conn.old conn.new }
    ensures judged { FindsThat (λ t. AllByRecursion (IsJudgedUnder t) keys.now)
        Q.shows conn.old conn.new result }
    ensures refused { RefusesUnless (λ t. AllByRecursion (IsJudgedUnder t) keys.now)
        Q.shows conn.old conn.new result }
{
    for key in keys {
        judge_one(conn, alloc, key)?;
    }
    Ok(())
}

// That the key has one row of an accepted template, and is revision 1 or follows another one.
fn judge_one<Q: Reader>(conn: &mut Q, alloc: Global, key: &RevisionKey) -> Result<(), ReadFault>
    requires ready { Q.IsReady conn.old }
    ensures reads { Reads Q.IsReady Q.place Q.below Q.shows conn.old conn.new }
    ensures judged { FindsThat (λ t. IsJudgedUnder t key.now) Q.shows conn.old conn.new result }
    ensures refused { RefusesUnless (λ t. IsJudgedUnder t key.now)
        Q.shows conn.old conn.new result }
{
    let rows = services::revision_rows(conn, alloc, &key.name, key.revision)?;
    read_revision(alloc, rows)?;
    judge_number(conn, key)
}

// That there is one row, of an accepted template.
fn read_revision(alloc: Global, rows: Listed<RevisionRow>) -> Result<(), ReadFault>
    ensures judged { OnOk result (IsAlone IsAccepted rows) }
    ensures refused { result ≡ Err Broken → ¬ IsAlone IsAccepted rows }
    ensures unasked { result ≢ Err Storage }
{
    let Some(row) = alone::only(rows) else {
        return Err(ReadFault::Broken);
    };
    let template = read(alloc, &row)?;
    if is_of(&template, &row.name) {
        Ok(())
    } else {
        Err(ReadFault::Broken)
    }
}

// Whether the template itself has this name, which is that of its row.
fn is_of(template: &Template, name: &Name) -> bool
    ensures { IsTrue result ↔ (template.now.spec.name ≡ name.now) }
{
    template.spec.name == *name
}

// That it is one of the numbers of revisions, and follows another revision, or is the first.
fn judge_number<Q: Reader>(conn: &mut Q, key: &RevisionKey) -> Result<(), ReadFault>
    requires ready { Q.IsReady conn.old }
    ensures reads { Reads Q.IsReady Q.place Q.below Q.shows conn.old conn.new }
    ensures judged { FindsThat (λ t. IsNumbered t key.now) Q.shows conn.old conn.new result }
    ensures refused { RefusesUnless (λ t. IsNumbered t key.now) Q.shows conn.old conn.new result }
{
    if key.revision == 0 || key.revision > MAX_REVISIONS {
        return Err(ReadFault::Broken);
    }
    if key.revision == 1 {
        return Ok(());
    }
    match services::revision(conn, &key.name, key.revision - 1)? {
        Some(_) => Ok(()),
        None => Err(ReadFault::Broken),
    }
}

/// The template of a row.
///
/// # Errors
/// `Broken` if the text is not that of a command that adds a template, or if something refuses the
/// template; `Memory`.
pub(crate) fn read(alloc: Global, row: &RevisionRow) -> Result<Template, ReadFault>
    ensures found { IfOk result (IsAcceptedAs row.now) }
    ensures broken { result ≡ Err Broken
        → (template : Template) → ¬ IsAcceptedAs row.now template }
    ensures unasked { result ≢ Err Storage }
{
    match reading::revision(alloc, row) {
        Ok(template) => Ok(template),
        Err(fault) => Err(read_fault(fault)),
    }
}
