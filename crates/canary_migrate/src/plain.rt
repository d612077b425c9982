//! The templates of the first schema, which knew no `passAfter`.
ghost use Rattle.std.specs.Prelude.{◌≡◌, ◌≢◌, List, IsTrue, IfOk, Err};
ghost use Rattle.std.specs.List.{AllByRecursion, list_all};
ghost use Rattle.canary_canonical.specs.Readings.{canonical_in};
ghost use Rattle.canary_tables_schema.specs.Stores.{IsUsable};
ghost use Rattle.canary_tables_read.specs.declared.first.TemplateRow.{TemplateRow as OfTemplate};
ghost use Rattle.canary_tables_read.specs.First.{IsFirst, AreTemplatesIn, IsTemplateWithin};
ghost use Rattle.canary_migrate.specs.FirstContents.{is_plain, is_plain_command, is_plain_row};
ghost use Rattle.canary_tables_read.specs.Reader.{Reads};

use canary_base::error::Memory;
use canary_base::lists::Listed;
use canary_canonical::form::FormFault;
use canary_canonical::reading::from_canonical;
use canary_plan::command::Command;
use canary_plan::template_spec::TemplateSpec;
use canary_tables_read::fault::ReadFault;
use canary_tables_read::first::{self, TemplateRow};
use canary_tables_read::reader::Reader;
use std::alloc::Global;

/// The templates of a database of the first schema, in the order in which they were added.
///
/// # Errors
/// `Broken` if a template is not one that a program can hold, or a metric of it has `passAfter`;
/// `Memory` if there is not enough, `Storage` if the database fails.
pub(crate) fn templates<Q: Reader>(
    conn: &mut Q,
    alloc: Global,
) -> Result<Listed<TemplateRow>, ReadFault>
    requires ready { Q.IsReady conn.old }
    ensures reads { Reads Q.IsReady Q.place Q.below Q.shows conn.old conn.new }
    ensures found { IsUsable (Q.shows conn.new) → IsFirst (Q.shows conn.old).now
        → IfOk result (AreTemplatesIn (Q.shows conn.old).now) }
    ensures only { IsUsable (Q.shows conn.new) → IsFirst (Q.shows conn.old).now
        → (all : List OfTemplate) → AreTemplatesIn (Q.shows conn.old).now all
        → IfOk result (λ found. found ≡ all) }
    ensures plain { IfOk result (λ found. IsTrue (list_all is_plain_row found)) }
    ensures broken { IsUsable (Q.shows conn.new) → IsFirst (Q.shows conn.old).now
        → result ≡ Err ReadFault.Broken → (all : List OfTemplate)
        → AreTemplatesIn (Q.shows conn.old).now all
        → ¬ (AllByRecursion IsTemplateWithin all × IsTrue (list_all is_plain_row all)) }
{
    let rows = first::templates(conn, alloc)?;
    plain(alloc, rows)
}

// These rows, if no metric has `passAfter`.
fn plain(alloc: Global, rows: Listed<TemplateRow>) -> Result<Listed<TemplateRow>, ReadFault>
    ensures same { IfOk result (λ found. found ≡ rows) }
    ensures plain { IfOk result (λ found. IsTrue (list_all is_plain_row found)) }
    ensures broken { result ≡ Err ReadFault.Broken → ¬ IsTrue (list_all is_plain_row rows) }
{
    if are_plain(alloc, rows.as_slice())? {
        Ok(rows)
    } else {
        Err(ReadFault::Broken)
    }
}

// Whether `is_plain_text` holds of the text of each row; or `Memory`.
fn are_plain(alloc: Global, rows: &[TemplateRow]) -> Result<bool, Memory>
    ensures { IfOk result (λ are. are ≡ list_all is_plain_row rows.now) }
{
    for row in rows {
        if !is_plain_text(alloc, row.spec.as_str())? {
            return Ok(false);
        }
    }
    Ok(true)
}

// Whether the text is of no template with `passAfter`.
fn is_plain_text(alloc: Global, text: &str) -> Result<bool, Memory>
    ensures { IfOk result (λ is. is ≡ is_plain_command (canonical_in text.now)) }
{
    match from_canonical(alloc, text) {
        Ok(Command::Template(spec)) => Ok(is_plain(&spec)),
        Ok(_) | Err(FormFault::Unreadable) => Ok(true),
        Err(FormFault::Memory) => Err(Memory),
    }
}

// Whether no metric of the template has a `pass_after`.
fn is_plain(spec: &TemplateSpec) -> bool
    ensures { result ≡ is_plain spec.now }
{
    for metric in spec.metrics.as_slice() {
        if metric.pass_after.is_some() {
            return false;
        }
    }
    true
}
