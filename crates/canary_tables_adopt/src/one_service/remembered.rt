//! The analyses to which the runs of a service are bound. A template is kept once it was asked for,
//! of each the revision that was asked for last, so that runs that are bound alike ask once.
ghost use Rattle.std.specs.Prelude.{◌≡◌, false, ℕ, List, Some, IfOk, IfSome, option_map};
ghost use Rattle.std.specs.FinMap.{get};
ghost use Rattle.canary_tables_rows.specs.Limits.{AreWithin};
ghost use Rattle.canary_tables_read.specs.Breaks.{BreaksUnless};
ghost use Rattle.canary_tables_adopt.specs.Bindings.{IsTemplateOf, IsKnownBy, IsBoundBy, AreBindings};
ghost use Rattle.canary_tables_adopt.specs.Bindings.{IsRunBound};
ghost use Rattle.canary_tables_adopt.specs.OfService.{HasSuch};
ghost use Rattle.canary_tables_adopt.specs.Remembered.{FindsWhere, RefusesWhere, AreRevisions};
ghost use Rattle.canary_tables_adopt.specs.Remembered.{AreBindingsOf};
ghost use Rattle.canary_tables_read.specs.Reader.{Reads};

use crate::bindings::{self, Binding};
use canary_base::error::Memory;
use canary_plan::bound_analysis::BoundAnalysis;
use canary_plan::strategy::Strategy;
use canary_plan::template::Template;
use canary_plan::templates::Templates;
use canary_tables_contents::judged_laws as judged;
use canary_tables_read::fault::ReadFault;
use canary_tables_read::reader::Reader;
use canary_tables_rows::rows::BindingRow;
use std::alloc::Global;

/// The analysis of a run of a service of that strategy, at that step or of the background, by its
/// rows of binding, of which it has no others but for the templates of this analysis.
///
/// # Errors
/// `Broken` if they bind no such analysis, or it has others, or the tables hold what no program
/// can; `Memory` if there is not enough, `Storage` if the database fails.
pub(crate) fn analysis<Q: Reader>(
    conn: &mut Q,
    alloc: Global,
    memo: &mut Templates,
    rows: &[BindingRow],
    strategy: &Strategy,
    step: Option<u32>,
) -> Result<BoundAnalysis, ReadFault>
    requires ready { Q.IsReady conn.old }
    ensures reads { Reads Q.IsReady Q.place Q.below Q.shows conn.old conn.new }
    ensures found { (service : List ℕ) (run : ℕ) → FindsWhere
        (AreBindingsOf service run rows.now memo.old)
        (λ t found. IsRunBound service run strategy.now step t found × AreRevisions memo.new t)
        (Q.shows conn.old) (Q.shows conn.new) result }
    ensures broken { (service : List ℕ) (run : ℕ) → RefusesWhere
        (AreBindingsOf service run rows.now memo.old)
        (HasSuch (IsRunBound service run strategy.now step))
        (Q.shows conn.old) (Q.shows conn.new) result }
{
    judged::bindings();
    let binding = bound(conn, alloc, memo, rows, strategy)?;
    let Some(analysis) = binding.bound.analysis(step) else {
        return Err(ReadFault::Broken);
    };
    if bindings::are_all(alloc, analysis.revisions(), binding.rows)? {
        Ok(analysis.copy()?)
    } else {
        Err(ReadFault::Broken)
    }
}

// What these rows of binding make of the strategy.
fn bound<Q: Reader>(
    conn: &mut Q,
    alloc: Global,
    memo: &mut Templates,
    rows: &[BindingRow],
    strategy: &Strategy,
) -> Result<Binding, ReadFault>
    requires ready { Q.IsReady conn.old }
    ensures reads { Reads Q.IsReady Q.place Q.below Q.shows conn.old conn.new }
    ensures found { FindsWhere (AreRevisions memo.old)
        (λ t found. IsBoundBy rows.now strategy.now t found × AreRevisions memo.new t)
        (Q.shows conn.old) (Q.shows conn.new) result }
    ensures broken { RefusesWhere (AreRevisions memo.old) (λ t. AreBindings t rows.now)
        (Q.shows conn.old) (Q.shows conn.new) result }
{
    let Some(known) = known_by(conn, alloc, memo, rows)? else {
        return Err(ReadFault::Broken);
    };
    Ok(Binding {
        bound: strategy.bound_to(alloc, &known)?,
        rows: rows.len() as u64,
    })
}

// The templates that these rows name, each the first of its name.
fn known_by<Q: Reader>(
    conn: &mut Q,
    alloc: Global,
    memo: &mut Templates,
    rows: &[BindingRow],
) -> Result<Option<Templates>, ReadFault>
    requires ready { Q.IsReady conn.old }
    ensures reads { Reads Q.IsReady Q.place Q.below Q.shows conn.old conn.new }
    ensures found { FindsWhere (AreRevisions memo.old)
        (λ t found. IsKnownBy rows.now t (option_map get found) × AreRevisions memo.new t)
        (Q.shows conn.old) (Q.shows conn.new) result }
    ensures broken { BreaksUnless AreWithin Q.shows conn.old conn.new result }
{
    let mut known = Templates::new(alloc);
    for row in rows {
        if known.get(row.template).is_none() {
            let Some(template) = template_of(conn, alloc, memo, row)? else {
                return Ok(None);
            };
            known.insert(row.template, template)?;
        }
    }
    Ok(Some(known))
}

// The template of the revision that the row names, which is asked for unless it was asked for last.
fn template_of<Q: Reader>(
    conn: &mut Q,
    alloc: Global,
    memo: &mut Templates,
    row: &BindingRow,
) -> Result<Option<Template>, ReadFault>
    requires ready { Q.IsReady conn.old }
    ensures reads { Reads Q.IsReady Q.place Q.below Q.shows conn.old conn.new }
    ensures found { FindsWhere (AreRevisions memo.old)
        (λ t found. IsTemplateOf row.now t found × AreRevisions memo.new t)
        (Q.shows conn.old) (Q.shows conn.new) result }
    ensures broken { BreaksUnless AreWithin Q.shows conn.old conn.new result }
{
    if let Some(template) = kept_in(alloc, memo, row)? {
        return Ok(Some(template));
    }
    let Some(template) = bindings::template_of(conn, alloc, row)? else {
        return Ok(None);
    };
    memo.insert(row.template, template.copy(alloc)?)?;
    Ok(Some(template))
}

// The template that is kept of the revision that the row names, if it is.
fn kept_in(alloc: Global, memo: &Templates, row: &BindingRow) -> Result<Option<Template>, Memory>
    ensures { IfOk result (λ found. IfSome found (λ template.
        (get memo.now row.now.template ≡ Some template)
        × (template.revision ≡ row.now.revision))) }
{
    let Some(template) = memo.get(row.template) else {
        return Ok(None);
    };
    if template.revision() != row.revision {
        return Ok(None);
    }
    Ok(Some(template.copy(alloc)?))
}
