//! The strategy of a service, which templates that are judged accept.
ghost use Rattle.std.specs.Prelude.{◌≡◌, ◌≢◌, false, None, IfOk, Err};
ghost use Rattle.std.specs.FinMap.{get};
ghost use Rattle.canary_plan.specs.Plans.{strategy_of};
ghost use Rattle.canary_plan.specs.PlanRefusals.{analyses, strategy_refusal};
ghost use Rattle.canary_plan.specs.Commands.{all_names};
ghost use Rattle.canary_tables_rows.specs.Tables.{Tables};
ghost use Rattle.canary_tables_rows.specs.Limits.{AreWithin};
ghost use Rattle.canary_tables_schema.specs.Stores.{IsUsable, Stores};
ghost use Rattle.canary_tables_contents.specs.Judged.{AreTemplatesJudged};
ghost use Rattle.canary_tables_read.specs.declared.fault.ReadFault.TheVariants.{Broken, Storage};
ghost use Rattle.canary_tables_adopt.specs.Strategies.{newest_in, known_among, IsStrategyAccepted};
ghost use Rattle.canary_tables_adopt.specs.Strategies.{IsStrategyOf};
ghost use Rattle.canary_tables_read.specs.Reader.{Reads};

use crate::templates;
use canary_base::error::Memory;
use canary_base::lists::Listed;
use canary_base::names::Name;
use canary_plan::command::Command;
use canary_plan::fault::CheckFault;
use canary_plan::service::ServiceSpec;
use canary_plan::strategy::Strategy;
use canary_plan::template::Template;
use canary_plan::templates::Templates;
use canary_tables_contents::judged_laws as judged;
use canary_tables_read::fault::ReadFault;
use canary_tables_read::reader::Reader;
use canary_tables_read::services;
use std::alloc::Global;

/// The strategy of a service that was asked for so, which the newest templates of the tables
/// accept, if these are judged.
///
/// # Errors
/// `Broken` if something refuses the strategy, `Memory` if there is not enough, `Storage` if the
/// database fails.
pub(crate) fn strategy<Q: Reader>(
    conn: &mut Q,
    alloc: Global,
    spec: &ServiceSpec,
) -> Result<Strategy, ReadFault>
    requires ready { Q.IsReady conn.old }
    ensures reads { Reads Q.IsReady Q.place Q.below Q.shows conn.old conn.new }
    ensures found { IsUsable (Q.shows conn.new) → (t : Tables)
        → Stores (Q.shows conn.old) t → AreTemplatesJudged t
        → IfOk result (IsStrategyOf t spec.now) }
    ensures broken { IsUsable (Q.shows conn.new) → (t : Tables)
        → Stores (Q.shows conn.old) t → AreTemplatesJudged t → result ≡ Err Broken
        → AreWithin t → ¬ IsStrategyAccepted t spec.now }
{
    let names = names_of(alloc, spec)?;
    let known = templates_of(conn, alloc, names.as_slice())?;
    checked(alloc, spec, &known)
}

// The templates that it names.
fn names_of(alloc: Global, spec: &ServiceSpec) -> Result<Listed<Name>, Memory>
    ensures { IfOk result (λ names. names ≡ all_names (analyses spec.now)) }
{
    Command::Service(spec.copy(alloc)?).names_looked_up(alloc, None)
}

// Its strategy, which these templates accept.
fn checked(alloc: Global, spec: &ServiceSpec, known: &Templates) -> Result<Strategy, ReadFault>
    ensures strategy { IfOk result (λ strategy. (strategy_refusal (get known.now) spec.now ≡ None)
        × (strategy ≡ strategy_of spec.now)) }
    ensures broken { result ≡ Err Broken → ¬ (strategy_refusal (get known.now) spec.now ≡ None) }
    ensures unasked { result ≢ Err Storage }
{
    match Strategy::check(alloc, spec, known) {
        Ok(strategy) => Ok(strategy),
        Err(CheckFault::Refused(_)) => Err(ReadFault::Broken),
        Err(CheckFault::Memory) => Err(ReadFault::Memory),
    }
}

// The newest revisions of the templates that have one of these names.
fn templates_of<Q: Reader>(
    conn: &mut Q,
    alloc: Global,
    names: &[Name],
) -> Result<Templates, ReadFault>
    requires ready { Q.IsReady conn.old }
    ensures reads { Reads Q.IsReady Q.place Q.below Q.shows conn.old conn.new }
    ensures found { IsUsable (Q.shows conn.new) → (t : Tables)
        → Stores (Q.shows conn.old) t → AreTemplatesJudged t
        → IfOk result (λ found. get found ≡ known_among (newest_in t) names.now) }
    ensures broken { IsUsable (Q.shows conn.new) → (t : Tables)
        → Stores (Q.shows conn.old) t → AreTemplatesJudged t → result ≡ Err Broken
        → ¬ AreWithin t }
{
    let mut found = Templates::new(alloc);
    for name in names {
        if let Some(template) = template(conn, alloc, name)? {
            found.insert(*name, template)?;
        }
    }
    Ok(found)
}

// The newest revision of the template of that name, if there is one.
fn template<Q: Reader>(
    conn: &mut Q,
    alloc: Global,
    name: &Name,
) -> Result<Option<Template>, ReadFault>
    requires ready { Q.IsReady conn.old }
    ensures reads { Reads Q.IsReady Q.place Q.below Q.shows conn.old conn.new }
    ensures found { IsUsable (Q.shows conn.new) → (t : Tables)
        → Stores (Q.shows conn.old) t → AreTemplatesJudged t
        → IfOk result (λ found. found ≡ newest_in t name.now) }
    ensures broken { IsUsable (Q.shows conn.new) → (t : Tables)
        → Stores (Q.shows conn.old) t → AreTemplatesJudged t → result ≡ Err Broken
        → ¬ AreWithin t }
{
    judged::templates_found();
    let Some(row) = services::newest(conn, name)? else {
        return Ok(None);
    };
    Ok(Some(templates::read(alloc, &row)?))
}
