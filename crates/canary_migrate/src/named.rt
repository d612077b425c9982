//! What a service and its runs are bound to, by the templates that they name.
ghost use Rattle.std.specs.Prelude.{◌≡◌, ℕ, List, IfOk, Some, map};
ghost use Rattle.canary_plan.specs.Commands.{all_names};
ghost use Rattle.canary_plan.specs.PlanRefusals.{analyses};
ghost use Rattle.canary_tables_contents.specs.Values.{binding_row};
ghost use Rattle.canary_migrate.specs.Migrated.{first_of, bindings_to, names_at, run_bindings};

use canary_base::error::Memory;
use canary_base::lists::Listed;
use canary_base::names::Name;
use canary_plan::analysis_parts::{Revision, distinct};
use canary_plan::command::Command;
use canary_plan::service::ServiceSpec;
use canary_plan::step::Step;
use canary_tables_rows::rows::{BindingRow, RunRow};
use std::alloc::Global;

/// What the present attempt of the service of that name is bound to, or `Memory`.
pub(crate) fn attempt_bindings(
    alloc: Global,
    name: Name,
    made: &ServiceSpec,
) -> Result<Listed<BindingRow>, Memory>
    ensures { IfOk result
        (λ rows. rows ≡ bindings_to name 0 (all_names (analyses made.now))) }
{
    let names = Command::Service(made.copy(alloc)?).names_looked_up(alloc, None)?;
    bindings_to(alloc, name, 0, names.as_slice())
}

/// What the run is bound to, of a service that was made so, or `Memory`.
pub(crate) fn bindings_at(
    alloc: Global,
    run: &RunRow,
    made: &ServiceSpec,
) -> Result<Listed<BindingRow>, Memory>
    ensures { IfOk result (λ rows. rows ≡ run_bindings made.now (Some run.now)) }
{
    let names = names_at(alloc, made, run.step)?;
    bindings_to(alloc, run.service, run.number, names.as_slice())
}

// The templates of the analysis at that step, or of the background.
fn names_at(alloc: Global, made: &ServiceSpec, step: Option<u32>) -> Result<Listed<Name>, Memory>
    ensures { IfOk result (λ names. names ≡ names_at made.now step) }
{
    match step {
        None => background_names(alloc, made),
        Some(step) => match made.steps.as_slice().get(step as usize) {
            Some(Step::Analysis(names)) => names.copy(alloc),
            _ => Ok(Listed::of(Vec::new(alloc))),
        },
    }
}

// The templates that the background names; no names if there is no background.
fn background_names(alloc: Global, made: &ServiceSpec) -> Result<Listed<Name>, Memory>
    ensures { IfOk result (λ names. names ≡ names_at made.now None) }
{
    match &made.background {
        None => Ok(Listed::of(Vec::new(alloc))),
        Some(background) => background.templates.copy(alloc),
    }
}

// Rows that bind the run, or attempt 0, to revision 1 of each of these templates; or `Memory`.
fn bindings_to(
    alloc: Global,
    service: Name,
    run: u32,
    names: &[Name],
) -> Result<Listed<BindingRow>, Memory>
    ensures { IfOk result (λ rows. rows ≡ bindings_to service run names.now) }
{
    let named = first_of_each(alloc, names)?;
    let revisions = distinct(alloc, named.as_slice())?;
    rows_of(alloc, service, run, revisions.as_slice())
}

// Revision 1 of the template of each name, in order; or `Memory`.
fn first_of_each(alloc: Global, names: &[Name]) -> Result<Listed<Revision>, Memory>
    ensures { IfOk result (λ revisions. revisions ≡ map first_of names.now) }
{
    let mut revisions = Listed::of(Vec::new(alloc));
    for name in names {
        revisions.push(Revision {
            template: *name,
            number: 1,
        })?;
    }
    Ok(revisions)
}

// A row of the run, or of attempt 0, for each of these revisions, in order; or `Memory`.
fn rows_of(
    alloc: Global,
    service: Name,
    run: u32,
    revisions: &[Revision],
) -> Result<Listed<BindingRow>, Memory>
    ensures { IfOk result (λ rows. rows ≡ map (binding_row service run) revisions.now) }
{
    let mut rows = Listed::of(Vec::new(alloc));
    for revision in revisions {
        rows.push(BindingRow {
            service,
            run,
            template: revision.template,
            revision: revision.number,
        })?;
    }
    Ok(rows)
}
