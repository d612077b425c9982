//! The templates that a command looks up.
ghost use Rattle.std.specs.Prelude.{◌≡◌, ◌++◌, IfOk, filter_map, option_copied};
ghost use Rattle.canary_plan.specs.PlanRefusals.{analyses_in, names_of_step, names_of_background};
ghost use Rattle.canary_plan.specs.Commands.{all_names, names_in, names_looked_up};

use crate::command::Command;
use crate::service::Background;
use crate::step::Step;
use crate::strategy::Strategy;
use canary_base::error::Memory;
use canary_base::lists::Listed;
use canary_base::names::Name;
use std::alloc::Global;

impl Command {
    /// The templates that it looks up, if the service that it names has this strategy: its own,
    /// those of its analyses, or those to which an attempt is bound; or `Memory`.
    pub fn names_looked_up(
        &self,
        alloc: Global,
        strategy: Option<&Strategy>,
    ) -> Result<Listed<Name>, Memory>
        ensures { IfOk result
            (λ names. names ≡ names_looked_up (option_copied strategy.entry) self.now) }
    {
        match self {
            Command::Template(spec) => Ok(Listed::of(vec![in alloc; spec.name]?)),
            Command::Service(spec) => {
                names_of_analyses(alloc, spec.steps.as_slice(), spec.background.as_ref())
            }
            Command::Start { .. } => names_of(alloc, strategy),
            Command::Retry { .. } => names_of(alloc, strategy),
            _ => Ok(Listed::of(Vec::new(alloc))),
        }
    }
}

// The templates of a strategy's analyses, if there is one.
fn names_of(alloc: Global, strategy: Option<&Strategy>) -> Result<Listed<Name>, Memory>
    ensures { IfOk result (λ names. names ≡ names_in (option_copied strategy.entry)) }
{
    match strategy {
        None => Ok(Listed::of(Vec::new(alloc))),
        Some(strategy) => names_of_analyses(alloc, strategy.steps(), strategy.background()),
    }
}

// The templates of the steps' analyses, then of the background's; a name may come several times.
fn names_of_analyses(
    alloc: Global,
    steps: &[Step],
    background: Option<&Background>,
) -> Result<Listed<Name>, Memory>
    ensures { IfOk result (λ names. names
        ≡ all_names (analyses_in steps.now (option_copied background.entry))) }
{
    let names = names_of_steps(alloc, steps)?;
    let names = with_background(names, background)?;
    Ok(Listed::of(names))
}

// The templates of the steps' analyses, in order; a name may come several times.
fn names_of_steps(alloc: Global, steps: &[Step]) -> Result<Vec<Name>, Memory>
    ensures { IfOk result
        (λ names. names.items ≡ all_names (filter_map names_of_step steps.now)) }
{
    let mut names = Vec::new(alloc);
    for step in steps {
        if let Step::Analysis(templates) = step {
            names.extend_from_slice(templates.as_slice())?;
        }
    }
    Ok(names)
}

// The names with those of the background analysis after them.
fn with_background(
    mut names: Vec<Name>,
    background: Option<&Background>,
) -> Result<Vec<Name>, Memory>
    ensures { IfOk result (λ all. all.items
        ≡ names.items ++ all_names (names_of_background (option_copied background.entry))) }
{
    if let Some(background) = background {
        names.extend_from_slice(background.templates.as_slice())?;
    }
    Ok(names)
}
