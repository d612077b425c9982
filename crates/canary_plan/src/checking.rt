//! Why a service's strategy is refused, why it is not bound, and the strategy that it asks for.
ghost use Rattle.std.specs.Prelude.{◌≡◌, IfOk, filter_map};
ghost use Rattle.std.specs.List.{list_any, list_all};
ghost use Rattle.std.specs.FinMap.{get};
ghost use Rattle.canary_plan.specs.Plans.{has_unknown, strategy_of, is_within_limits};
ghost use Rattle.canary_plan.specs.Plans.{is_background_within_limits};
ghost use Rattle.canary_plan.specs.PlanRefusals.{names_of_step, analyses_in, analyses};
ghost use Rattle.canary_plan.specs.PlanRefusals.{strategy_refusal, bound_refusal, is_bad_strategy};
ghost use Rattle.canary_plan.specs.PlanRefusals.{repeats_metric, is_endless, is_unfit};

use crate::analysis;
use crate::refusal::Refusal;
use crate::service::{Background, ServiceSpec, copy_background};
use crate::step::{Step, copy_steps};
use crate::strategy::{CheckedStrategy, MAX_STEPS, MAX_WEIGHT, Strategy};
use crate::templates::Templates;
use canary_base::error::Memory;
use canary_base::lists::Listed;
use canary_base::names::Name;
use std::alloc::Global;

/// Why the strategy is refused, if it is.
pub(crate) fn refusal(
    alloc: Global,
    spec: &ServiceSpec,
    known: &Templates,
) -> Result<Option<Refusal>, Memory>
    ensures { IfOk result (λ found. found ≡ strategy_refusal (get known.now) spec.now) }
{
    let in_all = analysis::analyses(alloc, spec.steps.as_slice(), spec.background.as_ref())?;
    Ok(refusal_among(spec, known, in_all.as_slice()))
}

// Why the strategy is refused that has these analyses.
fn refusal_among(spec: &ServiceSpec, known: &Templates, in_all: &[Listed<Name>]) -> Option<Refusal>
    requires { in_all.now ≡ analyses spec.now }
    ensures { result ≡ strategy_refusal (get known.now) spec.now }
{
    if some_has_unknown(known, in_all) {
        return Some(Refusal::UnknownTemplate);
    }
    if is_bad_strategy(spec) {
        return Some(Refusal::BadStrategy);
    }
    None
}

/// Why the strategy is not bound, if it is not.
pub(crate) fn bound_refusal(
    alloc: Global,
    strategy: &Strategy,
    known: &Templates,
) -> Result<Option<Refusal>, Memory>
    ensures { IfOk result (λ found. found ≡ bound_refusal (get known.now) strategy.now) }
{
    let in_steps = analysis::step_analyses(alloc, strategy.steps())?;
    let in_all = analysis::analyses(alloc, strategy.steps(), strategy.background())?;
    bound_refusal_among(
        alloc,
        strategy,
        known,
        in_steps.as_slice(),
        in_all.as_slice(),
    )
}

// Why the strategy is not bound that has these analyses in its steps, and these in all.
fn bound_refusal_among(
    alloc: Global,
    strategy: &Strategy,
    known: &Templates,
    in_steps: &[Listed<Name>],
    in_all: &[Listed<Name>],
) -> Result<Option<Refusal>, Memory>
    requires of_steps { in_steps.now ≡ filter_map names_of_step strategy.now.steps }
    requires of_all { in_all.now ≡ analyses_in strategy.now.steps strategy.now.background }
    ensures { IfOk result (λ found. found ≡ bound_refusal (get known.now) strategy.now) }
{
    if some_repeats_metric(alloc, known, in_all)? {
        return Ok(Some(Refusal::DuplicateMetric));
    }
    if some_is_endless(known, in_steps) {
        return Ok(Some(Refusal::EndlessMetric));
    }
    if some_is_unfit(known, in_all) {
        return Ok(Some(Refusal::BadStrategy));
    }
    Ok(None)
}

// Whether two metrics of one of the analyses have one name, or `Memory`.
fn some_repeats_metric(
    alloc: Global,
    known: &Templates,
    analyses: &[Listed<Name>],
) -> Result<bool, Memory>
    ensures { IfOk result (λ some. some ≡ list_any (repeats_metric (get known.now)) analyses.now) }
{
    for names in analyses {
        if analysis::repeats_metric(alloc, known, names.as_slice())? {
            return Ok(true);
        }
    }
    Ok(false)
}

// Whether one of the analyses names a template that is not known.
fn some_has_unknown(known: &Templates, analyses: &[Listed<Name>]) -> bool
    ensures { result ≡ list_any (has_unknown (get known.now)) analyses.now }
{
    analyses
        .iter()
        .any(|names| analysis::has_unknown(known, names.as_slice()))
}

// Whether one of the analyses has a metric without end, as `analysis::is_endless` says.
fn some_is_endless(known: &Templates, analyses: &[Listed<Name>]) -> bool
    ensures { result ≡ list_any (is_endless (get known.now)) analyses.now }
{
    analyses
        .iter()
        .any(|names| analysis::is_endless(known, names.as_slice()))
}

// Whether one of the analyses is not bound by the known templates.
fn some_is_unfit(known: &Templates, analyses: &[Listed<Name>]) -> bool
    ensures { result ≡ list_any (is_unfit (get known.now)) analyses.now }
{
    analyses.iter().any(|names| is_unfit(known, names))
}

// Whether a template of the analysis is not known, or they do not have 1 to 32 metrics together.
fn is_unfit(known: &Templates, names: &Listed<Name>) -> bool
    ensures { result ≡ is_unfit (get known.now) names.now }
{
    !analysis::binds(known, names.as_slice())
}

// Whether there are more than 64 steps, a weight above 100, or an analysis with no template or more
// than 8.
fn is_bad_strategy(spec: &ServiceSpec) -> bool
    ensures { result ≡ is_bad_strategy spec.now }
{
    let steps = spec.steps.as_slice();
    if steps.len() > MAX_STEPS {
        return true;
    }
    !are_within_limits(steps) || !is_background_within_limits(&spec.background)
}

// Whether no step has a weight above 100, or an analysis with no template or more than 8.
fn are_within_limits(steps: &[Step]) -> bool
    ensures { result ≡ list_all is_within_limits steps.now }
{
    steps.iter().all(is_within_limits)
}

// Whether a weight is at most 100, or an analysis has 1 to 8 templates; a pause has no limit.
fn is_within_limits(step: &Step) -> bool
    ensures { result ≡ is_within_limits step.now }
{
    match step {
        Step::SetWeight(percent) => percent.get() <= MAX_WEIGHT,
        Step::Pause(_) => true,
        Step::Analysis(names) => analysis::are_templates_of_run(names.as_slice()),
    }
}

// Whether there is no background analysis, or it has 1 to 8 templates.
fn is_background_within_limits(background: &Option<Background>) -> bool
    ensures { result ≡ is_background_within_limits background.now }
{
    match background {
        None => true,
        Some(background) => analysis::are_templates_of_run(background.templates.as_slice()),
    }
}

/// The strategy that is asked for.
pub(crate) fn strategy_of(alloc: Global, spec: &ServiceSpec) -> Result<CheckedStrategy, Memory>
    ensures { IfOk result (λ strategy. strategy ≡ strategy_of spec.now) }
{
    Ok(CheckedStrategy {
        steps: copy_steps(alloc, spec.steps.as_slice())?,
        background: copy_background(alloc, &spec.background)?,
    })
}
