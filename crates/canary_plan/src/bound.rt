//! Strategies that are bound to revisions of templates.
ghost use Rattle.std.specs.Prelude.{◌≡◌, ◌≤◌, [], ◌∷◌, ◌++◌, map, flat_map, length, IsTrue};
ghost use Rattle.std.specs.Prelude.{Some, None};
ghost use Rattle.std.specs.Prelude.{IfOk, IfSome, MatchOption, option_copied};
ghost use Rattle.std.specs.List.{list_all};
ghost use Rattle.std.specs.FinMap.{get};
ghost use Rattle.canary_plan.specs.Plans.{revisions_in, revisions_named, analysis_of, bound_step};
ghost use Rattle.canary_plan.specs.Plans.{bound_background, analysis_at, metrics_at, is_fit_if};
ghost use Rattle.canary_plan.specs.Plans.{are_fit, analysis_or_none, revisions_if, all_revisions};
ghost use Rattle.canary_plan.specs.Fit.{have_counts};

use crate::analysis;
use crate::analysis_parts::{AnalysisParts, Revision};
use crate::bound_analysis::BoundAnalysis;
use crate::service::Background;
use crate::step::Step;
use crate::templates::Templates;
use canary_base::error::Memory;
use canary_base::lists::Listed;
use canary_base::names::Name;
use canary_metric::metric::Metric;
use std::alloc::Global;
use std::marker::Model;
use std::rc::Rc;

/// The analysis of each step, and that of the background, if they are bound.
#[derive(Drop)]
pub struct BoundParts {
    pub steps: Listed<Option<BoundAnalysis>>,
    pub background: Option<BoundAnalysis>,
}

/// What a strategy is bound to: its analyses, each with 1 to 32 metrics. Its copies share it, so
/// that a copy takes no memory.
#[derive(Drop)]
pub struct Bound {
    parts: Rc<BoundParts>,
}

impl Model for Bound {
    ghost use Rattle.std.specs.Prelude.{IsTrue};
    ghost use Rattle.canary_plan.specs.Plans.{are_fit};
    ghost use Rattle.canary_plan.specs.declared.bound.BoundParts.{BoundParts};
    ghost use Rattle.canary_plan.specs.contracts.bound.BoundParts.{the_row};

    ghost Value = { BoundParts };

    ghost coded = { the_row.coded };

    ghost view = { λ s. s.parts.value };

    ghost invariant = { λ s. IsTrue (are_fit s.parts.value) };
}

impl Bound {
    /// What a strategy is bound to, of these parts.
    pub(crate) fn of(alloc: Global, parts: BoundParts) -> Result<Bound, Memory>
        requires { IsTrue (are_fit parts) }
        ensures { IfOk result (λ bound. bound ≡ parts) }
    {
        let parts = Rc::new(alloc, parts)?;
        Ok(Bound { parts })
    }

    /// A copy of it, which takes no memory; `Memory` if it has as many copies as can be counted.
    pub fn copy(&self) -> Result<Bound, Memory>
        ensures { IfOk result (λ copy. copy ≡ self.now) }
    {
        let parts = self.parts.clone()?;
        Ok(Bound { parts })
    }

    /// The analysis of each step, if it is bound.
    pub fn steps(&self) -> &[Option<BoundAnalysis>]
        ensures value { result.now ≡ self.now.steps }
    {
        self.parts.steps.as_slice()
    }

    /// The analysis at that step, from 0, or the background; none if there is no such analysis,
    /// or it is not bound.
    pub fn analysis(&self, step: Option<u32>) -> Option<&BoundAnalysis>
        ensures value { option_copied result ≡ analysis_at self.now step }
        ensures fit { IsTrue (are_fit self.now) }
    {
        match step {
            Some(step) => self.parts.step_analysis(step),
            None => self.parts.background.as_ref(),
        }
    }

    /// A copy of the analysis at that step, from 0, or of the background, which takes no memory;
    /// one of no templates if there is no such analysis, or it is not bound. `Memory` if it
    /// has as many copies as can be counted, or no memory is left for the one of no templates.
    pub fn analysis_or_none(
        &self,
        alloc: Global,
        step: Option<u32>,
    ) -> Result<BoundAnalysis, Memory>
        ensures { IfOk result (λ analysis. analysis ≡ analysis_or_none self.now step) }
    {
        match self.analysis(step) {
            Some(analysis) => analysis.copy(),
            None => BoundAnalysis::none(alloc),
        }
    }

    /// The revisions of all analyses that are bound, the background's last: one for each time that
    /// its template is named; or `Memory`.
    pub fn revisions(&self, alloc: Global) -> Result<Listed<Revision>, Memory>
        ensures { IfOk result (λ found. found ≡ all_revisions self.now) }
    {
        let found = revisions_of_steps(alloc, self.steps())?;
        with_analysis(found, &self.parts.background)
    }

    /// The metrics of the analysis at that step, from 0, or of the background; none if there is
    /// no such analysis, or it is not bound. 1 to 32.
    pub fn metrics(&self, step: Option<u32>) -> Option<&[Metric]>
        ensures value { option_copied result ≡ metrics_at self.now step }
        ensures limit { IfSome result (λ metrics. (1 ≤ length metrics.now)
            × (length metrics.now ≤ 32)) }
    {
        match self.analysis(step) {
            Some(analysis) => Some(analysis.metrics()),
            None => None,
        }
    }
}

impl BoundParts {
    // The bound analysis at that step, from 0, if there is such a step and it has one.
    fn step_analysis(&self, step: u32) -> Option<&BoundAnalysis>
        ensures { option_copied result ≡ analysis_at self.now (Some step) }
    {
        self.steps.as_slice().get(step as usize)?.as_ref()
    }
}

// The revisions of these analyses, in order.
fn revisions_of_steps(
    alloc: Global,
    steps: &[Option<BoundAnalysis>],
) -> Result<Listed<Revision>, Memory>
    ensures { IfOk result (λ found. found ≡ flat_map revisions_if steps.now) }
{
    let mut found = Listed::of(Vec::new(alloc));
    for analysis in steps {
        found = with_analysis(found, analysis)?;
    }
    Ok(found)
}

// These revisions with those of an analysis after them, if it is bound.
fn with_analysis(
    found: Listed<Revision>,
    analysis: &Option<BoundAnalysis>,
) -> Result<Listed<Revision>, Memory>
    ensures { IfOk result (λ all. all ≡ found ++ revisions_if analysis.now) }
{
    match analysis {
        None => Ok(found),
        Some(analysis) => with_revisions(found, analysis.revisions()),
    }
}

// Adds more revisions at the end, in order, or `Memory`.
fn with_revisions(
    mut found: Listed<Revision>,
    more: &[Revision],
) -> Result<Listed<Revision>, Memory>
    ensures { IfOk result (λ all. all ≡ found ++ more.now) }
{
    for revision in more {
        found.push(*revision)?;
    }
    Ok(found)
}

/// The analyses of these steps and this background, bound to the templates that are known.
pub(crate) fn bound_parts(
    alloc: Global,
    steps: &[Step],
    background: Option<&Background>,
    known: &Templates,
) -> Result<BoundParts, Memory>
    ensures steps { IfOk result
        (λ parts. parts.steps ≡ map (bound_step (get known.now)) steps.now) }
    ensures background { IfOk result (λ parts. parts.background
        ≡ bound_background (get known.now) (option_copied background.entry)) }
    ensures fit { IfOk result (λ parts. IsTrue (are_fit parts)) }
{
    Ok(BoundParts {
        steps: bound_steps(alloc, steps, known)?,
        background: bound_background(alloc, background, known)?,
    })
}

// What `bound_step` gives of each step, at the step's place.
fn bound_steps(
    alloc: Global,
    steps: &[Step],
    known: &Templates,
) -> Result<Listed<Option<BoundAnalysis>>, Memory>
    ensures bound { IfOk result (λ found. found ≡ map (bound_step (get known.now)) steps.now) }
    ensures fit { IfOk result (λ found. IsTrue (list_all is_fit_if found)) }
{
    let mut found = Listed::of(Vec::new(alloc));
    for step in steps {
        found.push(bound_step(alloc, step, known)?)?;
    }
    Ok(found)
}

// The step's analysis, if any, bound to the known templates; none if they do not bind it.
fn bound_step(
    alloc: Global,
    step: &Step,
    known: &Templates,
) -> Result<Option<BoundAnalysis>, Memory>
    ensures bound { IfOk result (λ found. found ≡ bound_step (get known.now) step.now) }
    ensures fit { IfOk result (λ found. IsTrue (is_fit_if found)) }
{
    match step {
        Step::SetWeight(_) => Ok(None),
        Step::Pause(_) => Ok(None),
        Step::Analysis(names) => analysis_of(alloc, known, names.as_slice()),
    }
}

// The background analysis, if any, bound to the known templates; none if they do not bind it.
fn bound_background(
    alloc: Global,
    background: Option<&Background>,
    known: &Templates,
) -> Result<Option<BoundAnalysis>, Memory>
    ensures bound { IfOk result (λ found. found
        ≡ bound_background (get known.now) (option_copied background.entry)) }
    ensures fit { IfOk result (λ found. IsTrue (is_fit_if found)) }
{
    match background {
        None => Ok(None),
        Some(background) => analysis_of(alloc, known, background.templates.as_slice()),
    }
}

// The analysis bound to these templates, or none if they do not bind it.
fn analysis_of(
    alloc: Global,
    known: &Templates,
    names: &[Name],
) -> Result<Option<BoundAnalysis>, Memory>
    ensures bound { IfOk result (λ found. found ≡ analysis_of (get known.now) names.now) }
    ensures fit { IfOk result (λ found. IsTrue (is_fit_if found)) }
{
    if !analysis::binds(known, names) {
        return Ok(None);
    }
    let parts = AnalysisParts {
        revisions: revisions_named(alloc, known, names)?,
        metrics: analysis::metrics_named(alloc, known, names)?,
    };
    counts_stand(parts.metrics.as_slice());
    Ok(Some(BoundAnalysis::of(alloc, parts)?))
}

// The revisions of these templates, in order.
fn revisions_named(
    alloc: Global,
    known: &Templates,
    names: &[Name],
) -> Result<Listed<Revision>, Memory>
    ensures { IfOk result
        (λ revisions. revisions ≡ revisions_named (get known.now) names.now) }
{
    let mut revisions = Listed::of(Vec::new(alloc));
    for name in names {
        if let Some(revision) = revision_of(known, *name) {
            revisions.push(revision)?;
        }
    }
    Ok(revisions)
}

// The revision of the template of that name, if it is known.
fn revision_of(known: &Templates, name: Name) -> Option<Revision>
    ensures { MatchOption result
        (revisions_in name (get known.now name) ≡ [])
        (λ revision. revisions_in name (get known.now name) ≡ revision ∷ []) }
{
    match known.get(name) {
        Some(template) => Some(Revision {
            template: name,
            number: template.revision,
        }),
        None => None,
    }
}

// What each metric promises, for all of these: its count and its `passAfter`, if it has them, are
// at least 1.
fn counts_stand(metrics: &[Metric])
    ensures { IsTrue (have_counts metrics.now) }
{
    for metric in metrics {
        let _limits = metric.count();
        let _limits = metric.pass_after();
    }
}
