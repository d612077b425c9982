//! Why the desk refuses what a manifest, or the body of a request, itself holds.
//!
//! A strategy is checked and bound as the desk does it, among templates that stand in for those
//! that it names: each has one metric, of the template's own name.
ghost use Rattle.std.specs.Prelude.{◌≡◌, IfOk, None, is_none};
ghost use Rattle.canary_plan.specs.Plans.{template_of};
ghost use Rattle.canary_plan.specs.PlanRefusals.{template_refusal, bound_refusal};
ghost use Rattle.std.specs.FinMap as map;
ghost use Rattle.canary_plan.specs.Commands.{names_looked_up};
ghost use Rattle.canary_check.specs.Taken.{plain_metric, stand_in, with_stand_ins};
ghost use Rattle.canary_check.specs.Taken.{refusal_on, refusal_among, is_command_taken};
ghost use Rattle.canary_check.specs.Taken.{is_asked_taken, names_twice, names_metric};
ghost use Rattle.std.specs.List.{list_any};

use canary_base::durations::Seconds;
use canary_base::error::Memory;
use canary_base::lists::Listed;
use canary_base::names::{Label, Name};
use canary_plan::command::Command;
use canary_plan::fault::{BindFault, CheckFault};
use canary_plan::refusal::Refusal;
use canary_plan::report::Entry;
use canary_plan::service::ServiceSpec;
use canary_plan::strategy::Strategy;
use canary_plan::template::Template;
use canary_plan::template_spec::{MetricSpec, TemplateSpec};
use canary_plan::templates::Templates;
use std::alloc::Global;

/// Whether nothing that the command itself holds is refused: of a template, and of a service, also
/// as an attempt begins; no other command comes of a manifest.
pub(crate) fn is_command_taken(alloc: Global, command: &Command) -> Result<bool, Memory>
    ensures { IfOk result (λ taken. taken ≡ is_command_taken command.now) }
{
    match command {
        Command::Template(spec) => Ok(template_refusal(alloc, spec)?.is_none()),
        Command::Service(spec) => is_service_taken(alloc, command, spec),
        _ => Ok(false),
    }
}

/// Whether nothing that the command itself holds is refused: of a template and of a service as
/// above, and of a report that no two entries name one metric. Of any other command nothing is.
pub(crate) fn is_asked_taken(alloc: Global, command: &Command) -> Result<bool, Memory>
    ensures { IfOk result (λ taken. taken ≡ is_asked_taken command.now) }
{
    match command {
        Command::Template(_) => is_command_taken(alloc, command),
        Command::Service(_) => is_command_taken(alloc, command),
        Command::Report(report) => Ok(!names_twice(report.entries.as_slice())),
        _ => Ok(true),
    }
}

// Whether two entries name one metric.
fn names_twice(entries: &[Entry]) -> bool
    ensures { result ≡ names_twice entries.now }
{
    for index in 0..entries.len() {
        if names_metric(&entries[index + 1..], entries[index].metric) {
            return true;
        }
    }
    false
}

// Whether one of these entries names that metric.
fn names_metric(entries: &[Entry], name: Label) -> bool
    ensures { result ≡ list_any (names_metric name) entries.now }
{
    entries.iter().any(|entry| entry.metric == name)
}

// The same of the command that registers this service.
fn is_service_taken(alloc: Global, command: &Command, spec: &ServiceSpec) -> Result<bool, Memory>
    ensures { IfOk result (λ taken. taken
        ≡ is_none (refusal_among (names_looked_up None command.now) spec.now)) }
{
    let names = command.names_looked_up(alloc, None)?;
    let refusal = refusal_among(alloc, names.as_slice(), spec)?;
    Ok(refusal.is_none())
}

/// Why a template is refused, whatever its name, or `Memory`.
pub(crate) fn template_refusal(
    alloc: Global,
    spec: &TemplateSpec,
) -> Result<Option<Refusal>, Memory>
    ensures { IfOk result (λ found. found ≡ template_refusal spec.now) }
{
    match Template::bind(alloc, spec, 1) {
        Ok(_) => Ok(None),
        Err(BindFault::Refused(refusal)) => Ok(Some(refusal)),
        Err(BindFault::Memory) => Err(Memory),
    }
}

/// Why a service is refused, or else why no attempt of it can be bound, if the templates of
/// these names are there, with one metric of its own each; or `Memory`.
pub(crate) fn refusal_among(
    alloc: Global,
    names: &[Name],
    spec: &ServiceSpec,
) -> Result<Option<Refusal>, Memory>
    ensures { IfOk result (λ found. found ≡ refusal_among names.now spec.now) }
{
    let known = stand_ins(alloc, names)?;
    refusal_on(alloc, &known, spec)
}

/// Why a service is refused, or else why no attempt of it can be bound, on a desk with these
/// templates; or `Memory`.
pub(crate) fn refusal_on(
    alloc: Global,
    known: &Templates,
    spec: &ServiceSpec,
) -> Result<Option<Refusal>, Memory>
    ensures { IfOk result (λ found. found ≡ refusal_on known.now spec.now) }
{
    match Strategy::check(alloc, spec, known) {
        Ok(strategy) => bound_refusal(alloc, &strategy, known),
        Err(CheckFault::Refused(refusal)) => Ok(Some(refusal)),
        Err(CheckFault::Memory) => Err(Memory),
    }
}

// Why a strategy is not bound to these templates, or `Memory`.
fn bound_refusal(
    alloc: Global,
    strategy: &Strategy,
    known: &Templates,
) -> Result<Option<Refusal>, Memory>
    ensures { IfOk result (λ found. found ≡ bound_refusal (map.get known.now) strategy.now) }
{
    match strategy.bind(alloc, known) {
        Ok(_) => Ok(None),
        Err(CheckFault::Refused(refusal)) => Ok(Some(refusal)),
        Err(CheckFault::Memory) => Err(Memory),
    }
}

// The templates that stand in under these names.
fn stand_ins(alloc: Global, names: &[Name]) -> Result<Templates, Memory>
    ensures { IfOk result (λ known. known ≡ with_stand_ins map.empty names.now) }
{
    let mut known = Templates::new(alloc);
    for name in names {
        let template = stand_in(alloc, *name)?;
        known.insert(*name, template)?;
    }
    Ok(known)
}

// The template that stands in under that name.
fn stand_in(alloc: Global, name: Name) -> Result<Template, Memory>
    ensures { IfOk result (λ template. template ≡ template_of (stand_in name) 1) }
{
    let spec = stand_in_spec(alloc, name)?;
    match Template::bind(alloc, &spec, 1) {
        Ok(template) => Ok(template),
        Err(BindFault::Memory) => Err(Memory),
        Err(BindFault::Refused(_)) => unreachable!(),
    }
}

// The specification of that template: one metric of the same name, and no dry run.
fn stand_in_spec(alloc: Global, name: Name) -> Result<TemplateSpec, Memory>
    ensures { IfOk result (λ spec. spec ≡ stand_in name) }
{
    let metrics = Listed::of(vec![in alloc; plain_metric(label_of(name))]?);
    Ok(TemplateSpec {
        name,
        metrics,
        dry_run: Listed::of(Vec::new(alloc)),
    })
}

// The label with the bytes of a name.
#[tactic(auto, using(crate::proofs::Labels::name_is_label))]
fn label_of(name: Name) -> Label
    ensures { result ≡ name }
{
    Label::read(name.as_bytes()).unwrap()
}

/// A metric with nothing but a name.
pub(crate) fn plain_metric(name: Label) -> MetricSpec
    ensures { result ≡ plain_metric name }
{
    MetricSpec {
        name,
        success: None,
        failure: None,
        interval: None,
        initial_delay: Seconds::new(0).unwrap(),
        count: None,
        pass_after: None,
        failure_limit: 0,
        inconclusive_limit: 0,
        consecutive_error_limit: 4,
    }
}
