//! Templates in JSON.
ghost use Rattle.std.specs.Prelude.{◌≡◌, IsTrue, IfOk, OnOk, codes};
ghost use Rattle.std.specs.List.{list_all};
ghost use Rattle.serde_json.specs.Data.{string, put};
ghost use Rattle.serde_json.specs.View.{view, members_view};
ghost use Rattle.canary_plan.specs.Limits.{is_dry_run_name};
ghost use Rattle.canary_canonical.specs.Texts.{list_data, metric_data, template_data};
ghost use Rattle.canary_canonical.specs.Laws.{keeps_metric, keeps_template};

use crate::object::{Member, object_of, put_text};
use crate::parts::{dry_run_names, seconds};
use canary_plan::template_spec::{DryRunName, MetricSpec, TemplateSpec};
use serde_json::{Map, Value, push, put};
use std::alloc::{AllocError, Global};

/// The template in JSON.
#[tactic(auto, unfolding(crate::specs::Texts::template_data, crate::specs::Laws::keeps_template))]
pub fn template_value(alloc: Global, template: &TemplateSpec) -> Result<Value, AllocError>
    ensures value { IfOk result (λ value. view value ≡ template_data template.now) }
    ensures kept { IfOk result (λ _. IsTrue (keeps_template template.now)) }
{
    let mut object = Map::new(alloc);
    put_dry_run(&mut object, alloc, template.dry_run.as_slice())?;
    put_metrics(&mut object, alloc, template.metrics.as_slice())?;
    put_text(&mut object, alloc, "name", template.name.as_str())?;
    Ok(Value::Object(object))
}

// Puts the names of the metrics that are dry-run into an object.
fn put_dry_run(
    object: &mut Map<String, Value>,
    alloc: Global,
    names: &[DryRunName],
) -> Result<(), AllocError>
    ensures value { OnOk result (members_view object.new.entries ≡ put (codes "dryRun")
        (list_data string names.now) (members_view object.old.entries)) }
    ensures kept { OnOk result (IsTrue (list_all is_dry_run_name names.now)) }
{
    let value = dry_run_names(alloc, names)?;
    put(object, alloc, "dryRun", value)
}

// Puts the metrics of a template into an object.
fn put_metrics(
    object: &mut Map<String, Value>,
    alloc: Global,
    metrics: &[MetricSpec],
) -> Result<(), AllocError>
    ensures value { OnOk result (members_view object.new.entries ≡ put (codes "metrics")
        (list_data metric_data metrics.now) (members_view object.old.entries)) }
    ensures kept { OnOk result (IsTrue (list_all keeps_metric metrics.now)) }
{
    let value = metric_values(alloc, metrics)?;
    put(object, alloc, "metrics", value)
}

// The metrics of a template in JSON, in order.
fn metric_values(alloc: Global, metrics: &[MetricSpec]) -> Result<Value, AllocError>
    ensures value { IfOk result (λ value. view value ≡ list_data metric_data metrics.now) }
    ensures kept { IfOk result (λ _. IsTrue (list_all keeps_metric metrics.now)) }
{
    let mut values = Vec::new(alloc);
    for metric in metrics {
        push(&mut values, metric_value(alloc, metric)?)?;
    }
    Ok(Value::Array(values))
}

// The metric in JSON, which has the member `passAfter` only if that was given.
#[tactic(auto, unfolding(crate::specs::Objects::with_member, crate::specs::Texts::metric_object))]
fn metric_value(alloc: Global, metric: &MetricSpec) -> Result<Value, AllocError>
    ensures value { IfOk result (λ value. view value ≡ metric_data metric.now) }
    ensures kept { IfOk result (λ _. IsTrue (keeps_metric metric.now)) }
{
    let members = [
        Member::Number("consecutiveErrorLimit", metric.consecutive_error_limit),
        Member::NumberOrNull("count", metric.count),
        Member::TextOrNull("failureCondition", &metric.failure),
        Member::Number("failureLimit", metric.failure_limit),
        Member::Number("inconclusiveLimit", metric.inconclusive_limit),
        Member::Number("initialDelay", metric.initial_delay.get()),
        Member::NumberOrNull("interval", seconds(metric.interval)),
        Member::Text("name", metric.name.as_str()),
        Member::NumberIf("passAfter", metric.pass_after),
        Member::TextOrNull("successCondition", &metric.success),
    ];
    object_of(alloc, &members)
}
