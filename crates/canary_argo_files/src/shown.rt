//! What files of manifests become, as people and programs read it.
use crate::found::push_text;
use crate::reading::Manifests;
use crate::translated::Translated;
use canary_base::error::Memory;
use canary_convert::work::{Made, Planned};
use canary_shown::text::{TextKind, shown};
use serde_json::Value;
use std::alloc::Global;

/// What is found, in lines; or if nothing is, what is made: each template with its metrics and
/// their conditions, each service, and how its metrics are measured. Or `Memory`.
pub fn text_of(
    alloc: Global,
    manifests: &Manifests,
    translated: &Translated,
) -> Result<String, Memory> {
    if translated.is_found() {
        return translated.found.lines(alloc, manifests);
    }
    let mut text = String::new(alloc);
    for template in &translated.made.templates {
        push_template(alloc, &mut text, template)?;
    }
    for service in &translated.made.services {
        write!(text, "service {}\n", service.name.as_str())?;
    }
    for planned in &translated.made.plan {
        push_planned(alloc, &mut text, planned)?;
    }
    Ok(text)
}

// A template, and a line for each of its metrics.
fn push_template(alloc: Global, text: &mut String, made: &Made) -> Result<(), Memory> {
    write!(text, "template {}\n", made.name.as_str())?;
    let manifest = manifest_of(alloc, made)?;
    let metrics = manifest
        .pointer("/spec/metrics")
        .and_then(|list| list.as_array());
    let Some(metrics) = metrics else {
        return Ok(());
    };
    for metric in metrics {
        push_metric(alloc, text, metric)?;
    }
    Ok(())
}

// The value of a manifest; null if its text is no JSON. Or `Memory`.
fn manifest_of(alloc: Global, made: &Made) -> Result<Value, Memory> {
    match Value::from_str(alloc, made.json.as_str()) {
        Ok(value) => Ok(value),
        Err(fault) if fault.is_memory() => Err(Memory),
        Err(_) => Ok(Value::Null),
    }
}

// Appends the name of a metric of the desk's template, and a line for each of its conditions.
fn push_metric(alloc: Global, text: &mut String, metric: &Value) -> Result<(), Memory> {
    let name = metric.get("name").and_then(|name| name.as_str());
    write!(text, "  {}\n", name.unwrap_or(""))?;
    push_condition(alloc, text, "success", metric.get("successCondition"))?;
    push_condition(alloc, text, "failure", metric.get("failureCondition"))
}

// Appends a line for a condition, as that of success or of failure; no line if it is no text.
fn push_condition(
    alloc: Global,
    text: &mut String,
    when: &str,
    condition: Option<&Value>,
) -> Result<(), Memory> {
    let Some(condition) = condition.and_then(|condition| condition.as_str()) else {
        return Ok(());
    };
    let condition = shown(alloc, condition, TextKind::Line)?;
    write!(text, "    {when}: {condition}\n")?;
    Ok(())
}

// Who asks whom for a metric.
fn push_planned(alloc: Global, text: &mut String, planned: &Planned) -> Result<(), Memory> {
    let kind = shown(alloc, planned.kind.as_str(), TextKind::Line)?;
    let (service, label) = (planned.service.as_str(), planned.label.as_str());
    write!(text, "measure {label} of {service} by {kind}\n")?;
    Ok(())
}

/// All in one value in JSON, with `findings`, `notes`, `plan`, `services`, `templates` and
/// `warnings`; or `Memory`.
pub fn json_of(
    alloc: Global,
    manifests: &Manifests,
    translated: &Translated,
) -> Result<String, Memory> {
    let mut out = String::from_str(alloc, "{\"findings\":")?;
    translated.found.push_json(alloc, &mut out, manifests)?;
    out.push_str(",\"notes\":")?;
    translated.notes.push_json(alloc, &mut out, manifests)?;
    out.push_str(",\"plan\":")?;
    push_plan(alloc, &mut out, counted(translated, &translated.made.plan))?;
    out.push_str(",\"services\":")?;
    push_manifests(&mut out, counted(translated, &translated.made.services))?;
    out.push_str(",\"templates\":")?;
    push_manifests(&mut out, counted(translated, &translated.made.templates))?;
    out.push_str(",\"warnings\":")?;
    translated.warnings.push_json(alloc, &mut out, manifests)?;
    out.push_str("}")?;
    let mut line = shown(alloc, out.as_str(), TextKind::Json)?;
    line.push_str("\n")?;
    Ok(line)
}

// What is made, if that counts: nothing, if anything is found.
fn counted<'a, T: Drop>(translated: &Translated, made: &'a Vec<T>) -> &'a [T] {
    if translated.is_found() {
        return &[];
    }
    made.as_slice()
}

// Appends a list of these manifests, each of which is JSON already.
fn push_manifests(out: &mut String, made: &[Made]) -> Result<(), Memory> {
    out.push_str("[")?;
    for (index, manifest) in made.iter().enumerate() {
        if index > 0 {
            out.push_str(",")?;
        }
        out.push_str(manifest.json.as_str())?;
    }
    out.push_str("]")?;
    Ok(())
}

/// The plan as a list in JSON, or `Memory`.
pub fn plan_of(alloc: Global, translated: &Translated) -> Result<String, Memory> {
    let mut out = String::new(alloc);
    push_plan(alloc, &mut out, counted(translated, &translated.made.plan))?;
    Ok(out)
}

// Appends a list in JSON with an object for each metric that an agent measures.
fn push_plan(alloc: Global, out: &mut String, plan: &[Planned]) -> Result<(), Memory> {
    out.push_str("[")?;
    for (index, planned) in plan.iter().enumerate() {
        if index > 0 {
            out.push_str(",")?;
        }
        push_entry(alloc, out, planned)?;
    }
    out.push_str("]")?;
    Ok(())
}

// Appends how a metric is measured, as an object; `late` and `provider` are JSON already.
fn push_entry(alloc: Global, out: &mut String, planned: &Planned) -> Result<(), Memory> {
    out.push_str("{\"kind\":")?;
    push_text(alloc, out, planned.kind.as_str())?;
    out.push_str(",\"label\":")?;
    push_text(alloc, out, planned.label.as_str())?;
    write!(out, ",\"late\":{},\"metric\":", planned.late.as_str())?;
    push_text(alloc, out, planned.metric.as_str())?;
    write!(
        out,
        ",\"provider\":{},\"service\":",
        planned.provider.as_str()
    )?;
    push_text(alloc, out, planned.service.as_str())?;
    out.push_str(",\"template\":")?;
    push_text(alloc, out, planned.template.as_str())?;
    out.push_str("}")?;
    Ok(())
}
