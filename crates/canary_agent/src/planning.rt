//! What is measured, read from files of manifests.
use crate::files::Files;
use crate::plan::{MetricSource, Plan, PlannedMetric, Served};
use crate::query::ProviderQuery;
use canary_argo_files::reading::{FileReadFault, Manifests, read_files};
use canary_argo_files::translated::{Translated, translate};
use canary_base::durations::Seconds;
use canary_base::error::Memory;
use canary_base::lists::Text;
use canary_base::names::{Label, Name};
use canary_client::outcome::{say, say_lines, say_unread, say_warnings};
use canary_convert::conversion::Converted;
use canary_convert::work::{Made, Planned};
use canary_shown::text::{TextKind, shown};
use serde_json::Value;
use std::alloc::Global;
use std::io::Write;

/// What is measured by these files; none if they are not translated, and then `errors` says why, or
/// else what is warned of. With `has_lines` another program gives what no provider is asked for;
/// else `errors` has a line for each such metric.
///
/// # Errors
/// `Memory` if an allocation was refused.
pub(crate) fn plan_in<F: Write>(
    rt: &HostRuntime,
    files: &Files,
    has_lines: bool,
    errors: &mut F,
) -> Result<Option<Plan>, Memory> {
    let alloc = rt.alloc();
    if !files.faults.is_empty() {
        say_faults(alloc, files.faults.as_slice(), errors)?;
        return Ok(None);
    }
    let names = files.names(alloc)?;
    let mut nothing: &[u8] = &[];
    match read_files(rt, names.as_slice(), &mut nothing) {
        Ok(manifests) => plan_of(alloc, &manifests, has_lines, errors),
        Err(FileReadFault::Memory) => Err(Memory),
        Err(FileReadFault::File(index)) => {
            say_unread(alloc, errors, names.as_slice(), index);
            Ok(None)
        }
    }
}

// Says what of the folders cannot be read.
fn say_faults<F: Write>(alloc: Global, faults: &[String], errors: &mut F) -> Result<(), Memory> {
    for fault in faults {
        let line = shown(alloc, fault.as_str(), TextKind::Line)?;
        say(errors, line.as_str());
    }
    Ok(())
}

// What is measured by these manifests; none if they are not translated, and `errors` says why.
fn plan_of<F: Write>(
    alloc: Global,
    manifests: &Manifests,
    has_lines: bool,
    errors: &mut F,
) -> Result<Option<Plan>, Memory> {
    let translated = translate(alloc, manifests)?;
    if translated.is_found() {
        say_lines(errors, translated.found.lines(alloc, manifests)?.as_str());
        return Ok(None);
    }
    say_warnings(
        errors,
        translated.warnings.lines(alloc, manifests)?.as_str(),
    );
    let Translated { made, .. } = translated;
    Ok(Some(measured_by(alloc, &made, has_lines, errors)?))
}

// What is measured by what the manifests became.
fn measured_by<F: Write>(
    alloc: Global,
    made: &Converted,
    has_lines: bool,
    errors: &mut F,
) -> Result<Plan, Memory> {
    let mut services = Vec::new(alloc);
    for service in &made.services {
        if let Some(name) = Name::read(service.name.as_str().as_bytes()) {
            let metrics = metrics_of(alloc, made, name, has_lines, errors)?;
            services.push(Served { name, metrics })?;
        }
    }
    Ok(Plan { services })
}

// The metrics of one service. One whose label is invalid is left out.
fn metrics_of<F: Write>(
    alloc: Global,
    made: &Converted,
    service: Name,
    has_lines: bool,
    errors: &mut F,
) -> Result<Vec<PlannedMetric>, Memory> {
    let mut metrics = Vec::new(alloc);
    for planned in &made.plan {
        if planned.service.as_str() == service.as_str()
            && let Some(label) = Label::read(planned.label.as_str().as_bytes())
        {
            let interval = interval_of(alloc, made.templates.as_slice(), planned)?;
            let source = source_of(alloc, planned, has_lines, errors)?;
            let name = String::from_str(alloc, planned.metric.as_str())?;
            metrics.push(PlannedMetric {
                label,
                name,
                interval,
                source,
            })?;
        }
    }
    Ok(metrics)
}

// Where what is measured of a metric comes from. If it is another program, and none gives lines, or
// if the provider is not asked, `errors` says so.
fn source_of<F: Write>(
    alloc: Global,
    planned: &Planned,
    has_lines: bool,
    errors: &mut F,
) -> Result<MetricSource, Memory> {
    let why = match ProviderQuery::read(alloc, planned)? {
        Ok(query) => return Ok(MetricSource::Provider(query)),
        Err(why) => why,
    };
    if has_lines {
        return Ok(MetricSource::Lines);
    }
    say(errors, refusal_line(alloc, planned, why)?.as_str());
    Ok(MetricSource::Nowhere)
}

// The line that says why a provider is not asked: SERVICE METRIC, its kind, and why.
fn refusal_line(alloc: Global, planned: &Planned, why: &str) -> Result<String, Memory> {
    let (service, metric) = (planned.service.as_str(), planned.metric.as_str());
    let kind = planned.kind.as_str();
    let line = format!(in alloc; "{service} {metric}: {kind}: {why}")?;
    shown(alloc, line.as_str(), TextKind::Line)
}

// The interval of a metric of the desk's templates.
fn interval_of(
    alloc: Global,
    templates: &[Made],
    planned: &Planned,
) -> Result<Option<u32>, Memory> {
    for template in templates {
        if template.name.as_str() == planned.template.as_str() {
            return interval_in(alloc, template.json.as_str(), planned.label.as_str());
        }
    }
    Ok(None)
}

// The seconds from one measurement to the next, by the JSON of a template and a metric's label.
fn interval_in(alloc: Global, template: &str, label: &str) -> Result<Option<u32>, Memory> {
    match Value::from_str(alloc, template) {
        Ok(value) => Ok(interval_at(&value, label)),
        Err(fault) if fault.is_memory() => Err(Memory),
        Err(_) => Ok(None),
    }
}

// The same in the parsed template; none if the metric or its interval is missing.
fn interval_at(template: &Value, label: &str) -> Option<u32> {
    for metric in template.get("spec")?.get("metrics")?.as_array()?.iter() {
        if metric.get("name").and_then(Value::as_str) == Some(label) {
            let interval = metric.get("interval").and_then(Value::as_str)?;
            return Some(Seconds::read(interval)?.get());
        }
    }
    None
}
