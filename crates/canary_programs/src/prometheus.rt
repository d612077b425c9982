//! Services, and their open runs, in the text format of Prometheus (version 0.0.4:
//! https://prometheus.io/docs/instrumenting/exposition_formats/), as the textfile collector of
//! node_exporter takes it: each family of samples stands together below its two comments, and no
//! sample has a timestamp, which that collector refuses.
//!
//! Between the quotation marks of a label stand names, labels, words and numbers, none of which has
//! a byte that the format escapes there: a backslash, a quotation mark or the end of a line. So no
//! text of a desk gets out of its place.
use canary_base::error::Memory;
use canary_base::moments::Moment;
use canary_base::names::{Label, Name};
use canary_decimal::shown::Shown;
use canary_metric::metric::Metric;
use canary_metric::tally::Tally;
use canary_metric::verdict::is_completed;
use canary_release::runs::OpenRun;
use canary_release::service::Service;
use canary_release::state::Status;
use std::alloc::Global;

const STATUSES: [Status; 4] = [
    Status::Healthy,
    Status::Degraded,
    Status::Paused,
    Status::Progressing,
];

/// The families of samples, each with those of all services that were added.
#[derive(Drop)]
pub(crate) struct Families {
    alloc: Global,
    info: Family,
    status: Family,
    weight: Family,
    step: Family,
    steps: Family,
    held: Family,
    open_runs: Family,
    measurement_late: Family,
    late: Family,
    unmeasured: Family,
}

impl Families {
    /// Those of no service.
    pub(crate) fn new(alloc: Global) -> Families {
        Families {
            alloc,
            info: Family::new(alloc, "service_info", "The versions of a service."),
            status: Family::new(
                alloc,
                "service_status",
                "1 for the status of a service, 0 for each other one.",
            ),
            weight: Family::new(
                alloc,
                "service_weight_percent",
                "The share of requests that the desk asks for the new version, in percent.",
            ),
            step: Family::new(
                alloc,
                "service_step",
                "The present step, from 0; the number of steps at the end.",
            ),
            steps: Family::new(alloc, "service_steps", "How many steps a service has."),
            held: Family::new(
                alloc,
                "service_held",
                "1 if an inconclusive analysis holds the release, else 0.",
            ),
            open_runs: Family::new(alloc, "service_open_runs", "How many runs are open."),
            measurement_late: Family::new(
                alloc,
                "measurement_late_seconds",
                "For how long a metric's next measurement has been due; 0 if it is not yet due.",
            ),
            late: Family::new(
                alloc,
                "service_late_seconds",
                "The largest canary_measurement_late_seconds of a service; 0 if it has none.",
            ),
            unmeasured: Family::new(
                alloc,
                "service_unmeasured_runs",
                "How many runs of the last release that is done ended without a measurement.",
            ),
        }
    }

    /// Adds the samples of a service that was passed to a moment, and of its open runs; and how
    /// many runs of its last release that is done ended without a measurement.
    pub(crate) fn add(&mut self, service: &Service, unmeasured: u64) -> Result<(), Memory> {
        let labels = service_label(self.alloc, service.name())?;
        self.add_labelled(labels.as_str(), service)?;
        self.unmeasured.add(self.alloc, labels.as_str(), unmeasured)
    }

    // Adds the samples of a service with this label, and of its open runs.
    fn add_labelled(&mut self, labels: &str, service: &Service) -> Result<(), Memory> {
        self.add_versions(labels, service)?;
        self.add_status(labels, service.status())?;
        self.add_numbers(labels, service)?;
        self.add_runs(labels, service)
    }

    // Adds the sample of a service that is always 1: its labels say both versions.
    fn add_versions(&mut self, labels: &str, service: &Service) -> Result<(), Memory> {
        let labels = with_versions(self.alloc, labels, service)?;
        self.info.add(self.alloc, labels.as_str(), 1)
    }

    // Adds a sample for each status that there is, so that no series ends when the status changes.
    fn add_status(&mut self, labels: &str, status: Status) -> Result<(), Memory> {
        for other in STATUSES {
            self.add_one_status(labels, other, other == status)?;
        }
        Ok(())
    }

    // Adds the sample of one status: 1 if the service has it, else 0.
    fn add_one_status(&mut self, labels: &str, of: Status, is_so: bool) -> Result<(), Memory> {
        let labels = with_status(self.alloc, labels, of)?;
        self.status
            .add(self.alloc, labels.as_str(), u64::from(is_so))
    }

    // Adds the samples that are one number of a service each, and 1 or 0 for whether it is held.
    fn add_numbers(&mut self, labels: &str, service: &Service) -> Result<(), Memory> {
        let (alloc, steps) = (self.alloc, service.strategy().steps().len() as u64);
        let is_held = service.step_hold() || service.background_hold();
        self.weight.add(alloc, labels, u64::from(service.weight()))?;
        self.step.add(alloc, labels, u64::from(service.step()))?;
        self.steps.add(alloc, labels, steps)?;
        self.held.add(alloc, labels, u64::from(is_held))
    }

    // Adds the samples of the open runs, how many there are, and the largest lateness of them all.
    fn add_runs(&mut self, labels: &str, service: &Service) -> Result<(), Memory> {
        let (alloc, runs) = (self.alloc, service.open_runs());
        for run in runs {
            self.add_run(labels, run, service.last())?;
        }
        self.open_runs.add(alloc, labels, runs.len() as u64)?;
        self.late
            .add(alloc, labels, latest_of(runs, service.last()))
    }

    // Adds a sample for each metric of a run, except for a completed one.
    fn add_run(&mut self, labels: &str, run: &OpenRun, now: Moment) -> Result<(), Memory> {
        for (metric, tally) in run.analysis.metrics().iter().zip(run.tallies.as_slice()) {
            if let Some(late) = late_of(run, metric, tally, now) {
                self.add_late(labels, run, metric.name(), late)?;
            }
        }
        Ok(())
    }

    // Adds the sample of one metric: for how many seconds its next measurement has been due.
    fn add_late(
        &mut self,
        labels: &str,
        run: &OpenRun,
        metric: Label,
        late: u64,
    ) -> Result<(), Memory> {
        let labels = with_metric(self.alloc, labels, run, metric)?;
        self.measurement_late.add(self.alloc, labels.as_str(), late)
    }

    /// The text of all families.
    pub(crate) fn text(&self) -> Result<String, Memory> {
        let mut text = String::new(self.alloc);
        self.add_to(&mut text)?;
        Ok(text)
    }

    // Adds the families to a text, in the order in which they are declared.
    fn add_to(&self, text: &mut String) -> Result<(), Memory> {
        self.info.add_to(self.alloc, text)?;
        self.status.add_to(self.alloc, text)?;
        self.weight.add_to(self.alloc, text)?;
        self.step.add_to(self.alloc, text)?;
        self.steps.add_to(self.alloc, text)?;
        self.held.add_to(self.alloc, text)?;
        self.open_runs.add_to(self.alloc, text)?;
        self.measurement_late.add_to(self.alloc, text)?;
        self.late.add_to(self.alloc, text)?;
        self.unmeasured.add_to(self.alloc, text)
    }
}

/// A family of samples: its name after `canary_`, what it is of, and a line for each sample.
#[derive(Drop)]
struct Family {
    name: &'static str,
    help: &'static str,
    lines: String,
}

impl Family {
    // One without samples.
    fn new(alloc: Global, name: &'static str, help: &'static str) -> Family {
        let lines = String::new(alloc);
        Family { name, help, lines }
    }

    // Adds the sample with these labels.
    fn add(&mut self, alloc: Global, labels: &str, value: u64) -> Result<(), Memory> {
        let name = self.name;
        let line = format!(in alloc; "canary_{name}{{{labels}}} {value}\n")?;
        Ok(self.lines.push_str(line.as_str())?)
    }

    // Adds its comments, and its samples. One without samples has its comments alone.
    fn add_to(&self, alloc: Global, text: &mut String) -> Result<(), Memory> {
        text.push_str(self.comments(alloc)?.as_str())?;
        Ok(text.push_str(self.lines.as_str())?)
    }

    // The two lines above the samples: what the family is of, and that it is a gauge.
    fn comments(&self, alloc: Global) -> Result<String, Memory> {
        let (name, help) = (self.name, self.help);
        Ok(format!(in alloc; "# HELP canary_{name} {help}\n# TYPE canary_{name} gauge\n")?)
    }
}

// The label by which each sample names its service; the others come after it.
fn service_label(alloc: Global, service: Name) -> Result<String, Memory> {
    Ok(format!(in alloc; "service=\"{service}\"")?)
}

// These labels, and after them the version of the last release and the stable one.
fn with_versions(alloc: Global, labels: &str, service: &Service) -> Result<String, Memory> {
    let (version, stable) = (service.version(), service.stable());
    Ok(format!(in alloc; "{labels},version=\"{version}\",stable=\"{stable}\"")?)
}

// These labels, and after them that of a status.
fn with_status(alloc: Global, labels: &str, status: Status) -> Result<String, Memory> {
    let status = status.text();
    Ok(format!(in alloc; "{labels},status=\"{status}\"")?)
}

// The labels of a metric of an open run: no two metrics of a run have one name, so no two series
// are the same. People read `metric`, which is the name without an ending that says how numbers are
// reported; two names may have the same, and so the whole one stands beside it.
fn with_metric(
    alloc: Global,
    labels: &str,
    run: &OpenRun,
    metric: Label,
) -> Result<String, Memory> {
    let labels = with_run(alloc, labels, run)?;
    let shown = Shown::or_whole(metric.as_str()).name;
    Ok(format!(in alloc; "{labels},metric=\"{shown}\",label=\"{metric}\"")?)
}

// These labels, and after them the number of a run and its analysis: a step's, or the background's.
fn with_run(alloc: Global, labels: &str, run: &OpenRun) -> Result<String, Memory> {
    let number = run.number;
    match run.step {
        Some(step) => Ok(format!(in alloc; "{labels},run=\"{number}\",analysis=\"step {step}\"")?),
        None => Ok(format!(in alloc; "{labels},run=\"{number}\",analysis=\"background\"")?),
    }
}

// For how many seconds the next measurement of a metric has been due; none if it wants none.
fn late_of(run: &OpenRun, metric: &Metric, tally: &Tally, now: Moment) -> Option<u64> {
    if is_completed(tally.phase(metric, false)) {
        return None;
    }
    Some(now.get().saturating_sub(tally.due(metric, run.started)))
}

// The largest number of seconds for which a measurement of these runs has been due.
fn latest_of(runs: &[OpenRun], now: Moment) -> u64 {
    let mut latest = 0;
    for run in runs {
        latest = latest.max(latest_of_run(run, now));
    }
    latest
}

// The largest number of seconds for which a measurement of this run has been due, or 0.
fn latest_of_run(run: &OpenRun, now: Moment) -> u64 {
    let mut latest = 0;
    for (metric, tally) in run.analysis.metrics().iter().zip(run.tallies.as_slice()) {
        latest = latest.max(late_of(run, metric, tally, now).unwrap_or(0));
    }
    latest
}
