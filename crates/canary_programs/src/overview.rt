//! The services of a desk at a glance, and their open runs.
use crate::json::add_value;
use crate::prometheus::Families;
use crate::table::Table;
use canary_base::error::Memory;
use canary_base::moments::Moment;
use canary_base::names::{Label, Name};
use canary_decimal::shown::Shown;
use canary_metric::metric::Metric;
use canary_metric::tally::Tally;
use canary_metric::verdict::is_completed;
use canary_page::late::is_measurement_late;
use canary_plan::analysis_parts::Revision;
use canary_release::runs::OpenRun;
use canary_release::service::Service;
use std::alloc::Global;

const SERVICE_TITLES: [&str; 7] = [
    "NAME", "STATUS", "STEP", "WEIGHT", "VERSION", "STABLE", "LATE",
];

const RUN_TITLES: [&str; 9] = [
    "RUN",
    "SERVICE",
    "ANALYSIS",
    "TEMPLATES",
    "METRIC",
    "PHASE",
    "COUNTED",
    "PASSES",
    "DUE",
];

// How many cells the bar of a weight has.
const BAR_CELLS: u32 = 10;

/// What the text of an overview is.
#[derive(Clone, Copy, Debug, PartialEq, Eq)]
pub enum OverviewFormat {
    /// Two tables for people: of services, and of their open runs.
    Tables,
    /// A line for each service, which is one JSON value.
    Json,
    /// The text format of Prometheus, version 0.0.4, without timestamps.
    Prometheus,
}

/// An overview of services, and of their open runs.
#[derive(Drop)]
pub struct Overview {
    alloc: Global,
    form: OverviewFormat,
    services: Table,
    runs: Table,
    values: String,
    families: Families,
}

impl Overview {
    /// One of no service.
    ///
    /// # Errors
    /// `Memory` if an allocation was refused.
    pub fn new(alloc: Global, form: OverviewFormat) -> Result<Overview, Memory> {
        let services = Table::new(alloc, &SERVICE_TITLES)?;
        let runs = Table::new(alloc, &RUN_TITLES)?;
        Ok(Overview {
            alloc,
            form,
            services,
            runs,
            values: String::new(alloc),
            families: Families::new(alloc),
        })
    }

    /// Adds a service, passed to a moment, and its open runs. The format of Prometheus also has how
    /// many runs of its last release that is done ended without a measurement.
    ///
    /// # Errors
    /// `Memory` if an allocation was refused; some of its rows may be there then.
    pub fn add(&mut self, service: &Service, now: Moment, unmeasured: u64) -> Result<(), Memory> {
        let passed = service.passed(self.alloc, now)?;
        match self.form {
            OverviewFormat::Tables => self.add_rows(&passed.service),
            OverviewFormat::Json => add_value(self.alloc, &mut self.values, &passed.service),
            OverviewFormat::Prometheus => self.families.add(&passed.service, unmeasured),
        }
    }

    // Adds a service's row to one table, and a row for each metric of its open runs to the other.
    fn add_rows(&mut self, service: &Service) -> Result<(), Memory> {
        self.services.push(service_row(self.alloc, service)?)?;
        for run in service.open_runs() {
            add_run(self.alloc, service, run, &mut self.runs)?;
        }
        Ok(())
    }

    /// Its text. Of two tables, the second one follows an empty line, if it has rows.
    ///
    /// # Errors
    /// `Memory` if an allocation was refused.
    pub fn text(&self) -> Result<String, Memory> {
        match self.form {
            OverviewFormat::Tables => self.tables(),
            OverviewFormat::Json => Ok(String::from_str(self.alloc, self.values.as_str())?),
            OverviewFormat::Prometheus => self.families.text(),
        }
    }

    // The table of services, and after it that of runs, unless this has its heading alone.
    fn tables(&self) -> Result<String, Memory> {
        let text = self.services.text()?;
        if self.runs.has_rows() {
            with_table(text, &self.runs)
        } else {
            Ok(text)
        }
    }
}

// A text, and a table after an empty line.
fn with_table(text: String, table: &Table) -> Result<String, Memory> {
    let mut text = text;
    text.push_str("\n")?;
    text.push_str(table.text()?.as_str())?;
    Ok(text)
}

// The cells of a service.
fn service_row(alloc: Global, service: &Service) -> Result<Vec<String>, Memory> {
    let mut row = Vec::new(alloc);
    add_service_cells(alloc, &mut row, service)?;
    Ok(row)
}

// Adds the cells of a service, in the order of `SERVICE_TITLES`.
fn add_service_cells(
    alloc: Global,
    row: &mut Vec<String>,
    service: &Service,
) -> Result<(), Memory> {
    push_cell(row, copied(alloc, service.name().as_str()))?;
    push_cell(row, copied(alloc, service.status().text()))?;
    push_cell(row, steps_text(alloc, service))?;
    push_cell(row, bar(alloc, service.weight()))?;
    push_cell(row, copied(alloc, service.version().as_str()))?;
    push_cell(row, copied(alloc, service.stable().as_str()))?;
    push_cell(row, late_text(alloc, count_late(service)))
}

// How many measurements of a service are late; `-` if none is.
fn late_text(alloc: Global, count: u64) -> Result<String, Memory> {
    if count == 0 {
        return copied(alloc, "-");
    }
    digits(alloc, count)
}

// How many measurements of the open runs of a service are late, at its last moment.
fn count_late(service: &Service) -> u64 {
    let mut count: u64 = 0;
    for run in service.open_runs() {
        count = count.saturating_add(count_late_of(run, service.last()));
    }
    count
}

// How many measurements of an open run are late.
fn count_late_of(run: &OpenRun, now: Moment) -> u64 {
    let mut count: u64 = 0;
    for (metric, tally) in run.analysis.metrics().iter().zip(run.tallies.as_slice()) {
        if is_measurement_late(metric, tally, run.started, now) {
            count = count.saturating_add(1);
        }
    }
    count
}

// Adds a cell, unless there was no memory for its text.
fn push_cell(row: &mut Vec<String>, made: Result<String, Memory>) -> Result<(), Memory> {
    row.push(made?)?;
    Ok(())
}

// A copy of a text.
fn copied(alloc: Global, text: &str) -> Result<String, Memory> {
    Ok(String::from_str(alloc, text)?)
}

// A number in digits.
fn digits(alloc: Global, number: u64) -> Result<String, Memory> {
    Ok(format!(in alloc; "{number}")?)
}

// The present step of a service, and how many it has.
fn steps_text(alloc: Global, service: &Service) -> Result<String, Memory> {
    let (step, steps) = (service.step(), service.strategy().steps().len());
    Ok(format!(in alloc; "{step}/{steps}")?)
}

// A weight as a bar, of which a cell is full for each ten percent, and in percent.
fn bar(alloc: Global, weight: u32) -> Result<String, Memory> {
    let full = weight / BAR_CELLS;
    let mut text = String::new(alloc);
    for cell in 0..BAR_CELLS {
        text.push_str(if cell < full { "#" } else { "-" })?;
    }
    text.push_str(format!(in alloc; " {weight}%")?.as_str())?;
    Ok(text)
}

// Adds a row for each metric of an open run.
fn add_run(
    alloc: Global,
    service: &Service,
    run: &OpenRun,
    runs: &mut Table,
) -> Result<(), Memory> {
    for (metric, tally) in run.analysis.metrics().iter().zip(run.tallies.as_slice()) {
        runs.push(metric_row(alloc, service, run, metric, tally)?)?;
    }
    Ok(())
}

// The cells of a metric of an open run.
fn metric_row(
    alloc: Global,
    service: &Service,
    run: &OpenRun,
    metric: &Metric,
    tally: &Tally,
) -> Result<Vec<String>, Memory> {
    let mut row = Vec::new(alloc);
    add_run_cells(alloc, &mut row, service.name(), run)?;
    add_metric_cells(alloc, &mut row, metric, tally)?;
    push_cell(
        &mut row,
        due_text(alloc, run, metric, tally, service.last()),
    )?;
    Ok(row)
}

// Adds the first cells of a metric, in the order of `RUN_TITLES`: those of its run.
fn add_run_cells(
    alloc: Global,
    row: &mut Vec<String>,
    service: Name,
    run: &OpenRun,
) -> Result<(), Memory> {
    push_cell(row, digits(alloc, u64::from(run.number)))?;
    push_cell(row, copied(alloc, service.as_str()))?;
    push_cell(row, analysis(alloc, run.step))?;
    push_cell(row, templates_text(alloc, run.analysis.revisions()))
}

// Adds the other cells of a metric, from its name on, but for the last one.
fn add_metric_cells(
    alloc: Global,
    row: &mut Vec<String>,
    metric: &Metric,
    tally: &Tally,
) -> Result<(), Memory> {
    push_cell(row, name_of(alloc, metric.name()))?;
    push_cell(row, copied(alloc, tally.phase(metric, false).text()))?;
    push_cell(row, digits(alloc, u64::from(tally.counted())))?;
    push_cell(row, passes_text(alloc, metric.pass_after(), tally.passes()))
}

// The name of a metric as people read it: its label, without an ending that says how its numbers
// are reported.
fn name_of(alloc: Global, label: Label) -> Result<String, Memory> {
    Ok(String::from_str(alloc, Shown::or_whole(label.as_str()).name)?)
}

// Which analysis a run is of: that of its step, or of the background if it has none.
fn analysis(alloc: Global, step: Option<u32>) -> Result<String, Memory> {
    match step {
        Some(step) => Ok(format!(in alloc; "step {step}")?),
        None => Ok(String::from_str(alloc, "background")?),
    }
}

// The templates of an analysis, each with the number of its revision: `errors@2,latency@1`.
fn templates_text(alloc: Global, revisions: &[Revision]) -> Result<String, Memory> {
    let mut text = String::new(alloc);
    for revision in revisions {
        add_revision(alloc, &mut text, *revision)?;
    }
    Ok(text)
}

// Adds one template with the number of its revision, after a comma if it is not the first.
fn add_revision(alloc: Global, text: &mut String, revision: Revision) -> Result<(), Memory> {
    if !text.is_empty() {
        text.push_str(",")?;
    }
    let (template, number) = (revision.template, revision.number);
    text.push_str(format!(in alloc; "{template}@{number}")?.as_str())?;
    Ok(())
}

// How many successes in a row a metric has, of those that complete it; `-` if it has no
// `passAfter`.
fn passes_text(alloc: Global, wanted: Option<u32>, passes: u32) -> Result<String, Memory> {
    match wanted {
        Some(wanted) => Ok(format!(in alloc; "{passes}/{wanted}")?),
        None => Ok(String::from_str(alloc, "-")?),
    }
}

// When the next measurement of a metric is due, with a word after it if it is late at this moment;
// `-` if the metric wants none.
fn due_text(
    alloc: Global,
    run: &OpenRun,
    metric: &Metric,
    tally: &Tally,
    now: Moment,
) -> Result<String, Memory> {
    let mut text = String::new(alloc);
    match Moment::new(tally.due(metric, run.started)) {
        Some(due) if !is_completed(tally.phase(metric, false)) => due.text(&mut text)?,
        _ => text.push_str("-")?,
    }
    if is_measurement_late(metric, tally, run.started, now) {
        text.push_str(" late")?;
    }
    Ok(text)
}
