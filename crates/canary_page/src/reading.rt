//! What is read of a book.
ghost use Rattle.std.specs.Prelude.{◌≡◌, IfOk, length};
ghost use Rattle.canary_once.specs.Records.{measurements_of};
ghost use Rattle.canary_once.specs.BookCalls.{Stays};
ghost use Rattle.canary_files.specs.Exporting.{recorded_of};

use crate::charts::chart::Chart;
use crate::charts::conditions::{Conditions, conditions_of};
use crate::fault::PageFault;
use crate::shown::{Attempts, ShownRun, ShownService, drawn_attempts, run_numbers};
use canary_base::error::Memory;
use canary_base::moments::Moment;
use canary_base::names::Name;
use canary_base::numbers::Number;
use canary_metric::tally::Tally;
use canary_once::book::Book;
use canary_once::record::RunRecord;
use canary_plan::analysis_parts::Revision;
use canary_plan::line::{Line, LineEvent};
use canary_plan::templates::Templates;
use canary_release::effect::{Effect, Opening, Recorded};
use canary_release::runs::new_tallies;
use canary_release::service::Passed;
use std::alloc::Global;

// How many measurements are read at once.
pub(crate) const MEASUREMENTS_AT_ONCE: u32 = 256;

// The service of this name, passed to a moment; none if there is no such service.
pub(crate) fn passed_of<B: Book>(
    alloc: Global,
    book: &mut B,
    name: &Name,
    now: Moment,
) -> Result<Option<Passed>, PageFault>
    ensures { Stays (B.state book.old) (B.state book.new) }
{
    match book.service(name)? {
        Some(service) => Ok(Some(service.passed(alloc, now)?)),
        None => Ok(None),
    }
}

// The history of a service, with the lines of these effects at its end.
pub(crate) fn lines_of<B: Book>(
    book: &mut B,
    name: &Name,
    effects: &[Effect],
) -> Result<Vec<Line>, PageFault>
    ensures { Stays (B.state book.old) (B.state book.new) }
{
    let lines = book.history(name)?;
    Ok(with_told(lines.into_vec(), effects)?)
}

// The lines, and after them those that the effects add to a history.
fn with_told(lines: Vec<Line>, effects: &[Effect]) -> Result<Vec<Line>, Memory> {
    let mut lines = lines;
    for effect in effects {
        if let Effect::LineAdded(line) = effect {
            push_line(&mut lines, line)?;
        }
    }
    Ok(lines)
}

// Adds a copy of a line to the list.
fn push_line(lines: &mut Vec<Line>, line: &Line) -> Result<(), Memory> {
    let Line { moment, event } = *line;
    push_made(lines, moment, event)
}

// The line is made where it is put into the list.
fn push_made(lines: &mut Vec<Line>, moment: Moment, event: LineEvent) -> Result<(), Memory> {
    lines.push(Line { moment, event })?;
    Ok(())
}

// What is shown of a service that was passed to a moment.
pub(crate) fn shown_of<B: Book>(
    alloc: Global,
    book: &mut B,
    name: &Name,
    passed: Passed,
    now: Moment,
) -> Result<ShownService, PageFault>
    ensures { Stays (B.state book.old) (B.state book.new) }
{
    let now = now.max(passed.service.last());
    let (lines, attempts, runs) = past_of(alloc, book, name, &passed, now)?;
    let Passed { service, .. } = passed;
    Ok(ShownService {
        service,
        now,
        lines,
        attempts,
        runs,
    })
}

// The history of a service that was passed to a moment, the attempts of which runs are drawn, and
// these runs.
fn past_of<B: Book>(
    alloc: Global,
    book: &mut B,
    name: &Name,
    passed: &Passed,
    now: Moment,
) -> Result<(Vec<Line>, Attempts, Vec<ShownRun>), PageFault>
    ensures { Stays (B.state book.old) (B.state book.new) }
{
    let effects = passed.effects.as_slice();
    let lines = lines_of(book, name, effects)?;
    let attempts = drawn_attempts(alloc, passed.service.state(), lines.as_slice(), now)?;
    let runs = runs_of(alloc, book, name, &attempts, effects)?;
    Ok((lines, attempts, runs))
}

// The runs of these attempts, with their measurements.
fn runs_of<B: Book>(
    alloc: Global,
    book: &mut B,
    name: &Name,
    attempts: &Attempts,
    effects: &[Effect],
) -> Result<Vec<ShownRun>, PageFault>
    ensures { Stays (B.state book.old) (B.state book.new) }
{
    let numbers = run_numbers(alloc, attempts)?;
    let mut runs = Vec::new(alloc);
    for number in numbers.as_slice() {
        read_run(alloc, book, name, *number, effects, &mut runs)?;
    }
    if !runs.is_empty() {
        read_measurements(alloc, book, name, &mut runs)?;
    }
    Ok(runs)
}

// The run of that number after these effects; none if there is none.
pub(crate) fn run_of<B: Book>(
    alloc: Global,
    book: &mut B,
    name: &Name,
    number: u32,
    effects: &[Effect],
) -> Result<Option<RunRecord>, PageFault>
    ensures { Stays (B.state book.old) (B.state book.new) }
{
    let Some(asked) = Number::new(number) else {
        return Ok(None);
    };
    let found = book.run(name, asked)?;
    Ok(run_after(alloc, number, found, effects)?)
}

// Adds the run of that number, without its measurements.
fn read_run<B: Book>(
    alloc: Global,
    book: &mut B,
    name: &Name,
    number: u32,
    effects: &[Effect],
    runs: &mut Vec<ShownRun>,
) -> Result<(), PageFault>
    ensures { Stays (B.state book.old) (B.state book.new) }
{
    let Some(record) = run_of(alloc, book, name, number, effects)? else {
        return Ok(());
    };
    let templates = templates_of(alloc, book, record.analysis.revisions())?;
    Ok(push_run(alloc, runs, record, &templates)?)
}

// Adds a run to the list, with conditions by these templates, and with charts without points.
fn push_run(
    alloc: Global,
    runs: &mut Vec<ShownRun>,
    record: RunRecord,
    templates: &Templates,
) -> Result<(), Memory> {
    runs.push(shown_run(alloc, record, templates)?)?;
    Ok(())
}

// The templates of these revisions, as they are now.
pub(crate) fn templates_of<B: Book>(
    alloc: Global,
    book: &mut B,
    revisions: &[Revision],
) -> Result<Templates, PageFault>
    ensures { Stays (B.state book.old) (B.state book.new) }
{
    let names = names_of(alloc, revisions)?;
    Ok(book.templates(names.as_slice())?)
}

// The names of the templates of these revisions, in order.
fn names_of(alloc: Global, revisions: &[Revision]) -> Result<Vec<Name>, Memory> {
    let mut names = Vec::new(alloc);
    for revision in revisions {
        names.push(revision.template)?;
    }
    Ok(names)
}

// A run as it is shown, with its conditions by these templates, before its measurements are read.
fn shown_run(alloc: Global, record: RunRecord, templates: &Templates) -> Result<ShownRun, Memory> {
    let conditions = all_conditions(alloc, &record, templates)?;
    let charts = empty_charts(alloc, record.tallies.as_slice(), conditions.as_slice())?;
    Ok(ShownRun {
        record,
        charts,
        conditions,
    })
}

// A chart for each metric, which has from its tally how many measurements are to come.
fn empty_charts(
    alloc: Global,
    tallies: &[Tally],
    conditions: &[Conditions],
) -> Result<Vec<Chart>, Memory> {
    let mut charts = Vec::new(alloc);
    for (tally, conditions) in tallies.iter().zip(conditions) {
        charts.push(Chart::new(alloc, tally, conditions)?)?;
    }
    Ok(charts)
}

// The conditions of each metric of a run, in order.
fn all_conditions(
    alloc: Global,
    record: &RunRecord,
    templates: &Templates,
) -> Result<Vec<Conditions>, Memory> {
    let revisions = record.analysis.revisions();
    let mut conditions = Vec::new(alloc);
    for metric in record.analysis.metrics() {
        conditions.push(conditions_of(alloc, templates, revisions, metric.name())?)?;
    }
    Ok(conditions)
}

// The run of that number after these effects: one of them may have opened it, or closed it.
fn run_after(
    alloc: Global,
    number: u32,
    found: Option<RunRecord>,
    effects: &[Effect],
) -> Result<Option<RunRecord>, Memory> {
    let mut record = found;
    for effect in effects {
        record = run_then(alloc, number, record, effect)?;
    }
    Ok(record)
}

// The run of that number after one more effect, which may have opened it, or closed it.
fn run_then(
    alloc: Global,
    number: u32,
    found: Option<RunRecord>,
    effect: &Effect,
) -> Result<Option<RunRecord>, Memory> {
    match (effect, found) {
        (Effect::RunOpened(opening), None) if opening.run == number => {
            Ok(Some(opened(alloc, opening)?))
        }
        (Effect::RunClosed { closing, .. }, Some(run)) if closing.run == number => {
            Ok(Some(RunRecord {
                closed: Some(*closing),
                ..run
            }))
        }
        (_, found) => Ok(found),
    }
}

// The record of a run that an effect opens: it is not closed, and has measured nothing.
fn opened(alloc: Global, opening: &Opening) -> Result<RunRecord, Memory> {
    Ok(RunRecord {
        number: opening.run,
        step: opening.step,
        analysis: opening.analysis.copy()?,
        started: opening.started,
        closed: None,
        tallies: new_tallies(alloc, opening.analysis.metrics().len() as u32)?,
    })
}

// Adds the measurements of these runs to their charts, page by page up to an empty one, and says
// how many the service has, of all its runs.
fn read_measurements<B: Book>(
    alloc: Global,
    book: &mut B,
    name: &Name,
    runs: &mut Vec<ShownRun>,
) -> Result<u64, PageFault>
    ensures stays { Stays (B.state book.old) (B.state book.new) }
    ensures all { (B.state book.new).is_honest → IfOk result (λ count.
        count ≡ length (recorded_of (B.state book.old).contents name.now)) }
{
    let mut from = 0;
    for _ in 0..u64::MAX {
        let count = read_page(alloc, book, name, from, runs)?;
        if count == 0 {
            return Ok(from);
        }
        from = count.saturating_add(from);
    }
    // No memory has so many pages.
    Err(PageFault::Memory)
}

// Adds those of one page, and says how many it has.
fn read_page<B: Book>(
    alloc: Global,
    book: &mut B,
    name: &Name,
    from: u64,
    runs: &mut Vec<ShownRun>,
) -> Result<u64, PageFault>
    ensures stays { Stays (B.state book.old) (B.state book.new) }
    ensures page { (B.state book.new).is_honest → IfOk result (λ count.
        count ≡ length (measurements_of (B.state book.old).contents name.now from 256)) }
{
    let page = book.measurements(name, from, MEASUREMENTS_AT_ONCE)?;
    add_all(alloc, page.as_slice(), runs)?;
    Ok(page.as_slice().len() as u64)
}

// Adds each measurement of a page to its chart, if its run is one of these.
fn add_all(alloc: Global, page: &[Recorded], runs: &mut Vec<ShownRun>) -> Result<(), Memory> {
    for recorded in page {
        add_measurement(alloc, recorded, runs)?;
    }
    Ok(())
}

// Adds a measurement to its chart, if its run is one of these.
fn add_measurement(
    alloc: Global,
    recorded: &Recorded,
    runs: &mut Vec<ShownRun>,
) -> Result<(), Memory> {
    let Some(place) = runs
        .as_slice()
        .iter()
        .position(|run| run.record.number == recorded.run)
    else {
        return Ok(());
    };
    let metric = recorded.metric as usize;
    match runs.get_mut(place) {
        Some(run) => match run.charts.get_mut(metric) {
            Some(chart) => chart.add(alloc, recorded),
            None => Ok(()),
        },
        None => Ok(()),
    }
}
