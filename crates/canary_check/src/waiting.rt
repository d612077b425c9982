//! Whom the steps of a Rollout wait for.
ghost use Rattle.std.specs.Prelude.{◌≡◌, ◌<◌, false, not};
ghost use Rattle.canary_check.specs.Waiting.{waits, sends_some, sends_all, waits_before_all};
ghost use Rattle.canary_check.specs.Waiting.{from_traffic_or, waits_for_nobody};
ghost use Rattle.canary_check.specs.Waiting.{is_command_attended};

use crate::json_place::JsonPlace;
use crate::lines::Lines;
use canary_base::error::Memory;
use canary_plan::command::Command;
use canary_plan::step::Step;
use std::alloc::Global;

const STEPS: &str = "spec.strategy.canary.steps";

// What is wrong if nobody is waited for.
const UNMEASURED: &str = "a version reaches 100 % even if nothing is measured";

/// Warns of the command that registers the Rollout there: of two weights in a row, and last of
/// steps that wait for nobody.
pub(crate) fn warn_of_command(lines: &mut Lines, place: JsonPlace, command: &Command)
    ensures { is_command_attended command.now ≡ false → 0 < lines.new.told }
{
    match command {
        Command::Service(spec) => warn_of_steps(lines, place, spec.steps.as_slice()),
        _ => {}
    }
}

// Warns of each weight directly after another, and last if these steps wait for nobody.
fn warn_of_steps(lines: &mut Lines, place: JsonPlace, steps: &[Step])
    ensures { not (waits_for_nobody steps.now) ≡ false → 0 < lines.new.told }
{
    warn_of_rows(lines, place, steps);
    if waits_for_nobody(steps) {
        warn_of_nobody(lines, place, steps);
    }
}

// Warns of each weight directly after another.
fn warn_of_rows(lines: &mut Lines, place: JsonPlace, steps: &[Step]) {
    let mut last = None;
    for (index, step) in steps.iter().enumerate() {
        let weight = weight_of(step);
        if let (Some(last), Some(_)) = (last, weight) {
            let what = words_on_row(lines.alloc, last);
            lines.warn_made(place.item(STEPS, index), "", what);
        }
        last = weight;
    }
}

// What is warned of a weight directly after that one.
fn words_on_row(alloc: Global, last: u32) -> Result<String, Memory> {
    Ok(format!(in alloc;
        "a setWeight directly after another: \
        no time passes at weight {last}: \
        put a pause or an analysis step between them, or leave the first out"
    )?)
}

// Warns that these steps wait for nobody.
fn warn_of_nobody(lines: &mut Lines, place: JsonPlace, steps: &[Step])
    ensures { 0 < lines.new.told }
{
    let what = why_nobody(lines.alloc, from_traffic_or(steps, steps));
    lines.warn_made(place, STEPS, what);
}

// Why these steps, from the first that sends traffic on, wait for nobody, and what to write.
fn why_nobody(alloc: Global, steps: &[Step]) -> Result<String, Memory> {
    match steps.first().and_then(weight_of) {
        Some(first) if first >= 100 => Ok(format!(in alloc;
            "no step between a weight above 0 and \
            weight {first} waits for anybody: {UNMEASURED}: put a smaller setWeight, \
            and an analysis step, or pause: {{}}, before setWeight {first}"
        )?),
        Some(first) if first > 0 => why_nobody_after(alloc, first, steps),
        _ => Ok(format!(in alloc;
            "no step waits for anybody: {UNMEASURED}: \
            put a setWeight, and an analysis step, or pause: {{}}, after it"
        )?),
    }
}

// The same of these steps, of which the first has that weight.
fn why_nobody_after(alloc: Global, first: u32, steps: &[Step]) -> Result<String, Memory> {
    let mut weights = steps.iter().skip(1).filter_map(weight_of);
    let front = match weights.find(|weight| *weight >= 100) {
        Some(all) => format!(in alloc; "between weight {first} and weight {all}")?,
        None => format!(in alloc; "after weight {first}")?,
    };
    let end = match steps.iter().skip(1).find_map(weight_of) {
        Some(next) => format!(in alloc; "before setWeight {next}")?,
        None => String::from_str(alloc, "at the end")?,
    };
    let (front, end) = (front.as_str(), end.as_str());
    Ok(format!(in alloc;
        "no step {front} waits for anybody: {UNMEASURED}: \
        put an analysis step, or pause: {{}}, {end}"
    )?)
}

// The weight that a step sets, in percent.
fn weight_of(step: &Step) -> Option<u32> {
    match step {
        Step::SetWeight(weight) => Some(weight.get()),
        _ => None,
    }
}

// ---- the rule

// Whether no step waits for anybody between the first weight above 0 and 100 percent.
fn waits_for_nobody(steps: &[Step]) -> bool
    ensures { result ≡ waits_for_nobody steps.now }
{
    !waits_before_all(from_traffic_or(steps, steps))
}

// The steps from the first that sends traffic on, or these others if none does.
fn from_traffic_or<'a>(others: &'a [Step], steps: &'a [Step]) -> &'a [Step]
    ensures { result.now ≡ from_traffic_or others.now steps.now }
{
    for index in 0..steps.len() {
        if sends_some(&steps[index]) {
            return &steps[index..];
        }
    }
    others
}

// Whether a step waits before one sends all traffic.
fn waits_before_all(steps: &[Step]) -> bool
    ensures { result ≡ waits_before_all steps.now }
{
    for step in steps {
        if sends_all(step) {
            return false;
        }
        if waits(step) {
            return true;
        }
    }
    false
}

// Whether it ends only as somebody measures or promotes.
fn waits(step: &Step) -> bool
    ensures { result ≡ waits step.now }
{
    match step {
        Step::SetWeight(_) => false,
        Step::Pause(duration) => duration.is_none(),
        Step::Analysis(_) => true,
    }
}

// Whether it sends traffic to the new version.
fn sends_some(step: &Step) -> bool
    ensures { result ≡ sends_some step.now }
{
    match step {
        Step::SetWeight(weight) => weight.get() > 0,
        _ => false,
    }
}

// Whether it sends all traffic to the new version.
fn sends_all(step: &Step) -> bool
    ensures { result ≡ sends_all step.now }
{
    match step {
        Step::SetWeight(weight) => weight.get() >= 100,
        _ => false,
    }
}
