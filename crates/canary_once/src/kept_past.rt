//! The past of a service, as a book in memory keeps it.
ghost use Rattle.std.specs.Prelude.{◌≡◌, [], ◌∷◌, List, OnOk, filter, length};
ghost use Rattle.std.specs.Prelude.{vec_len, vec_capacity};
ghost use Rattle.std.specs.Option.{option_copied};
ghost use Rattle.canary_release.specs.declared.effect.Effect.{Effect};
ghost use Rattle.canary_once.specs.Kept.{nothing_kept, keeps, keeps_all, close_in, kept_numbered};
ghost use Rattle.canary_once.specs.KeptRooms.{kept_in, is_opening, is_measurement, is_line};
ghost use Rattle.canary_once.specs.KeptRooms.{HasRoom};

use crate::kept_run::{ClosedRun, KeptRun};
use canary_base::error::Memory;
use canary_base::lists::Listed;
use canary_plan::line::Line;
use canary_release::effect::{Effect, Recorded};
use std::alloc::Global;

/// The runs of a service, by number from 1 on, all its measurements in the order in which they were
/// recorded, and its history.
#[derive(Drop)]
pub(crate) struct KeptPast {
    pub runs: Vec<KeptRun>,
    pub measurements: Vec<Recorded>,
    pub history: Vec<Line>,
}

impl KeptPast {
    /// Nothing, which takes no memory.
    pub(crate) fn new(alloc: Global) -> KeptPast
        ensures { kept_in result ≡ nothing_kept }
    {
        KeptPast {
            runs: Vec::new(alloc),
            measurements: Vec::new(alloc),
            history: Vec::new(alloc),
        }
    }

    /// Takes all room that effects need, or `Memory`. What is kept stays.
    pub(crate) fn reserve(&mut self, effects: &[Effect]) -> Result<(), Memory>
        ensures same { kept_in self.new ≡ kept_in self.old }
        ensures ok { OnOk result (HasRoom self.new effects.now) }
    {
        self.runs.reserve(openings(effects))?;
        self.measurements.reserve(measurements(effects))?;
        self.history.reserve(lines(effects))?;
        Ok(())
    }

    /// Keeps effects for which there is room, one after another.
    pub(crate) fn apply_effects(&mut self, effects: Listed<Effect>)
        requires { HasRoom self.old effects }
        ensures { kept_in self.new ≡ keeps_all (kept_in self.old) effects }
    {
        for effect in effects.into_vec() {
            self.apply_effect(effect);
        }
    }

    // Keeps an effect for which there is room.
    fn apply_effect(&mut self, effect: Effect)
        requires { HasRoom self.old (effect ∷ []) }
        ensures kept { kept_in self.new ≡ keeps (kept_in self.old) effect }
        ensures room { (rest : List Effect) → HasRoom self.old (effect ∷ rest)
            → HasRoom self.new rest }
    {
        match effect {
            Effect::LineAdded(line) => self.history.push_reserved(line),
            Effect::RunOpened(opening) => self.runs.push_reserved(KeptRun {
                opening,
                closed: None,
            }),
            Effect::MeasurementRecorded(recorded) => self.measurements.push_reserved(recorded),
            Effect::RunClosed { closing, tallies } => {
                close(&mut self.runs, ClosedRun { closing, tallies });
            }
        }
    }

    /// The run of that number, if there is one.
    pub(crate) fn run(&self, number: u32) -> Option<&KeptRun>
        ensures { option_copied result ≡ kept_numbered self.now.runs.items number }
    {
        if number == 0 {
            return None;
        }
        self.runs.as_slice().get(number as usize - 1)
    }
}

// Closes the run that a closing names, which is found by its number.
fn close(runs: &mut Vec<KeptRun>, closed: ClosedRun)
    ensures items { runs.new.items ≡ close_in closed runs.old.items }
    ensures len { vec_len runs.new ≡ vec_len runs.old }
    ensures capacity { vec_capacity runs.new ≡ vec_capacity runs.old }
{
    let place = closed.closing.run.saturating_sub(1) as usize;
    if let Some(run) = runs.get_mut(place) {
        run.closed = Some(closed);
    }
}

// How many of the effects open a run: `reserve` takes room for so many runs.
fn openings(effects: &[Effect]) -> usize
    ensures { result ≡ length (filter is_opening effects.now) }
{
    effects.iter().filter(|effect| is_opening(effect)).count()
}

// How many of the effects record a measurement: `reserve` takes room for so many.
fn measurements(effects: &[Effect]) -> usize
    ensures { result ≡ length (filter is_measurement effects.now) }
{
    effects
        .iter()
        .filter(|effect| is_measurement(effect))
        .count()
}

// How many of the effects add a line to the history: `reserve` takes room for so many.
fn lines(effects: &[Effect]) -> usize
    ensures { result ≡ length (filter is_line effects.now) }
{
    effects.iter().filter(|effect| is_line(effect)).count()
}

// Whether the effect opens a run, which adds one to `runs`.
fn is_opening(effect: &Effect) -> bool
    ensures { result ≡ is_opening effect.now }
{
    matches!(effect, Effect::RunOpened(_))
}

// Whether the effect records a measurement, which adds one to `measurements`.
fn is_measurement(effect: &Effect) -> bool
    ensures { result ≡ is_measurement effect.now }
{
    matches!(effect, Effect::MeasurementRecorded(_))
}

// Whether the effect adds a line to `history`.
fn is_line(effect: &Effect) -> bool
    ensures { result ≡ is_line effect.now }
{
    matches!(effect, Effect::LineAdded(_))
}
