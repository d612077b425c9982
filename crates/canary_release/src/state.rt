//! How a service stands: its status and its weight.
ghost use Rattle.std.specs.Prelude.{◌≡◌, ◌<◌, length, IfOk, IsSome, None};
ghost use Rattle.std.specs.List.{filter_map, last_or};
ghost use Rattle.canary_release.specs.Services.{is_held, step_of, is_pause, status};
ghost use Rattle.canary_release.specs.Services.{weight, weight_set};
ghost use Rattle.canary_release.specs.Rules.Entering.{begins_background};
ghost use Rattle.canary_release.specs.Rules.Passing.{is_free, leaves_at, next_move, move_by, judged_at};
ghost use Rattle.canary_release.specs.Replies.{status_text};

use canary_base::error::Memory;
use canary_base::moments::Moment;
use canary_base::names::{Label, Name};
use canary_plan::bound::Bound;
use canary_plan::step::Step;
use canary_plan::strategy::Strategy;

/// Whether a release is going on.
#[derive(Clone, Copy, Debug, PartialEq, Eq)]
pub enum ReleaseState {
    InProgress,
    Aborted,
    Done,
}

/// What a release shows.
#[derive(Clone, Copy, Debug, PartialEq, Eq)]
pub enum Status {
    /// The release is done.
    Healthy,
    /// The release is aborted.
    Degraded,
    /// The release is in progress, and held or at a pause.
    Paused,
    /// The release is in progress.
    Progressing,
}

impl Status {
    /// Its word in a reply.
    pub fn text(self) -> &'static str
        ensures { result.now ≡ status_text self }
    {
        match self {
            Status::Healthy => "Healthy",
            Status::Degraded => "Degraded",
            Status::Paused => "Paused",
            Status::Progressing => "Progressing",
        }
    }
}

/// How a service stands.
#[derive(Drop)]
pub struct ServiceState {
    pub name: Name,
    pub strategy: Strategy,
    /// The revisions of templates to which the last attempt is bound, with the metrics of its
    /// analyses; none if no release was begun.
    pub bound: Bound,
    pub stable: Label,
    pub version: Label,
    pub state: ReleaseState,
    /// The present step, from 0; the number of steps at the end.
    pub step: u32,
    /// When the present step was entered.
    pub entered: Moment,
    /// The release is held, since the run of the present step was inconclusive.
    pub step_hold: bool,
    /// The release is held, since the background run was inconclusive.
    pub background_hold: bool,
    /// The background run was opened in the present attempt.
    pub background: bool,
    /// The last moment at which the service was judged.
    pub last: Moment,
}

impl ServiceState {
    /// A copy of it.
    pub fn copy(&self) -> Result<ServiceState, Memory>
        ensures { IfOk result (λ copy. copy ≡ self.now) }
    {
        Ok(ServiceState {
            name: self.name,
            strategy: self.strategy.copy()?,
            bound: self.bound.copy()?,
            stable: self.stable,
            version: self.version,
            state: self.state,
            step: self.step,
            entered: self.entered,
            step_hold: self.step_hold,
            background_hold: self.background_hold,
            background: self.background,
            last: self.last,
        })
    }

    /// Its status.
    pub(crate) fn status(&self) -> Status
        ensures { result ≡ status self.now }
    {
        match self.state {
            ReleaseState::Done => Status::Healthy,
            ReleaseState::Aborted => Status::Degraded,
            ReleaseState::InProgress => {
                if self.is_held() || self.is_at_pause() {
                    Status::Paused
                } else {
                    Status::Progressing
                }
            }
        }
    }

    /// Whether the release is held.
    pub(crate) fn is_held(&self) -> bool
        ensures { result ≡ is_held self.now }
    {
        self.step_hold || self.background_hold
    }

    // Whether the present step is a pause, with an end or without.
    fn is_at_pause(&self) -> bool
        ensures { result ≡ is_pause (step_of self.now) }
    {
        matches!(
            self.strategy.steps().get(self.step as usize),
            Some(Step::Pause(_))
        )
    }

    // Whether the release moves by time.
    fn is_free(&self) -> bool
        ensures { result ≡ is_free self.now }
    {
        self.state == ReleaseState::InProgress && !self.is_held()
    }

    /// The moment at which the present step moves by time, if it does so by that moment.
    pub(crate) fn next_move_by(&self, until: Moment) -> Option<Moment>
        ensures moves { result ≡ move_by until (next_move self.now) }
        ensures on_step { IsSome result → self.now.step < length self.now.strategy.steps }
        ensures room { IsSome result → self.now.step < 64 }
    {
        match self.next_move() {
            Some(moment) if moment <= until.get() => Moment::new(moment),
            _ => None,
        }
    }

    // The second at which the release moves by time, if it does; it may be above every `Moment`.
    fn next_move(&self) -> Option<u64>
        ensures moves { result ≡ next_move self.now }
        ensures on_step { IsSome result → self.now.step < length self.now.strategy.steps }
        ensures room { IsSome result → self.now.step < 64 }
    {
        if self.is_free() {
            self.leaves_at()
        } else {
            None
        }
    }

    // The second at which the present step ends by time, if it does: a weight ends at once.
    fn leaves_at(&self) -> Option<u64>
        ensures moves { result ≡ leaves_at (step_of self.now) self.now.entered }
        ensures on_step { IsSome result → self.now.step < length self.now.strategy.steps }
        ensures room { IsSome result → self.now.step < 64 }
    {
        let steps = self.strategy.steps();
        if self.step as usize >= steps.len() {
            return None;
        }
        match &steps[self.step as usize] {
            Step::SetWeight(_) => Some(self.entered.get()),
            Step::Pause(Some(seconds)) => Some(self.entered.get() + u64::from(seconds.get())),
            Step::Pause(None) => None,
            Step::Analysis(_) => None,
        }
    }

    /// The later of a moment and the last one.
    pub(crate) fn judged_at(&self, now: Moment) -> Moment
        ensures { result ≡ judged_at self.now now }
    {
        let last = self.last;
        if last < now { now } else { last }
    }

    /// Whether the background run begins with that step.
    pub(crate) fn begins_background(&self, step: u32) -> bool
        ensures { result ≡ begins_background self.now.strategy.background step self.now.background }
    {
        match self.strategy.background() {
            Some(background) => background.starting_step.get() <= step && !self.background,
            None => false,
        }
    }

    /// The weight of the new version, in percent.
    pub(crate) fn weight(&self) -> u32
        ensures { result ≡ weight self.now }
    {
        match self.state {
            ReleaseState::Aborted => 0,
            ReleaseState::Done => 100,
            ReleaseState::InProgress => {
                let steps = self.strategy.steps();
                let passed = steps.len().min(self.step as usize + 1);
                last_weight(&steps[..passed]).unwrap_or(0)
            }
        }
    }
}

// The last weight that these steps set.
fn last_weight(steps: &[Step]) -> Option<u32>
    ensures { result ≡ last_or None (filter_map weight_set steps.now) }
{
    let mut last = None;
    for step in steps {
        if let Step::SetWeight(percent) = step {
            last = Some(percent.get());
        }
    }
    last
}
