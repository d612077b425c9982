//! Why a service stands as it does: what holds it, or what its step waits for.
ghost use Rattle.std.specs.Prelude.{◌≡◌, ◌≤◌, IfSome, IsTrue, option_map};
ghost use Rattle.canary_client.specs.Standings.{why_of, why_of_line, why_by, word_of, is_standing};
ghost use Rattle.canary_client.specs.Standings.{meets, ended_at};

use crate::outcome::{ClientExit, Stop};
use canary_base::moments::Moment;
use canary_plan::line::{Line, LineEvent};
use jiff::Timestamp;
use serde_json::Value;
use std::alloc::{AllocError, Global};

// The seconds of a day.
const DAY: u64 = 86_400;

/// The status of a service.
#[derive(Clone, Copy, Debug, PartialEq, Eq)]
pub enum ServiceStatus {
    /// The release is done.
    Healthy,
    /// The attempt was aborted.
    Degraded,
    /// It is held, or at a pause.
    Paused,
    /// It is at an analysis.
    Progressing,
}

impl ServiceStatus {
    // The status of this word.
    fn read(word: &str) -> Option<ServiceStatus> {
        match word {
            "Healthy" => Some(ServiceStatus::Healthy),
            "Degraded" => Some(ServiceStatus::Degraded),
            "Paused" => Some(ServiceStatus::Paused),
            "Progressing" => Some(ServiceStatus::Progressing),
            _ => None,
        }
    }

    // Its word.
    fn word(self) -> &'static str
        ensures { result.now ≡ word_of self }
    {
        match self {
            ServiceStatus::Healthy => "Healthy",
            ServiceStatus::Degraded => "Degraded",
            ServiceStatus::Paused => "Paused",
            ServiceStatus::Progressing => "Progressing",
        }
    }
}

/// Which analysis holds a release, since it is Inconclusive.
#[derive(Clone, Copy, Debug, PartialEq, Eq)]
pub enum Hold {
    /// None does.
    None,
    /// That of its step.
    Step,
    /// The one beside its steps.
    Background,
    /// Both do.
    Both,
}

impl Hold {
    // The hold of this word.
    fn read(word: &str) -> Option<Hold> {
        match word {
            "none" => Some(Hold::None),
            "step" => Some(Hold::Step),
            "background" => Some(Hold::Background),
            "both" => Some(Hold::Both),
            _ => None,
        }
    }
}

/// Why a service stands as it does.
#[derive(Clone, Copy, Debug, PartialEq, Eq)]
pub enum StandingReason {
    /// Its status says all.
    Plain,
    /// This analysis is Inconclusive: somebody has to decide.
    Held(Hold),
    /// It is at a pause without an end: somebody has to promote it.
    Waiting,
    /// It is at a pause of so many seconds, which ends so many seconds after
    /// 1970-01-01T00:00:00Z.
    Pause {
        /// How long the pause is, in seconds.
        seconds: u64,
        /// When it ends, in seconds since 1970-01-01T00:00:00Z.
        until: u64,
    },
    /// The run of its step's analysis is open.
    Analysis {
        /// The number of the run.
        run: u32,
    },
    /// A command aborted it.
    Aborted,
    /// The verdict of this run aborted it.
    AbortedBy {
        /// The number of the run.
        run: u32,
    },
}

impl StandingReason {
    /// Why a service stands so, by its hold and by the last line of its history that says where it
    /// stands.
    pub fn of(hold: Hold, last: Option<Line>) -> StandingReason
        ensures { result ≡ why_of hold last }
    {
        match hold {
            Hold::None => by_line(last),
            Hold::Step => StandingReason::Held(Hold::Step),
            Hold::Background => StandingReason::Held(Hold::Background),
            Hold::Both => StandingReason::Held(Hold::Both),
        }
    }
}

// Why a service is as it is, by the last line that says so; `Plain` without a line.
fn by_line(last: Option<Line>) -> StandingReason
    ensures { result ≡ why_of_line last }
{
    match last {
        Some(line) => by_event(line.moment.get(), line.event),
        None => StandingReason::Plain,
    }
}

// What the event of such a line says of why; its moment is when a pause begins.
fn by_event(moment: u64, event: LineEvent) -> StandingReason
    requires { moment ≤ 253370764799 }
    ensures { result ≡ why_by moment event }
{
    match event {
        LineEvent::PauseEntered { step: _ } => StandingReason::Waiting,
        LineEvent::TimedPauseEntered { step: _, seconds } => {
            let seconds = seconds.get() as u64;
            StandingReason::Pause {
                seconds,
                until: moment + seconds,
            }
        }
        LineEvent::AnalysisEntered { step: _, run } => StandingReason::Analysis { run },
        LineEvent::Aborted => StandingReason::Aborted,
        LineEvent::AbortedBy { run } => StandingReason::AbortedBy { run },
        _ => StandingReason::Plain,
    }
}

/// Whether a word is one of those that `--until` takes.
pub fn is_word(word: &str) -> bool {
    static WORDS: [&str; 6] = [
        "Healthy",
        "Degraded",
        "Paused",
        "Progressing",
        "Held",
        "Waiting",
    ];
    is_one_of(word, &WORDS)
}

// Whether a word is one of these.
fn is_one_of(word: &str, words: &[&str]) -> bool {
    for known in words {
        if word == *known {
            return true;
        }
    }
    false
}

/// How a service stands: its status, its step, and why.
#[derive(Clone, Copy, Debug, PartialEq, Eq)]
pub struct Standing {
    /// Its status.
    pub status: ServiceStatus,
    /// The index of its step.
    pub step: u64,
    /// Why it stands so.
    pub why: StandingReason,
}

impl Standing {
    /// Whether the service stands as this word of `--until` says.
    pub fn meets(&self, word: &str) -> bool
        ensures { result ≡ meets self.now.status self.now.why word.now }
    {
        word == self.status.word()
            || word == "Held" && matches!(self.why, StandingReason::Held(_))
            || word == "Waiting" && matches!(self.why, StandingReason::Waiting)
    }

    /// How `watch` ends at this word, which the service meets.
    pub fn ended_at(&self, word: &str) -> ClientExit
        ensures { result ≡ ended_at self.now.status word.now }
    {
        if word == "Held" {
            return ClientExit::Held;
        }
        match self.status {
            ServiceStatus::Degraded => ClientExit::Refused,
            _ => ClientExit::Done,
        }
    }

    /// Why the service stands so, as the end of a line for people; nothing if its status says all.
    /// The moment `now`, in seconds since 1970-01-01T00:00:00Z, is of the day whose date goes
    /// without saying.
    ///
    /// # Errors
    /// `AllocError` if an allocation was refused.
    pub fn words(&self, alloc: Global, now: u64) -> Result<String, AllocError> {
        let step = self.step;
        match self.why {
            StandingReason::Plain => Ok(String::new(alloc)),
            StandingReason::Held(Hold::Background) => {
                String::from_str(alloc, ", held: the background is Inconclusive")
            }
            StandingReason::Held(Hold::Both) => {
                format!(in alloc; ", held: step {step} and the background are Inconclusive")
            }
            StandingReason::Held(_) => format!(in alloc; ", held: step {step} is Inconclusive"),
            StandingReason::Waiting => String::from_str(alloc, ", waits for a promotion"),
            StandingReason::Pause { seconds, until } => pause_words(alloc, seconds, until, now),
            StandingReason::Analysis { run } => format!(in alloc; ", analysis run {run}"),
            StandingReason::Aborted => String::from_str(alloc, ", aborted by a command"),
            StandingReason::AbortedBy { run } => format!(in alloc; ", aborted by run {run}"),
        }
    }
}

// The words for a timed pause. One that would end after the greatest moment does not end.
fn pause_words(alloc: Global, seconds: u64, until: u64, now: u64) -> Result<String, AllocError> {
    if Moment::new(until).is_none() {
        return format!(in alloc; ", pause of {seconds} s, which does not end");
    }
    let text = moment_text(alloc, until, now)?;
    let text = text.as_str();
    format!(in alloc; ", pause of {seconds} s until {text}")
}

// A moment for people, in UTC: the time of the day, after the date if that is not the date of now.
fn moment_text(alloc: Global, seconds: u64, now: u64) -> Result<String, AllocError> {
    let mut text = String::with_capacity(alloc, 40)?;
    let Some(moment) = Moment::new(seconds) else {
        return Ok(text);
    };
    if moment.text(&mut text).is_err() {
        return Err(AllocError);
    }
    if seconds / DAY != now / DAY {
        return Ok(text);
    }
    match text.as_str().split_once('T') {
        Some((_, time)) => String::from_str(alloc, time),
        None => Ok(text),
    }
}

/// What of a service's reply says how it stands: its status, step and hold.
///
/// # Errors
/// `ReplyUnread` if it is no such reply.
pub fn parts_of(service: &Value) -> Result<(ServiceStatus, u64, Hold), Stop> {
    let status = service.get("status").and_then(Value::as_str);
    let step = service.get("step").and_then(Value::as_u64);
    let hold = service.get("hold").and_then(Value::as_str);
    let (Some(status), Some(step), Some(hold)) = (status, step, hold) else {
        return Err(Stop::ReplyUnread);
    };
    match (ServiceStatus::read(status), Hold::read(hold)) {
        (Some(status), Some(hold)) => Ok((status, step, hold)),
        _ => Err(Stop::ReplyUnread),
    }
}

/// The last line of a history's reply that says where the service stands, if there is one. A line
/// that says something else, as one of a later version may, is ignored.
///
/// # Errors
/// `ReplyUnread` if it is no such reply.
pub fn last_line(history: &Value) -> Result<Option<Line>, Stop> {
    let Some(lines) = history.get("lines").and_then(Value::as_array) else {
        return Err(Stop::ReplyUnread);
    };
    let mut found = None;
    for line in lines.iter() {
        let Some(line) = line.as_str() else {
            return Err(Stop::ReplyUnread);
        };
        let standing = standing_line(line);
        if standing.is_some() {
            found = standing;
        }
    }
    Ok(found)
}

// The line of this text, if it says where a service stands.
fn standing_line(text: &str) -> Option<Line> {
    let (moment, words) = text.split_once(' ')?;
    let line = Line::read(moment_of(moment)?, words)?;
    if is_standing(&line.event) {
        return Some(line);
    }
    None
}

// Whether an event says where the service is: at a step, after an attempt, or just created.
fn is_standing(event: &LineEvent) -> bool
    ensures { result ≡ is_standing event.now }
{
    match event {
        LineEvent::WeightEntered { step: _, weight: _ } => true,
        LineEvent::PauseEntered { step: _ } => true,
        LineEvent::TimedPauseEntered {
            step: _,
            seconds: _,
        } => true,
        LineEvent::AnalysisEntered { step: _, run: _ } => true,
        LineEvent::Aborted => true,
        LineEvent::AbortedBy { run: _ } => true,
        LineEvent::Finished { version: _ } => true,
        LineEvent::Created { version: _ } => true,
        _ => false,
    }
}

// The moment that a text of RFC 3339 says.
fn moment_of(text: &str) -> Option<Moment> {
    let instant = text.parse::<Timestamp>().ok()?;
    Moment::new(u64::try_from(instant.as_second()).ok()?)
}

/// Whether a line is of the step at which a service stands: two queries may come before and after a
/// step was entered.
pub fn is_of_step(line: &Line, step: u64) -> bool {
    match step_of(&line.event) {
        Some(of) => of as u64 == step,
        None => true,
    }
}

// The step that an event enters, if it enters one.
fn step_of(event: &LineEvent) -> Option<u32> {
    match event {
        LineEvent::WeightEntered { step, weight: _ } => Some(*step),
        LineEvent::PauseEntered { step } => Some(*step),
        LineEvent::TimedPauseEntered { step, seconds: _ } => Some(*step),
        LineEvent::AnalysisEntered { step, run: _ } => Some(*step),
        _ => None,
    }
}
