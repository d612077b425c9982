//! Lines of a service's history.
ghost use Rattle.std.specs.Prelude.{◌≡◌, ◌+◌, ◌<◌, ◌++◌, length, Some, IfSome, option_map};
ghost use Rattle.std.specs.Prelude.{OnOk, OnErr};
ghost use Rattle.std.specs.Prelude.{string_bytes, string_capacity, string_len};
ghost use Rattle.canary_plan.specs.declared.line.LineEvent.{LineEvent};
ghost use Rattle.canary_plan.specs.Lines.{words, line_at, IsLineEvent};
ghost use Rattle.canary_plan.specs.LineReading.{event_of};

use crate::line_words;
use canary_base::durations::Seconds;
use canary_base::error::Memory;
use canary_base::moments::Moment;
use canary_base::names::Label;
use canary_condition::outcome::Phase;

/// What a line of a history says. Steps count from 0, runs from 1.
#[derive(Clone, Copy)]
pub enum LineEvent {
    /// The service was registered with that version.
    Created { version: Label },
    /// A release of that version began.
    Started { version: Label },
    /// A release of that version began anew after an abort.
    Retried { version: Label },
    /// The run of the background analysis was opened.
    BackgroundOpened { run: u32 },
    /// A step that sets the weight, in percent, was entered.
    WeightEntered { step: u32, weight: u32 },
    /// A pause without a duration was entered.
    PauseEntered { step: u32 },
    /// A pause of that duration was entered.
    TimedPauseEntered { step: u32, seconds: Seconds },
    /// An analysis was entered, and its run opened.
    AnalysisEntered { step: u32, run: u32 },
    /// A run was closed at its verdict.
    Completed { run: u32, phase: Phase },
    /// A run was ended from outside, at its verdict.
    Ended { run: u32, phase: Phase },
    /// The release is held at that step, whose run was inconclusive.
    StepHeld { step: u32 },
    /// The release is held, since the background run was inconclusive.
    BackgroundHeld,
    /// The release was promoted.
    Promoted,
    /// The release was promoted to its end.
    PromotedFull,
    /// The release was aborted by a command.
    Aborted,
    /// The release was aborted by a run.
    AbortedBy { run: u32 },
    /// The end was entered: that version is the stable one.
    Finished { version: Label },
}

/// A line of a history: what happened, and when.
#[derive(Clone, Copy)]
pub struct Line {
    pub moment: Moment,
    pub event: LineEvent,
}

impl Line {
    /// Appends the words of its event, without the moment: `step 2 setWeight 50`, `run 1 Failed`.
    /// `Memory` comes only if the text's capacity does not suffice, and the text is then as
    /// before.
    #[tactic(auto, using(crate::proofs::LineLemmas::event_again))]
    pub fn words(&self, out: &mut String) -> Result<(), Memory>
        ensures ok { OnOk result
            (string_bytes out.new ≡ string_bytes out.old ++ words self.now.event) }
        ensures err { OnErr result (string_bytes out.new ≡ string_bytes out.old) }
        ensures full { OnErr result
            (string_capacity out.old < string_len out.old + length (words self.now.event)) }
        ensures back { event_of (words self.now.event) ≡ Some self.now.event }
    {
        out.push_str(line_words::words(&self.event).as_str())?;
        Ok(())
    }

    /// The line of that moment with these words, or none: exactly the words that `words` writes
    /// are read.
    pub fn read(moment: Moment, text: &str) -> Option<Line>
        ensures value { result ≡ option_map (line_at moment) (event_of text.now) }
        ensures moment { IfSome result (λ line. line.moment ≡ moment) }
        ensures sound { IfSome result (λ line. words line.event ≡ text.now) }
        ensures complete { (event : LineEvent) → IsLineEvent event
            → words event ≡ text.now → result ≡ Some (line_at moment event) }
    {
        let event = line_words::read_event(text)?;
        Some(Line { moment, event })
    }
}
