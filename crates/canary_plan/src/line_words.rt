//! The words of a history's lines, written and read.
ghost use Rattle.arrayvec.specs.ArrayString.{array_string_len};
ghost use Rattle.std.specs.Prelude.{◌≡◌, ◌+◌, ◌≤◌, ◌++◌, List};
ghost use Rattle.std.specs.Prelude.{ℕ, length, Some, None, MatchOption, IsTrue};
ghost use Rattle.std.specs.Prelude.{codes, decimal};
ghost use Rattle.canary_base.specs.Names.{is_label};
ghost use Rattle.canary_plan.specs.Lines.{words, IsLineEvent};
ghost use Rattle.canary_plan.specs.LineReading.{cut, version_of, number_of, before_s, seconds_of};
ghost use Rattle.canary_plan.specs.LineReading.{numbered, event_alone, entered_as, entered};
ghost use Rattle.canary_plan.specs.LineReading.{closed, after_number, held, promoted};
ghost use Rattle.canary_plan.specs.LineReading.{event_without_version, event_with, event_of};
ghost use Rattle.canary_plan.specs.declared.line.LineEvent.TheVariants.{Completed, Ended};

use crate::line::LineEvent;
use arrayvec::ArrayString;
use canary_base::durations::Seconds;
use canary_base::names::Label;
use canary_condition::outcome::Phase;
use itoa::Buffer;

// The bytes that suffice for the words of a line: a first word of at most 8 bytes with its space,
// and a label.
const MAX_WORDS: usize = 71;

// The words of an event.
pub(crate) fn words(event: &LineEvent) -> ArrayString<MAX_WORDS>
    ensures value { result.bytes ≡ words event.now }
    ensures kept { IsLineEvent event.now }
{
    match event {
        LineEvent::Created { version } => with_label("created ", version),
        LineEvent::Started { version } => with_label("start ", version),
        LineEvent::Retried { version } => with_label("retry ", version),
        LineEvent::BackgroundOpened { run } => with_number("background run ", *run),
        LineEvent::WeightEntered { step, weight } => of_step(*step, " setWeight ", *weight),
        LineEvent::PauseEntered { step } => of_pause(*step),
        LineEvent::TimedPauseEntered { step, seconds } => of_timed_pause(*step, *seconds),
        LineEvent::AnalysisEntered { step, run } => of_step(*step, " analysis run ", *run),
        LineEvent::Completed { run, phase } => of_run(*run, *phase),
        LineEvent::Ended { run, phase } => of_ended_run(*run, *phase),
        LineEvent::StepHeld { step } => with_number("hold step ", *step),
        LineEvent::BackgroundHeld => alone("hold background"),
        LineEvent::Promoted => alone("promote"),
        LineEvent::PromotedFull => alone("promote full"),
        LineEvent::Aborted => alone("abort"),
        LineEvent::AbortedBy { run } => with_number("abort run ", *run),
        LineEvent::Finished { version } => with_label("done ", version),
    }
}

// A text alone.
fn alone(text: &str) -> ArrayString<MAX_WORDS>
    requires { length text.now ≤ MAX_WORDS }
    ensures { result.bytes ≡ text.now }
{
    let mut words = ArrayString::new();
    words.push_str(text);
    words
}

// A text, and a label.
fn with_label(text: &str, label: &Label) -> ArrayString<MAX_WORDS>
    requires { length text.now ≤ 8 }
    ensures bytes { result.bytes ≡ text.now ++ label.now }
    ensures label { IsTrue (is_label label.now) }
{
    // A label has 63 bytes at most.
    prove!(label.as_bytes().len() <= 63);
    let mut words = alone(text);
    words.push_str(label.as_str());
    words
}

// A text, and a number.
fn with_number(text: &str, number: u32) -> ArrayString<MAX_WORDS>
    requires { length text.now ≤ 15 }
    ensures bytes { result.bytes ≡ text.now ++ decimal number }
    ensures short { array_string_len result ≤ length text.now + 10 }
{
    let mut words = alone(text);
    words.push_str(Buffer::new().format(number));
    words
}

// A step's number, a text and another number.
fn of_step(step: u32, text: &str, number: u32) -> ArrayString<MAX_WORDS>
    requires { length text.now ≤ 14 }
    ensures bytes { result.bytes ≡ codes "step " ++ (decimal step ++ (text.now ++ decimal number)) }
    ensures short { array_string_len result ≤ length text.now + 25 }
{
    let mut words = with_number("step ", step);
    words.push_str(text);
    words.push_str(Buffer::new().format(number));
    words
}

// The words of a pause without a duration.
fn of_pause(step: u32) -> ArrayString<MAX_WORDS>
    ensures { result.bytes ≡ codes "step " ++ (decimal step ++ codes " pause") }
{
    let mut words = with_number("step ", step);
    words.push_str(" pause");
    words
}

// The words of a pause with its duration, in seconds.
fn of_timed_pause(step: u32, seconds: Seconds) -> ArrayString<MAX_WORDS>
    ensures bytes { result.bytes ≡ codes "step "
        ++ (decimal step ++ (codes " pause " ++ (decimal seconds ++ codes "s"))) }
    ensures limit { seconds ≤ 31536000 }
{
    let mut words = of_step(step, " pause ", seconds.get());
    words.push_str("s");
    words
}

// The words of a run's number and the verdict at which it was closed.
fn of_run(run: u32, phase: Phase) -> ArrayString<MAX_WORDS>
    ensures bytes { result.bytes ≡ words (Completed run phase) }
    ensures short { array_string_len result ≤ 27 }
{
    let mut words = with_number("run ", run);
    words.push_str(" ");
    words.push_str(phase.text());
    words
}

// The words of a run that was ended from outside: those of `of_run` and one more.
fn of_ended_run(run: u32, phase: Phase) -> ArrayString<MAX_WORDS>
    ensures { result.bytes ≡ words (Ended run phase) }
{
    let mut words = of_run(run, phase);
    words.push_str(" ended");
    words
}

// The event that the words report.
pub(crate) fn read_event(text: &str) -> Option<LineEvent>
    ensures { result ≡ event_of text.now }
{
    match cut(text) {
        None => read_alone(text),
        Some((word, rest)) => read_with(word, rest),
    }
}

// What stands before the first space, and what stands after it.
fn cut(text: &str) -> Option<(&str, &str)>
    ensures { MatchOption result (cut text.now ≡ None)
        (λ parts. cut text.now ≡ Some (parts.0.now, parts.1.now)) }
{
    text.split_once(' ')
}

// The number that is printed so, without leading zeros.
fn read_number(text: &str) -> Option<u32>
    ensures { result ≡ number_of text.now }
{
    let number = text.parse().ok()?;
    // `parse` alone would take a plus and leading zeros.
    if Buffer::new().format(number) == text {
        Some(number)
    } else {
        None
    }
}

// The version that the text is; none if it is no label.
fn read_version(text: &str) -> Option<Label>
    ensures { result ≡ version_of text.now }
{
    Label::read(text.as_bytes())
}

// What stands before an `s` at the end.
fn before_s(text: &str) -> Option<&str>
    ensures { MatchOption result (before_s text.now ≡ None)
        (λ digits. before_s text.now ≡ Some digits.now) }
{
    text.strip_suffix('s')
}

// The seconds before an `s` at the end.
fn read_seconds(text: &str) -> Option<Seconds>
    ensures { result ≡ seconds_of text.now }
{
    match before_s(text) {
        None => None,
        Some(digits) => Seconds::new(u64::from(read_number(digits)?)),
    }
}

// The number after that word.
fn read_numbered(word: &str, text: &str) -> Option<u32>
    ensures { result ≡ numbered word.now text.now }
{
    match cut(text) {
        Some((first, number)) if first == word => read_number(number),
        _ => None,
    }
}

// The event of a text without spaces.
fn read_alone(text: &str) -> Option<LineEvent>
    ensures { result ≡ event_alone text.now }
{
    match text {
        "promote" => Some(LineEvent::Promoted),
        "abort" => Some(LineEvent::Aborted),
        _ => None,
    }
}

// The event of a first word, and of what stands after it.
fn read_with(word: &str, rest: &str) -> Option<LineEvent>
    ensures { result ≡ event_with word.now rest.now }
{
    match word {
        "created" => read_version(rest).map(|version| LineEvent::Created { version }),
        "start" => read_version(rest).map(|version| LineEvent::Started { version }),
        "retry" => read_version(rest).map(|version| LineEvent::Retried { version }),
        "done" => read_version(rest).map(|version| LineEvent::Finished { version }),
        _ => read_without_version(word, rest),
    }
}

// The event of a first word that no version follows, and of what stands after it.
fn read_without_version(word: &str, rest: &str) -> Option<LineEvent>
    ensures { result ≡ event_without_version word.now rest.now }
{
    match word {
        "background" => {
            read_numbered("run", rest).map(|run| LineEvent::BackgroundOpened { run })
        }
        "abort" => read_numbered("run", rest).map(|run| LineEvent::AbortedBy { run }),
        "step" => read_step(rest),
        "run" => read_run(rest),
        "hold" => read_hold(rest),
        "promote" => read_promote(rest),
        _ => None,
    }
}

// How far the release was promoted.
fn read_promote(text: &str) -> Option<LineEvent>
    ensures { result ≡ promoted text.now }
{
    match text {
        "full" => Some(LineEvent::PromotedFull),
        _ => None,
    }
}

// Where the release is held.
fn read_hold(text: &str) -> Option<LineEvent>
    ensures { result ≡ held text.now }
{
    if text == "background" {
        return Some(LineEvent::BackgroundHeld);
    }
    read_numbered("step", text).map(|step| LineEvent::StepHeld { step })
}

// A step's number, and what was entered.
fn read_step(text: &str) -> Option<LineEvent>
    ensures { result ≡ after_number entered text.now }
{
    match cut(text) {
        None => None,
        Some((number, rest)) => read_entered(read_number(number)?, rest),
    }
}

// The event of entering that step: a pause without a duration is one word, others are several.
fn read_entered(step: u32, text: &str) -> Option<LineEvent>
    ensures { result ≡ entered step text.now }
{
    match cut(text) {
        None if text == "pause" => Some(LineEvent::PauseEntered { step }),
        None => None,
        Some((kind, rest)) => read_entered_as(step, kind, rest),
    }
}

// The event of entering that step, by its kind and what follows the kind.
fn read_entered_as(step: u32, kind: &str, rest: &str) -> Option<LineEvent>
    ensures { result ≡ entered_as step kind.now rest.now }
{
    match kind {
        "setWeight" => { read_number(rest).map(|weight| LineEvent::WeightEntered { step, weight }) }
        "pause" => {
            read_seconds(rest).map(|seconds| LineEvent::TimedPauseEntered { step, seconds })
        }
        "analysis" => {
            read_numbered("run", rest).map(|run| LineEvent::AnalysisEntered { step, run })
        }
        _ => None,
    }
}

// A run's number, and how it was closed.
fn read_run(text: &str) -> Option<LineEvent>
    ensures { result ≡ after_number closed text.now }
{
    match cut(text) {
        None => None,
        Some((number, rest)) => read_closed(read_number(number)?, rest),
    }
}

// The event of closing that run: its phase alone, or with the word that it was ended from outside.
fn read_closed(run: u32, text: &str) -> Option<LineEvent>
    ensures { result ≡ closed run text.now }
{
    match cut(text) {
        None => Phase::read(text).map(|phase| LineEvent::Completed { run, phase }),
        Some((phase, "ended")) => Phase::read(phase).map(|phase| LineEvent::Ended { run, phase }),
        Some(_) => None,
    }
}
