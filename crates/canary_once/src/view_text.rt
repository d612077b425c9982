//! The replies to queries: services, histories, and lists of items.
ghost use Rattle.std.specs.Prelude.{◌≡◌, ◌++◌, IfOk, map, codes, string_bytes, option_copied};
ghost use Rattle.std.specs.List.{join_with_byte};
ghost use Rattle.canary_base.specs.Moments.{moment_text};
ghost use Rattle.canary_release.specs.Replies.{bracketed};
ghost use Rattle.canary_once.specs.Views.{found, not_found, hold_text, number_text, run_reply};
ghost use Rattle.canary_once.specs.Views.{service_front, service_middle, service_back};
ghost use Rattle.canary_once.specs.Views.{service_view, quoted_line, history_view};
ghost use Rattle.canary_once.specs.Showing.{item_words};

use crate::record::RunRecord;
use crate::view_run::run_text;
use canary_base::error::Memory;
use canary_base::lists::Text;
use canary_base::moments::Moment;
use canary_base::names::Name;
use canary_plan::line::Line;
use canary_release::reply::{Reply, ReplyStatus};
use canary_release::runs::OpenRun;
use canary_release::service::Service;
use std::alloc::Global;

// Room for a history without its lines, and for each line of it. A longer text asks for more.
const ROOM: usize = 128;

const ROOM_OF_LINE: usize = 48;

/// The reply that what is asked for is not there, with that code.
pub(crate) fn not_found(alloc: Global, code: &str) -> Result<Reply, Memory>
    ensures { IfOk result (λ reply. reply ≡ not_found code.now) }
{
    Reply::of_code(alloc, ReplyStatus::NotFound, code)
}

// The reply with this body, if what is asked for is there.
fn found(body: String) -> Reply
    ensures { result ≡ found (string_bytes body) }
{
    Reply {
        status: ReplyStatus::Accepted,
        body: Text::of(body),
    }
}

/// The reply that shows a service.
pub(crate) fn service_reply(alloc: Global, service: &Service) -> Result<Reply, Memory>
    ensures { IfOk result (λ reply. reply
        ≡ found (service_view service.now.service service.now.runs)) }
{
    let body = service_text(alloc, service)?;
    Ok(found(body))
}

/// The reply that shows the history of a service.
pub(crate) fn history_reply(alloc: Global, name: Name, lines: &[Line]) -> Result<Reply, Memory>
    ensures { IfOk result (λ reply. reply ≡ found (history_view name lines.now)) }
{
    let body = history_text(alloc, name, lines)?;
    Ok(found(body))
}

/// The reply that shows a run of a service, or that there is no such run.
pub(crate) fn run_reply(
    alloc: Global,
    service: &Service,
    run: Option<&RunRecord>,
) -> Result<Reply, Memory>
    ensures { IfOk result
        (λ reply. reply ≡ run_reply service.now.service (option_copied run.entry)) }
{
    match run {
        Some(run) => {
            let body = run_text(alloc, service, run)?;
            Ok(found(body))
        }
        None => not_found(alloc, "unknown-run"),
    }
}

// The text that shows a service: an object in JSON, joined from three parts.
fn service_text(alloc: Global, service: &Service) -> Result<String, Memory>
    ensures { IfOk result (λ text. string_bytes text
        ≡ service_view service.now.service service.now.runs) }
{
    let front = service_front(alloc, service)?;
    let middle = service_middle(alloc, service)?;
    let back = service_back(alloc, service)?;
    joined(front, middle.as_str(), back.as_str())
}

/// Three texts in one.
pub(crate) fn joined(front: String, middle: &str, back: &str) -> Result<String, Memory>
    ensures { IfOk result (λ text. string_bytes text
        ≡ string_bytes front ++ (middle.now ++ back.now)) }
{
    let mut text = front;
    text.push_str(middle)?;
    text.push_str(back)?;
    Ok(text)
}

// The hold, the last moment and the open runs.
fn service_front(alloc: Global, service: &Service) -> Result<String, Memory>
    ensures { IfOk result (λ text. string_bytes text
        ≡ service_front service.now.service service.now.runs) }
{
    let hold = hold_text(service.step_hold(), service.background_hold());
    let moment = service.last().get();
    let open = numbers_text(alloc, service.open_runs())?;
    Ok(format!(in alloc;
        "{{\"code\":\"ok\",\"hold\":\"{hold}\",\"moment\":{moment},\"open\":{open}"
    )?)
}

// The word for what holds the release: its step's run, its background run, both or neither.
fn hold_text(step: bool, background: bool) -> &'static str
    ensures { result.now ≡ hold_text step background }
{
    match (step, background) {
        (false, false) => "none",
        (true, false) => "step",
        (false, true) => "background",
        (true, true) => "both",
    }
}

// How many runs, the name and the stable version.
fn service_middle(alloc: Global, service: &Service) -> Result<String, Memory>
    ensures { IfOk result (λ text. string_bytes text
        ≡ service_middle service.now.service service.now.runs.count) }
{
    let count = service.run_count();
    let name = service.name();
    let stable = service.stable();
    Ok(format!(in alloc; ",\"runs\":{count},\"service\":\"{name}\",\"stable\":\"{stable}\"")?)
}

// The status, the step, the version and the weight.
fn service_back(alloc: Global, service: &Service) -> Result<String, Memory>
    ensures { IfOk result (λ text. string_bytes text ≡ service_back service.now.service) }
{
    let status = service.status().text();
    let step = service.step();
    let version = service.version();
    let weight = service.weight();
    Ok(format!(in alloc;
        ",\"status\":\"{status}\",\"step\":{step},\"version\":\"{version}\",\"weight\":{weight}}}"
    )?)
}

// The numbers of open runs, in square brackets.
fn numbers_text(alloc: Global, runs: &[OpenRun]) -> Result<String, Memory>
    ensures { IfOk result (λ text. string_bytes text ≡ bracketed (map number_text runs.now)) }
{
    let mut text = String::from_str(alloc, "[")?;
    for (i, run) in runs.iter().enumerate() {
        let number = number_text(alloc, run)?;
        text = with_item(text, i > 0, number.as_str())?;
    }
    text.push_str("]")?;
    Ok(text)
}

// The number of an open run, in decimal.
fn number_text(alloc: Global, run: &OpenRun) -> Result<String, Memory>
    ensures { IfOk result (λ text. string_bytes text ≡ number_text run.now) }
{
    let number = run.number;
    Ok(format!(in alloc; "{number}")?)
}

/// With one more item of a list, after a comma if it is not the first.
pub(crate) fn with_item(text: String, later: bool, item: &str) -> Result<String, Memory>
    ensures { IfOk result (λ all. string_bytes all
        ≡ string_bytes text ++ item_words later item.now) }
{
    let mut text = text;
    if later {
        text.push_str(",")?;
    }
    text.push_str(item)?;
    Ok(text)
}

// The text that shows a history: an object in JSON with the lines in order and the service's name.
fn history_text(alloc: Global, name: Name, lines: &[Line]) -> Result<String, Memory>
    ensures { IfOk result (λ text. string_bytes text ≡ history_view name lines.now) }
{
    let front = history_front(alloc, lines.len())?;
    let text = with_lines(alloc, front, lines)?;
    let text = joined(text, "],\"service\":\"", name.as_str())?;
    joined(text, "\"", "}")
}

// The text that shows a history up to its lines, with room for so many of them.
fn history_front(alloc: Global, lines: usize) -> Result<String, Memory>
    ensures { IfOk result (λ text. string_bytes text ≡ codes "{\"code\":\"ok\",\"lines\":[") }
{
    let room = ROOM_OF_LINE.saturating_mul(lines);
    let mut text = String::with_capacity(alloc, ROOM.saturating_add(room))?;
    text.push_str("{\"code\":\"ok\",\"lines\":[")?;
    Ok(text)
}

// With the lines in quotes, in order, with commas between them.
fn with_lines(alloc: Global, text: String, lines: &[Line]) -> Result<String, Memory>
    ensures { IfOk result (λ all. string_bytes all
        ≡ string_bytes text ++ join_with_byte 44 (map quoted_line lines.now)) }
{
    let Some(first) = lines.first() else {
        return Ok(text);
    };
    let mut shown = MomentText::of(alloc, first.moment)?;
    let mut all = text;
    for (i, line) in lines.iter().enumerate() {
        shown = shown.at(line.moment)?;
        all = with_line(all, i > 0, shown.text.as_str(), line)?;
    }
    Ok(all)
}

// With one more line in quotes, after a comma if it is not the first: the text of its moment, a
// space and the words of its event.
fn with_line(text: String, later: bool, moment: &str, line: &Line) -> Result<String, Memory>
    requires { moment.now ≡ moment_text line.now.moment }
    ensures { IfOk result (λ all. string_bytes all
        ≡ string_bytes text ++ item_words later (quoted_line line.now)) }
{
    let mut all = with_item(text, later, "\"")?;
    all.push_str(moment)?;
    all.push_str(" ")?;
    line.words(&mut all)?;
    all.push_str("\"")?;
    Ok(all)
}

// A moment with its text. Of lines that follow one another many have the same moment.
#[derive(Drop)]
struct MomentText {
    moment: Moment,
    text: String,
    ghost spelled: { string_bytes text ≡ moment_text moment },
}

impl MomentText {
    // That moment with its text.
    fn of(alloc: Global, moment: Moment) -> Result<MomentText, Memory>
        ensures { IfOk result (λ shown. shown.moment ≡ moment) }
    {
        let mut text = String::new(alloc);
        moment.text(&mut text)?;
        Ok(MomentText { moment, text })
    }

    // That moment with its text, which is written anew only if it is another one.
    fn at(self, moment: Moment) -> Result<MomentText, Memory>
        ensures { IfOk result (λ shown. shown.moment ≡ moment) }
    {
        if self.moment == moment {
            return Ok(self);
        }
        let mut text = self.text;
        text.clear();
        moment.text(&mut text)?;
        Ok(MomentText { moment, text })
    }
}
