//! The reply to a report.
ghost use Rattle.std.specs.Prelude.{◌≡◌, ◌++◌, IfOk, codes, decimal, map, string_bytes};
ghost use Rattle.canary_release.specs.Replies.{bracketed, quoted_phase, report_text, accepted};
ghost use Rattle.canary_release.specs.Rules.Reporting.{phase_words};

use crate::reply::{Reply, ReplyStatus, Reported, with_place, with_weight};
use crate::state::ServiceState;
use crate::words::{with, with_number, with_two};
use canary_base::error::Memory;
use canary_base::lists::Text;
use canary_condition::outcome::Phase;
use std::alloc::Global;

// The bytes that the text of a report has room for at first: a longer one asks for more.
const ROOM: usize = 192;

impl Reply {
    /// The reply that shows the phases of a report's entries, its run's verdict, and how its
    /// service stands; `Memory` if memory is refused.
    pub(crate) fn reports(
        alloc: Global,
        service: &ServiceState,
        reported: &Reported,
    ) -> Result<Reply, Memory>
        ensures { IfOk result (λ reply. reply ≡ accepted (report_text reported.now service.now)) }
    {
        let body = report_text(alloc, service, reported)?;
        Ok(Reply {
            status: ReplyStatus::Accepted,
            body: Text::of(body),
        })
    }
}

// The body: the phases, the run, the service with its status and step, the verdict, the weight.
fn report_text(alloc: Global, service: &ServiceState, reported: &Reported) -> Result<String, Memory>
    ensures { IfOk result (λ text. string_bytes text ≡ report_text reported.now service.now) }
{
    let text = String::with_capacity(alloc, ROOM)?;
    let text = with_run(text, reported)?;
    let text = with_place(text, ",\"service\":\"", service)?;
    let text = with_two(text, ",\"verdict\":\"", reported.verdict.text())?;
    with_weight(text, "\",\"weight\":", service)
}

// The text with the phases and the run after it.
fn with_run(text: String, reported: &Reported) -> Result<String, Memory>
    ensures { IfOk result (λ all. string_bytes all
        ≡ string_bytes text ++ (codes "{\"code\":\"ok\",\"phases\":"
        ++ (bracketed (map quoted_phase reported.now.phases)
        ++ (codes ",\"run\":" ++ decimal reported.now.run)))) }
{
    let text = with(text, "{\"code\":\"ok\",\"phases\":")?;
    let text = with_phases(text, reported.phases.as_slice())?;
    with_number(text, ",\"run\":", reported.run)
}

// The text with the phases in square brackets after it.
fn with_phases(front: String, phases: &[Phase]) -> Result<String, Memory>
    ensures { IfOk result (λ all. string_bytes all
        ≡ string_bytes front ++ bracketed (map quoted_phase phases.now)) }
{
    let mut text = with(front, "[")?;
    for (i, phase) in phases.iter().enumerate() {
        text = with_phase(text, i > 0, *phase)?;
    }
    with(text, "]")
}

// The text with one more phase, after a comma if it is not the first.
fn with_phase(text: String, later: bool, phase: Phase) -> Result<String, Memory>
    ensures { IfOk result (λ all. string_bytes all ≡ string_bytes text ++ phase_words later phase) }
{
    let quote = if later { ",\"" } else { "\"" };
    let text = with_two(text, quote, phase.text())?;
    with(text, "\"")
}
