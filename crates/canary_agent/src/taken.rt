//! Measurements that were taken.
ghost use Rattle.std.specs.Prelude.{IfOk};
ghost use Rattle.canary_agent.specs.Reports.{IsCame, IsCameOf, IsCameOfFault, IsFailed};

use canary_base::error::Memory;
use canary_base::lists::Text;
use canary_base::moments::Moment;
use canary_base::names::Label;
use canary_base::numbers::Number;
use canary_condition::outcome::FailureText;
use canary_fetch::fault::ExchangeFault;
use canary_fetch::query::FetchResult;
use canary_measure::measured::Measured;
use canary_provider::plan::ReplyFormat;
use canary_provider::reply::measured_of;
use std::alloc::Global;

/// What came of a measurement.
#[derive(Drop)]
pub enum Came {
    /// This was measured.
    Measured(Measured),
    /// Nothing was, for this reason.
    Failed(FailureText),
}

/// A measurement that was taken.
#[derive(Drop)]
pub struct Taken {
    /// The metric, by its label at the desk.
    pub metric: Label,
    /// Which measurement of it in its run it is, from 1.
    pub ordinal: Number,
    /// When it was taken, by the desk's clock.
    pub moment: Moment,
    /// What came of it.
    pub came: Came,
}

/// What came of a message to a provider; none if that is a fault of this machine, which says
/// nothing of the provider.
///
/// # Errors
/// `Memory` if an allocation was refused.
pub fn came_of(
    alloc: Global,
    answer: &ReplyFormat,
    outcome: &FetchResult,
) -> Result<Option<Came>, Memory>
    ensures { IfOk result (IsCameOf answer.now outcome.now) }
{
    match outcome {
        Ok(reply) => {
            let came = came_of_reply(alloc, answer, reply.status, reply.body.as_slice())?;
            Ok(Some(came))
        }
        Err(fault) => came_of_fault(alloc, *fault),
    }
}

// What came of a message that has no reply.
fn came_of_fault(alloc: Global, fault: ExchangeFault) -> Result<Option<Came>, Memory>
    ensures { IfOk result (IsCameOfFault fault) }
{
    if fault.is_local() {
        return Ok(None);
    }
    Ok(Some(failed(alloc, text_of(fault))?))
}

/// What came of a message to which a provider gave a reply of that status with that body.
///
/// # Errors
/// `Memory` if an allocation was refused.
pub fn came_of_reply(
    alloc: Global,
    answer: &ReplyFormat,
    status: u16,
    body: &[u8],
) -> Result<Came, Memory>
    ensures { IfOk result (IsCame answer.now status body.now) }
{
    match measured_of(alloc, answer, status, body)? {
        Ok(measured) => Ok(Came::Measured(measured)),
        Err(text) => Ok(Came::Failed(text)),
    }
}

/// A failure with this text, of 1 to 200 bytes.
///
/// # Errors
/// `Memory` if an allocation was refused.
pub fn failed(alloc: Global, text: &str) -> Result<Came, Memory>
    ensures { IfOk result IsFailed }
{
    match FailureText::of(Text::of(String::from_str(alloc, text)?)) {
        Some(text) => Ok(Came::Failed(text)),
        None => Err(Memory),
    }
}

// What is reported of a message that has no reply.
fn text_of(fault: ExchangeFault) -> &'static str {
    match fault {
        ExchangeFault::Refused => "no answer: no connection to the provider could be made",
        ExchangeFault::Timeout => "timeout: the provider gave no whole reply in time",
        ExchangeFault::Cut => "the connection to the provider ended before its reply was whole",
        ExchangeFault::TooLong => "the reply of the provider is too long",
        ExchangeFault::NotHttp => "the reply of the provider is not HTTP/1.1",
        ExchangeFault::Coded => "the reply of the provider is compressed",
        ExchangeFault::Memory | ExchangeFault::Local(_) => "the agent asked nobody",
    }
}
