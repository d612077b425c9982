//! What a client is waited for, since when, and how long.
ghost use Rattle.std.specs.Prelude.{◌≡◌, ◌≢◌, ◌-◌, Some, None, if◌then◌else◌};
ghost use Rattle.canary_listen.specs.Waiting.{cause_after};

use crate::limits::Limits;
use canary_wire::conversation::Cause;

// What a client is waited for.
#[derive(Clone, Copy, Debug, PartialEq, Eq)]
pub(crate) enum Awaited {
    // The first byte of its next message.
    Message,
    // The rest of a message.
    Rest,
    // To take what it is owed.
    Reading,
    // Nothing: its query waits until other clients took what they are owed.
    Room,
    // Nothing: its history waits until those that came before it are answered.
    Queue,
    // To end its sending side, after its last reply.
    Leaving,
}

// How a client is waited for.
#[derive(Clone, Copy, Debug)]
pub(crate) struct Wait {
    pub(crate) awaited: Awaited,
    // When it began to be waited for so, or its last message was answered, in seconds.
    pub(crate) since: u64,
    // How many of its messages were answered then.
    pub(crate) answered: u64,
}

impl Wait {
    // That for the first message of a client that came at this second.
    pub(crate) fn for_first(now: u64) -> Wait {
        Wait {
            awaited: Awaited::Message,
            since: now,
            answered: 0,
        }
    }

    // How it is waited for now, if so many of its messages were answered: as before, unless what it
    // is waited for is new or a message was answered.
    pub(crate) fn renewed(self, awaited: Awaited, answered: u64, now: u64) -> Wait
        ensures awaited { result.awaited ≡ awaited }
        ensures answered { result.answered ≡ answered }
        ensures new { self.awaited ≢ awaited → result.since ≡ now }
        ensures more { self.answered ≢ answered → result.since ≡ now }
        ensures same { self.awaited ≡ awaited → self.answered ≡ answered
            → result.since ≡ self.since }
    {
        let is_same = self.awaited == awaited && self.answered == answered;
        Wait {
            awaited,
            since: if is_same { self.since } else { now },
            answered,
        }
    }

    // Why a client that is waited for so is let go at this second, if it took too long. One that
    // waits for others is not.
    pub(crate) fn overdue(self, limits: Limits, now: u64) -> Option<Cause>
        ensures { result ≡ cause_after (now - self.since) limits self.awaited }
    {
        let waited = now.saturating_sub(self.since);
        match self.awaited {
            Awaited::Message => cause_if(waited > limits.idle_seconds, Cause::EndOfInput),
            Awaited::Rest => cause_if(waited > limits.message_seconds, Cause::Truncated),
            Awaited::Reading => cause_if(waited > limits.idle_seconds, Cause::Write),
            Awaited::Leaving => cause_if(waited > limits.message_seconds, Cause::EndOfInput),
            Awaited::Room => None,
            Awaited::Queue => None,
        }
    }
}

// The cause, if it is one.
fn cause_if(is_late: bool, cause: Cause) -> Option<Cause>
    ensures { result ≡ (if is_late then Some cause else None) }
{
    if is_late { Some(cause) } else { None }
}
