//! A message, and what it came to.
ghost use Rattle.std.specs.Prelude.{◌≡◌};

use crate::fault::ExchangeFault;
use crate::reply::HttpReply;
use std::net::SocketAddr;
use std::time::Duration;
use thiserror::Error;

/// What a message came to.
pub type FetchResult = Result<HttpReply, ExchangeFault>;

/// What a message came to, with the token under which it was taken in.
#[derive(Drop)]
pub struct FetchCompletion {
    /// The token.
    pub token: usize,
    /// The reply, or why there is none.
    pub outcome: FetchResult,
}

/// Why a message is not taken in.
#[derive(Clone, Copy, Debug, PartialEq, Eq, Error)]
pub enum StartFault {
    /// Another message has this token, and was not answered yet.
    #[error("a message with this token is under way")]
    Taken,
    /// An allocation was refused.
    #[error("out of memory")]
    Memory,
}

// A message that was taken in.
#[derive(Drop)]
pub(crate) struct PendingMessage {
    address: SocketAddr,
    message: Vec<u8>,
    // When it ends at the latest.
    ends: Duration,
    // What it came to, once it did.
    outcome: Option<FetchResult>,
}

impl PendingMessage {
    ghost use Rattle.canary_fetch.specs.Asked.{message_of, outcome_of};

    // One that came to nothing yet.
    pub(crate) fn new(address: SocketAddr, message: Vec<u8>, ends: Duration) -> PendingMessage
        ensures { message_of result ≡ (address, message.items) }
    {
        PendingMessage {
            address,
            message,
            ends,
            outcome: None,
        }
    }

    // The message.
    pub(crate) fn message(&self) -> &[u8] {
        self.message.as_slice()
    }

    // Where it goes, if it came to nothing yet.
    pub(crate) fn address(&self) -> Option<SocketAddr> {
        if self.is_answered() {
            return None;
        }
        Some(self.address)
    }

    // Whether it came to something.
    pub(crate) fn is_answered(&self) -> bool {
        self.outcome.is_some()
    }

    // Whether it came to nothing until now, and its time is over.
    pub(crate) fn is_late(&self, now: Duration) -> bool {
        !self.is_answered() && self.ends <= now
    }

    // How long it may still take: no time if it came to something.
    pub(crate) fn time_left(&self, now: Duration) -> Duration {
        if self.is_answered() {
            return Duration::ZERO;
        }
        self.ends.saturating_sub(now)
    }

    // It came to this.
    pub(crate) fn settle(&mut self, outcome: FetchResult) {
        self.outcome = Some(outcome);
    }

    // Its answer, under this token.
    pub(crate) fn answer(self, token: usize) -> FetchCompletion
        ensures token { result.token ≡ token }
        ensures outcome { result.outcome ≡ outcome_of self }
    {
        FetchCompletion {
            token,
            outcome: self.outcome.unwrap_or(Err(ExchangeFault::Timeout)),
        }
    }
}
