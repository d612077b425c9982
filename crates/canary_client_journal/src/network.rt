//! Messages to a desk, and the replies to them.
ghost use Rattle.std.specs.Prelude.{◌≡◌, ◌⊎◌, List, ℕ, Ok, Err, IfOk, IfErr, OnOk};
ghost use Rattle.canary_client_journal.specs.declared.network.Heard.{Heard};
ghost use Rattle.canary_client_journal.specs.declared.network.RetryReason.{RetryReason};
ghost use Rattle.canary_client_journal.specs.Messages.{request_text, query_text};
ghost use Rattle.canary_client_journal.specs.Networks.{GoesOn};

use canary_base::error::Memory;
use canary_base::lists::Text;
use canary_base::names::Name;
use std::alloc::Global;

/// A reply.
#[derive(Drop)]
pub struct Heard {
    /// The status.
    pub status: u16,
    /// The body.
    pub body: Text,
}

/// Why there is no reply that counts, so that a message may be sent again.
#[derive(Clone, Copy, Debug, PartialEq, Eq)]
pub enum RetryReason {
    /// Nobody listens there.
    Unreachable,
    /// The connection ended, or nothing came in time: the message may have come.
    Lost,
    /// What came is not a reply of a desk.
    Foreign,
    /// The desk answered 503.
    Unavailable,
    /// An allocation was refused.
    Memory,
}

/// The way to a desk and back.
pub trait Network {
    /// A message that may have been sent.
    ghost was_sent: { Self → List ℕ → Type 0 };

    /// A reply that came to a message, as the desk's answer to it.
    ghost was_told: { Self → List ℕ → Heard → Type 0 };

    /// A message to which no reply came once that it was to be sent, and why.
    ghost was_unanswered: { Self → List ℕ → RetryReason → Type 0 };

    /// Sends a message, once at most, and hears the reply to it, or why there is none.
    fn exchange(&mut self, alloc: Global, message: &str) -> Result<Heard, RetryReason>
        ensures network { GoesOn was_sent was_told was_unanswered self.old self.new
            (λ m. m ≡ message.now) }
        ensures sent { OnOk result (was_sent self.new message.now) }
        ensures told { IfOk result (λ response. was_told self.new message.now response) }
        ensures unanswered { IfErr result (λ why. was_unanswered self.new message.now why) }
        ensures only { (m : List ℕ) (response : Heard) → was_told self.new m response
            → was_told self.old m response ⊎ (result ≡ Ok response) }
        ensures only_why { (m : List ℕ) (why : RetryReason) → was_unanswered self.new m why
            → was_unanswered self.old m why ⊎ (result ≡ Err why) };

    /// Waits before a message is sent again, the longer the more often it was sent.
    fn pause(&mut self, tried: u32, why: RetryReason)
        ensures { GoesOn was_sent was_told was_unanswered self.old self.new (λ _. ⊥) };
}

/// The message of a request, or `Memory`: HTTP/1.1 (RFC 9112) on a connection of its own. The field
/// `Host` is the word `desk`.
pub fn request(alloc: Global, caller: Name, number: u32, body: &str) -> Result<Text, Memory>
    ensures { IfOk result (λ text. text ≡ request_text caller number body.now) }
{
    let (name, length) = (caller.as_str(), body.len());
    Ok(Text::of(format!(in alloc;
        "PUT /callers/{name}/requests/{number} HTTP/1.1\r\nHost: desk\r\nConnection: close\r\n\
         Content-Length: {length}\r\n\r\n{body}"
    )?))
}

/// The message of a query of a path, or `Memory`.
pub fn query(alloc: Global, path: &str) -> Result<Text, Memory>
    ensures { IfOk result (λ text. text ≡ query_text path.now) }
{
    Ok(Text::of(format!(in alloc;
        "GET {path} HTTP/1.1\r\nHost: desk\r\nConnection: close\r\n\r\n"
    )?))
}
