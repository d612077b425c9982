//! Why a message has no reply.
use crate::local::LocalFault;
use thiserror::Error;

/// Why a message has no reply.
#[derive(Clone, Copy, Debug, PartialEq, Eq, Error)]
pub enum ExchangeFault {
    /// No connection could be made.
    #[error("no connection could be made")]
    Refused,
    /// The reply was not whole in time.
    #[error("no whole reply in time")]
    Timeout,
    /// The connection ended before the reply was whole.
    #[error("the connection ended before the reply was whole")]
    Cut,
    /// A body of more than 1,048,576 bytes, or a head of more than 16,384 bytes or 64 fields.
    #[error("the reply is too long")]
    TooLong,
    /// No reply in HTTP/1.1 begins so.
    #[error("the reply is not HTTP/1.1")]
    NotHttp,
    /// The body is coded, as by gzip, though the message asks for it as it is.
    #[error("the reply is compressed")]
    Coded,
    /// An allocation was refused.
    #[error("out of memory")]
    Memory,
    /// This machine made no connection, or has no memory for it.
    #[error("this machine asks nobody")]
    Local(LocalFault),
}

impl ExchangeFault {
    ghost use Rattle.std.specs.Prelude.{◌≡◌};
    ghost use Rattle.canary_fetch.specs.Locals.{is_local};

    /// Whether it is a fault of this machine, which says nothing of the provider.
    pub fn is_local(self) -> bool
        ensures { result ≡ is_local self }
    {
        match self {
            ExchangeFault::Memory | ExchangeFault::Local(_) => true,
            _ => false,
        }
    }
}
