//! What one client may take of a listener, and how many there may be.

/// How long a client may take, how much may be owed to it, and how many there may be at a time.
#[derive(Clone, Copy, Debug, PartialEq, Eq)]
pub struct Limits {
    /// The most seconds from the first byte of a message to its last, from 1 on.
    pub message_seconds: u64,
    /// The most seconds in which a client has nothing answered, or does not take all that it is
    /// owed, from 1 on.
    pub idle_seconds: u64,
    /// The most clients at a time, from 1 on; further ones wait to be accepted.
    pub clients: u64,
    /// While at least so many bytes are owed to a client, none of its messages is answered; from 1
    /// on.
    pub owed_bytes: u64,
    /// While at least so many bytes are owed to all clients together, no query is answered; from 1
    /// on.
    pub unsent_total_bytes: u64,
}

impl Limits {
    /// 10 seconds for a message, 60 seconds idle, 1,000 clients, 65,536 bytes for a client, and
    /// 67,108,864 bytes (64 MiB) for all.
    pub const DEFAULT: Limits = Limits {
        message_seconds: 10,
        idle_seconds: 60,
        clients: 1_000,
        owed_bytes: 65_536,
        unsent_total_bytes: 67_108_864,
    };
}
