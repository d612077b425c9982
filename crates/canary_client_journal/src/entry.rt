//! What stands in a journal.

use canary_base::lists::Text;
use canary_base::names::Name;

/// What a caller wishes to be done.
#[derive(Drop)]
pub struct Wish {
    /// What was meant, by which a second call is known to mean the same.
    pub intent: Text,
    /// The key of the wish, if it has one: a key stands for one wish.
    pub key: Option<Text>,
    /// The body of the request, which is sent byte for byte each time.
    pub body: Text,
}

/// What was asked under one number.
#[derive(Drop)]
pub struct Asked {
    /// The wish.
    pub wish: Wish,
    /// The body that was asked in its place, under the same number, if one was.
    pub instead: Option<Text>,
}

/// The reply that settled a number.
#[derive(Drop)]
pub struct SettledReply {
    /// The status: 200 if the desk did it, 422 if it refused.
    pub status: u16,
    /// The body.
    pub body: Text,
    /// Whether it is the reply to the wish, although another body was asked in its place.
    pub is_late: bool,
}

/// A number that is settled, as far as the caller heard.
#[derive(Drop)]
pub struct SettledNumber {
    /// What was asked under it.
    pub asked: Asked,
    /// The reply.
    pub reply: SettledReply,
}

/// An entry of a journal.
#[derive(Drop)]
pub enum JournalEntry {
    /// The journal of this caller begins, of whom the desk had settled so many requests.
    Begun {
        /// The caller.
        caller: Name,
        /// How many.
        settled: u32,
    },
    /// A wish is asked under this number.
    Asked {
        /// The number.
        number: u32,
        /// The wish.
        wish: Wish,
    },
    /// Another body is asked in the place of the wish that is pending under this number.
    Instead {
        /// The number.
        number: u32,
        /// The body.
        body: Text,
    },
    /// The number is settled, with this reply.
    Settled {
        /// The number.
        number: u32,
        /// The reply.
        reply: SettledReply,
    },
}

/// Why an entry cannot stand next in a journal.
#[derive(Clone, Copy, Debug, PartialEq, Eq)]
pub enum EntryRefusal {
    /// A journal begins once.
    Begun,
    /// It has another number than the one whose turn it is.
    Number,
    /// A number is pending, so no other one is asked.
    Pending,
    /// No number is pending.
    NothingPending,
    /// Another body was asked in its place already.
    Replaced,
    /// No other body was asked in its place, so no reply comes late.
    NotReplaced,
    /// The key stands for another wish.
    KeyUsed,
    /// No number is left: the last one is 1,000,000,000.
    Spent,
}

/// Where a wish stands in a journal.
#[derive(Clone, Copy, Debug, PartialEq, Eq)]
pub enum WishPlace {
    /// It is settled, at this place, from 0.
    Settled(usize),
    /// It is pending.
    Pending,
    /// It is new, and may be asked.
    New,
    /// It is new, and another wish is pending.
    Behind,
    /// Its key stands for another wish.
    KeyUsed,
}
