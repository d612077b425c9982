//! The journal of a caller at a desk: what it asked, under which numbers, and which replies it has;
//! and sending what is pending in it until it is settled.
//!
//! A journal is a list of entries: it begins with what the desk had settled of the caller, and goes
//! on with what the caller asked and with the replies that it received. Each entry is a line of
//! JSON, a text of canary_client_records. Nothing here opens a file or a socket.
//!
//! Callers may rest on this: one number is pending at most, each wish has the next number of its
//! caller, and a key stands for one wish. A file is read as the journal that its lines are, or it
//! is refused. An entry stands on the device before it is in the journal, and a crash at any moment
//! leaves the journal with it or without it; what is sent is what the journal asks under the number
//! that is pending, and is sent only once it stands on the device; and a number is settled in the
//! journal only by a reply that the network gave to one of these messages.
//!
//! In use (canary_client, src/journals.rt):
//!
//!     match settle(alloc, network, kept, tries) {
#![tactic(auto)]

pub mod entry;
pub mod journal;
pub mod kept;
pub mod laws;
pub mod lines;
pub mod meaning;
pub mod network;
pub mod reading;
pub mod settle;
