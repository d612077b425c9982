//! Messages to many providers of measurements at once, over HTTP/1.1, by one thread.
//!
//! Callers may rest on this: each message that is taken in has one outcome, a reply or a fault; and
//! a reply is the one that the bytes which are given to it begin with, by the grammar of RFC 9112,
//! in whatever pieces they come. That a provider is asked, and when it answers, no contract says.
//!
//! In use (canary_agent, src/asking.rt):
//!
//!     match self.fetcher.start(rt, token, address, message, limit) {
//!         Ok(()) => Ok(Some(AskResult::Message(Message::new(token, provider)))),
#![tactic(auto)]

pub mod address;
pub mod fault;
pub mod fetcher;
mod flight;
mod heads;
pub mod laws;
pub mod local;
pub mod names;
pub mod query;
pub mod reply;
mod underway;
mod unread;
