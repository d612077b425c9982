//! The desk on a socket: many clients at once, each answered in order.
//!
//! Callers may rest on this: whatever clients send, and whoever stalls, floods or goes away, a book
//! whose store is honest is left as one `run` over the messages that were answered leaves it, and
//! what each client was sent is in its order. That anybody is served, and when, no contract says.
//!
//! In use (canary_programs, src/serve.rt):
//!
//!     match listener.serve(rt, connections, clock, book, errors) {
//!         Ok(()) => Ok(()),
//!         Err(fault) => Err(fault.into()),
//!     }
#![tactic(auto)]

mod client;
mod clients;
mod event_loop;
pub mod limits;
pub mod listener;
pub mod placed;
mod reports;
mod time_slice;
pub mod unblocked;
mod wait;
pub mod wall_clock;
