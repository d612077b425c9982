//! What comes to the desk over the wire.
//!
//! Callers may rest on this: over any reader, writer, clock and book `serve` cuts the bytes that it
//! reads into messages, in one way only, and writes their replies in order: each is a rejection
//! that the rules fix, a 503, or, if the store is honest, the register's answer at the clock's next
//! moment. Of a `Conversation` with one client all its turns say the same, whatever other clients
//! are answered between them.
//!
//! In use (canary_cli_desk, src/run.rt):
//!
//!     let mut clock = StepClock::new(at, step);
//!     let mut book = MemoryBook::new(alloc);
//!     done_of(canary_wire::serve::serve(alloc, input, output, &mut clock, &mut book))
#![tactic(auto)]

mod answer;
mod buffer;
pub mod conversation;
mod cut;
mod framing;
pub mod laws;
mod rejection;
mod reply;
mod routes;
pub mod serve;
mod write_buffer;
