//! A client of the desk: it numbers commands, keeps them in a journal, repeats and resumes.
//!
//! Callers may rest on this: a number is settled in the caller's journal only by a reply of the
//! desk to what the journal asks under it, and `do` shows a reply only once the journal has it.
//! What comes of a call is its `ClientExit`, whose number is the exit status. What the desk and the
//! network do, no clause says.
//!
//! In use (canary_cli_client, src/call.rt):
//!
//!     ClientCall::Send { desk, csv } => send(rt, &desk, &csv, input, output, errors),
#![tactic(auto)]

pub mod ask;
mod clock;
pub mod due;
mod each;
pub mod endpoint;
pub mod get;
mod http;
pub mod journals;
pub mod outcome;
mod plain;
pub mod query;
mod report;
mod run_line;
pub mod send;
mod standing;
pub mod tcp;
pub mod watch;
mod wish;
