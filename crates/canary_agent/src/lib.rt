//! An agent: it asks providers of measurements what a desk waits for, and reports each once.
//!
//! Callers may rest on this: a report says of each measurement what canary_measure makes of what
//! was measured, by the label of the desk's run, or a failure; a label that the plan does not have
//! is in no report; and a report is settled in the service's journal by a reply of the desk to it.
//! What providers, the desk and the network do, no clause says.
//!
//! In use (canary_cli_client, src/call.rt):
//!
//!     ClientCall::Agent(call) => agent(rt, call, input, output, errors, is_terminal),
#![tactic(auto)]

pub mod agent;
mod asking;
mod attended;
mod beginning;
mod ended;
mod files;
mod folders;
mod health;
mod hindrances;
mod journal;
mod late;
mod lines;
pub mod look;
mod options;
mod pauses;
pub mod plan;
mod planning;
pub mod query;
mod reader;
pub mod reporting;
mod rounds;
pub mod taken;
mod taking;
mod telling;
mod values;
mod watch;
