//! Releases: a service's status and weight, how time passes for it, and what each command decides.
//!
//! Callers may rest on this: `decide` is one step of the small machine, on every desk that has the
//! service handed in, or none, under the name that the command names, and whose newest revisions
//! agree with the templates handed in on the names that the command looks up; a refusal changes
//! nothing; `passed` takes a service to the end of the longest chain of moves; both fail by
//! `Memory` alone. The machine keeps a desk in order, and one in order sound (`laws`).
//!
//! In use (canary_once, src/post.rt):
//!
//!     let service = book.service(&command.subject())?;
//!     let names = names_looked_up(alloc, command, service.as_ref())?;
//!     let templates = book.templates(names.as_slice())?;
//!     Ok(decide(alloc, &templates, service.as_ref(), moment, command)?)
#![tactic(auto)]

pub mod decide;
pub mod effect;
mod effect_log;
pub mod laws;
pub mod parts;
pub mod reply;
mod report_reply;
mod rules;
pub mod runs;
pub mod service;
pub mod state;
mod transition;
mod words;
