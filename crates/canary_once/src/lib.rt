//! The register: each settled request acts once, and keeps its reply.
//!
//! Callers may rest on this: over any `Book` whose store is honest, `post` is one step of the
//! answers that the small machine gives, `view` answers a query and changes nothing, and `run`
//! answers a whole list of events as the machine applied to the settled requests alone, each once,
//! in order. A 503 changed nothing, receipts are kept, and sound contents stay sound. The store of
//! a `MemoryBook` is always honest, and its one fault is `Memory`.
//!
//! In use (canary_files, src/answer.rt):
//!
//!     let command = Command::Report(report);
//!     RowReply::Answered(post(alloc, book, moment, caller, number, &command))
#![tactic(auto)]

pub mod book;
mod callers;
pub mod clock;
pub mod event;
pub mod history;
mod kept_desk;
mod kept_past;
mod kept_run;
mod kept_service;
pub mod laws;
pub mod memory;
pub mod post;
pub mod record;
mod revisions;
pub mod run;
mod services;
pub mod view;
mod view_past;
mod view_run;
mod view_text;
