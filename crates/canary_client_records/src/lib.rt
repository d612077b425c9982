//! A file of texts, each of which is there whole after a crash, or not at all.
//!
//! Each text has a gate before it, `+`, and an LF after it; a closed gate stands after the last
//! one. A text counts once its gate is opened, by a write of its own after the text is on the disk.
//!
//! Callers may rest on this: a text that was added is there after every crash, a crash while a text
//! is added leaves the file with it or without it, and a file that is cut short is refused.
//!
//! In use (canary_client_journal, src/kept.rt):
//!
//!     let line = lines::line(alloc, entry)?;
//!     store.append(alloc, &line)?;
#![tactic(auto)]

pub mod device;
pub mod file;
pub mod laws;
pub mod memory;
pub mod store;
pub mod texts;
