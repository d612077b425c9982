//! Histories as text, and measurement files.
//!
//! Callers may rest on this: over any book whose store is honest `export` writes the file of a
//! service's measurements, or its first bytes if it fails, and leaves the book unchanged;
//! `import` makes one request of each row of such a file, in order, and writes a line for each.
//! `history_text` appends all lines, or, if memory runs out, nothing.
//!
//! In use (canary_programs, src/export.rt):
//!
//!     match canary_files::export::export(alloc, book, service, caller, out) {
//!         Ok(rows) => Ok(rows),
//!         Err(fault) => Err(fault.into()),
//!     }
#![tactic(auto)]

mod answer;
pub mod bounded;
pub mod export;
pub mod history;
pub mod import;
pub mod laws;
pub mod reading;
mod records;
pub mod row;
