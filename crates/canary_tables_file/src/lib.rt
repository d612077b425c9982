//! Connections to a desk's file.
//!
//! Callers may rest on this: a file that is made has the smallest pages that SQLite knows, and one
//! that is there keeps its own. At most 2,000 pages that were read stay in memory, and 8 MB of
//! them. The log is copied into the file from 4 MB of pages on, whatever their size. `open_store`
//! opens the store alone of a file that has tables and indexes and no more. Both report what is
//! read of the file, and what is reported changes nothing of what is read.
//!
//! In use (canary_tables, src/open.rt):
//!
//!     match connect(rt, path, reading.again(), start) {
//!         Ok(conn) => book_of(rt.alloc(), conn, progress),
//!         Err(error) => Err(open_fault(error)),
//!     }
#![tactic(auto)]

pub mod connect;
mod fault;
mod listing;
mod make;
mod options;
mod pages;
pub mod reading;
pub mod store;
