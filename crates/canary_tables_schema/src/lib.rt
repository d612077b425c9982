//! The schema of the desk's database, and when a database stores rows.
//!
//! Callers may rest on this: outside of a transaction `create`, on an empty database, makes a
//! desk's tables in one transaction or does nothing, and stays outside of one. `is_desk` and
//! `is_empty` say exactly whether a schema is a desk's, in one of the three layouts of its trees,
//! or none. `reopen` keeps the database; the rows of a desk's are then known to stand in the order
//! of their rowids. All this if the connection is usable then: its disk did not fail.
//!
//! In use (canary_tables, src/create.rt):
//!
//!     match create::create(&mut conn) {
//!         Ok(()) => Ok(TableBook {
//!             alloc,
//!             conn,
//!             notes: Notes::none(),
//!             cache: Cache::new(alloc, DEFAULT_ROOM),
//!         }),
//!         Err(fault) => Err((fault.into(), conn)),
//!     }
#![tactic(auto)]

mod columns;
pub mod create;
pub mod fault;
pub mod first;
pub mod laws;
pub mod numbers;
mod parts;
pub mod recognize;
pub mod remake;
pub mod reopen;
mod tables;
mod whole;
