//! Reading the desk's tables: each query answers just what its rows say.
//!
//! Callers may rest on this: a read answers exactly the rows that it asks for, in order, and at
//! most as many as it is asked for; it changes nothing and leaves no transaction open; all if the
//! connection is usable then (canary_tables_schema). `Broken` is answered only if some row of the
//! table is not one that a program can hold. `check_types` is Ok only if all rows are those of
//! tables, if its tallies are whole, and `Broken` only if they are not.
//!
//! In use (canary_tables, src/load.rt):
//!
//!     let settled = callers::settled(conn, caller)?;
//!     Ok(settled.unwrap_or(0))
#![tactic(auto)]

pub mod after;
pub mod callers;
pub mod check_types;
mod columns;
pub mod fault;
pub mod first;
mod from_row;
mod held;
pub mod histories;
pub mod lists;
pub mod meta;
pub mod metrics;
pub mod pages;
pub mod reader;
pub mod runs;
pub mod services;
