//! A settled request is written in a desk's tables: one transaction, or nothing.
//!
//! Callers may rest on this: if `commit` is done, in tables in which the request finds what it asks
//! for, and `is_bound` is right, they are those after the request, with its receipt; if it answers
//! a fault, they are as they were; both if the connection is usable then (canary_tables_schema). It
//! stands outside of a transaction, before and after.
//!
//! In use (canary_tables, src/settle.rt):
//!
//!     let is_bound = is_bound(conn, alloc, settlement, cached)?;
//!     commit(conn, alloc, settlement, is_bound)
//!
//! It stands on the statements over the desk's tables, one function a statement, each of which says
//! what it makes of the rows that the tables store. Inside a transaction each inserts its rows
//! after the others, or changes the one row of its key, if there is one; or it answers the error of
//! SQLite, and nothing is said of the tables in the transaction. What was committed before stays.
//! All this while the disk does not fail; what the transaction comes to is for whoever commits it.
#![tactic(auto)]

mod bindings;
mod cells;
pub mod commit;
mod effects;
pub mod fills;
pub mod inserts;
pub mod kinds;
pub mod updates;
