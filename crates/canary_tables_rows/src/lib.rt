//! The rows of the desk's tables, each without its rowid: names, numbers and texts, as a person
//! reads them with `sqlite3`. What they stand for is not said here.
//!
//! Callers may rest on this: a row has the columns of its table, in order and by the same names;
//! the standing of a service, the ending of a run and the counts of a tally are such columns, too.
//! Which cells a row has in its table, canary_tables_schema defines.
//!
//! In use (canary_tables_read, src/held.rt):
//!
//!     let name = name_at(row, 0)?;
//!     let settled = number_at(row, 1)?;
//!     Some(CallerRow { name, settled })
#![tactic(auto)]

pub mod rows;
