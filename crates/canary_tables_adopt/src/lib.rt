//! Adopting tables: a desk's tables are judged row by row, by reads, before they are believed.
//!
//! Callers may rest on this: `validate` is Ok only if the rows are judged, which by
//! canary_tables_contents are those of sound contents, and `Broken` only if they are not, or a
//! program cannot hold one of them, and it changes nothing, if the connection is usable then
//! (canary_tables_schema). `bound_templates` finds the templates to which a run is bound.
//! `validate` reports to a `JudgingProgress` how many rows there are, and how many it has judged;
//! no contract mentions that.
//!
//! In use (canary_tables, src/adopt.rt):
//!
//!     has_rows(conn, is_whole)?;
//!     validate(conn, alloc, progress)?;
//!     Ok(())
#![tactic(auto)]

mod alone;
pub mod bindings;
mod callers;
mod fault;
mod one_service;
pub mod progress;
mod services;
mod strategies;
mod templates;
mod totals;
pub mod validate;
