//! A desk's database of the first schema becomes one of the present schema.
//!
//! Callers may rest on this: `migrate` is one transaction. Of the rows that the first schema has of
//! sound contents it makes the rows of these contents, which it judges before it commits as `adopt`
//! judges a desk's. Any fault leaves the database as it was. All this if the connection is usable
//! then: its disk did not fail.
//!
//! In use (canary_cli_desk, src/migrate.rt):
//!
//!     let upgraded = upgrade(rt, file, check.again(), &mut shown);
//!     shown.end();
//!     upgraded.map_err(fault_of)
#![tactic(auto)]

mod fill;
pub mod laws;
pub mod migrate;
mod named;
mod plain;
mod plan;
mod tallies;
pub mod upgrade;
