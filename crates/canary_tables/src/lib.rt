//! A book whose contents are the rows of ten tables of SQLite: over an empty database (`create`),
//! over one that has a desk's tables (`adopt`), or over a file (`open`).
//!
//! Callers may rest on this: the book is a `Book`, honest if its connection is usable, so all that
//! is proved of one holds of it. `create` takes an empty database alone, and `adopt` one whose rows
//! are those of sound contents alone; a fault hands back the connection or its store, with the
//! database as it was. No contract says what `open` opens.
//!
//! In use (canary_cli_desk, src/work.rt):
//!
//!     let opened = TableBook::open(rt, file.name, &check, &mut shown);
//!     shown.end();
//!     on_opened(rt, place, opened, work, errors, is_terminal)
#![tactic(auto)]

pub mod adopt;
pub mod book;
mod cache;
mod cache_map;
mod cached;
pub mod create;
pub mod fault;
pub mod laws;
mod load;
mod load_plans;
mod load_runs;
mod load_services;
mod names;
mod notes;
pub mod open;
mod pages;
mod settle;
mod weights;
