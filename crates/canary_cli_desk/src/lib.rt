//! What the desk's programs do: those that serve a desk, and those that work on a desk's file. Each
//! opens its book and hands it to canary_programs. Those that write close it, so that the log is
//! copied into the file.
//!
//! Callers may rest on this: `pipe` in memory writes what it comes to on what was read; `history`
//! and `export` look at the names that they are given before they open a file; `pipe`, `serve`,
//! `import`, `history` and `export` make a file that is not there, unless its log is, and `status`,
//! `page`, `backup` and `migrate` make none. What the file of a name holds no contract says, so
//! what comes of it else is in the contracts of canary_tables and canary_migrate, and of
//! canary_programs, over any book.
//!
//! In use (canary_cli, src/perform.rt):
//!
//!     let place = FaultPlace::of(rt.alloc(), &program, terminals.errors);
#![tactic(auto)]

mod backup;
mod checking;
mod exclusive_file;
pub mod export;
pub mod fault_place;
mod given;
pub mod history;
mod import;
mod line;
mod look;
mod migrate;
mod named;
mod open;
mod page;
mod pause;
mod pipe;
mod progress;
pub mod run;
mod seat;
mod serve;
mod shelf;
mod status;
mod succeed;
mod tables;
mod watched;
mod work;
