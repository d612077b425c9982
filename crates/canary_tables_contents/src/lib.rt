//! What the rows of the desk's tables stand for, when they are those of sound contents, and whether
//! what is stored of runs is what their measurements come to.
//!
//! Callers may rest on these laws (`laws`). Tables with just the rows of some contents are read as
//! these, if all of them can be read back; tables without rows hold empty contents. If tables hold
//! contents, a settled request finds what its statements ask for, and after them they hold the
//! contents with that request; under each key stands one row at most, and what is sought under it
//! is read of its rows, and none is left out. `writing` and `reading` turn values into what rows
//! have, and back; what stands for no value is `Broken`.
//!
//! In use (canary_tables, src/pages.rt):
//!
//!     match reading::line(row) {
//!         Ok(line) => Ok(push_line(lines, line.moment, line.event)?),
//!         Err(fault) => Err(store_fault(fault)),
//!     }
//!
//! And on these (`judged_laws`): the tables with just the rows of some sound contents are the sound
//! ones, and tables are judged exactly if they are sound. Callers, templates and services are
//! judged by what stands under each key that their rows name, and by how many rows there are; what
//! a run is bound to by its own rows of binding; measurements by counting one after another.
//! Whoever judges tables calls the law `judging`.
//!
//! In use (canary_tables, src/adopt.rt):
//!
//!     judging_laws::judging();
//!     schema_laws::one_reading();
//!     has_rows(conn, is_whole)?;
//!     validate(conn, alloc, progress)?;
//!
//! Measurements are counted anew: from `none_counted` on, `count_next` takes a measurement exactly
//! if it may come next (`IsNext`), and counts it; `are_of` holds exactly if the counts are the
//! tallies of the runs; `has_own_verdict` holds exactly if `HasOwnVerdict` does. The metrics of a
//! run are those of its own analysis.
//!
//! In use (canary_tables_adopt, src/one_service/measured.rt):
//!
//!     if count_next(runs, &mut counts, &measurement) {
//!         Ok(counts)
//!     } else {
//!         Err(ReadFault::Broken)
//!     }
#![tactic(auto)]

pub mod counting;
pub mod counts;
pub mod fault;
pub mod judged_laws;
pub mod laws;
pub mod reading;
pub mod verdicts;
pub mod writing;
