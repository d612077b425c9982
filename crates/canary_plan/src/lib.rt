//! What release engineers and metric agents ask for: analysis templates, the steps of a canary
//! strategy, the commands, the lines of a history, and why a command is refused.
//!
//! Callers may rest on this: `Template::bind` gives the conditions that a template's texts spell,
//! `Strategy::check` a strategy that names templates, and `Strategy::bind` the revisions of these,
//! and their metrics, for each of its analyses, each exactly if nothing refuses it; else the
//! first refusal that holds is answered (`Memory` aside). Each `Strategy` was checked.
//! Two commands are the same exactly if they are equal (`same_commands` of `laws`). The words of
//! a line are read as its event, and as no other.
//!
//! In use (canary_check, src/alone.rt):
//!
//!     match Template::bind(alloc, spec, 1) {
//!         Ok(_) => Ok(None),
//!         Err(BindFault::Refused(refusal)) => Ok(Some(refusal)),
//!         Err(BindFault::Memory) => Err(Memory),
//!     }
#![tactic(auto)]

pub mod analysis;
pub mod analysis_parts;
pub mod bound;
pub mod bound_analysis;
mod checking;
pub mod command;
pub mod fault;
mod labels;
pub mod laws;
pub mod line;
mod line_words;
mod names;
pub mod refusal;
pub mod report;
pub mod service;
pub mod step;
pub mod strategy;
pub mod template;
pub mod template_spec;
pub mod templates;
