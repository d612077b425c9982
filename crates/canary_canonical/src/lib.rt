//! The canonical texts of commands, in JSON, by which a store keeps them.
//!
//! Callers may rest on this: a command's text is read as the command, and no other text is, so two
//! commands have one text exactly if they are equal. Contracts see a `CanonicalCommand` as the
//! command, and it holds its text. Writing fails by `Memory` alone; reading answers `Unreadable`
//! only if the text is no command's.
//!
//! In use (canary_tables_contents, src/reading.rt):
//!
//!     match from_canonical(alloc, spec)? {
//!         Command::Service(spec) => Ok(spec),
//!         _ => Err(RowFault::Broken),
//!     }
#![tactic(auto)]

pub mod command;
mod direct;
pub mod form;
pub mod laws;
mod object;
mod parts;
pub mod plain;
pub mod reading;
mod report;
mod service;
mod service_reading;
mod template;
pub mod template_reading;
pub mod writing;
