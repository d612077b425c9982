//! Texts of others as a terminal shows them.
//!
//! Callers may rest on this: no character of a text that `text::shown` makes is one that a terminal
//! obeys, and a text without such characters is itself.
//!
//! In use (canary_cli_desk, src/fault_place.rt):
//!
//!     if let Ok(line) = shown(alloc, line, TextKind::Line) {
//!         let _ = errors.write_all(line.as_bytes());
//!         let _ = errors.write_all(b"\n");
//!     }
#![tactic(auto)]

pub mod laws;
pub mod text;
