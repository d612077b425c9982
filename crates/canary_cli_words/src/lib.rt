//! The words of a command line: `words_of` gives those of a process, and `read_words` says what
//! they ask for.
//!
//! Callers may rest on this: words in which clap finds no fault are read as the one program that
//! they spell, help is answered only if it is asked for, and what is wrong with words only if
//! something is (`Memory` aside). The texts themselves, and what `words_of` gives, no contract
//! says.
//!
//! In use (canary_cli, src/perform.rt):
//!
//!     match read_words(rt.alloc(), words) {
//!         Ok(program) => run_placed(rt, program, input, output, errors, terminals),
//!         Err(fault) => turn_away(&fault, output, errors),
//!     }
#![tactic(auto)]

mod client;
mod client_commands;
mod client_help;
mod commands;
mod help;
pub mod process;
pub mod unclear;
mod values;
pub mod words;
