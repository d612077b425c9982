//! What a command line comes to: `perform` does what its words ask for, by `read_words` of
//! canary_cli_words, on a given input, output and error stream. It is the last step, which hands
//! the desk's programs to canary_cli_desk and the client's to canary_cli_client.
//!
//! Callers may rest on this: if the words are those of `pipe` in memory, what is written is what
//! it comes to on what was read, and the exit status says how it ended; if they are no
//! program's, the input is not read. What the others take from sockets and files no contract says.
//!
//! In use (canary_desk, src/main.rt):
//!
//!     Ok(words) if is_filled => perform(
//!         &rt,
//!         words.as_slice(),
//!         &mut rt.stdin(),
//!         &mut output,
//!         &mut errors,
//!         terminals,
//!     ),
#![tactic(auto)]

pub mod perform;
