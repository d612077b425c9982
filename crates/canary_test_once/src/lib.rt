//! The tests of the crates up to the listener (canary_listen), and of canary_decimal, that no
//! program can show: moments and machine's clocks that fall, copies and other calls that no program
//! makes, printed texts, decimals by exact fractions, conversations whose readers and writers would
//! block at each piece, and a store that fails once. Worked rows stand in the `proofs/Rows` of the
//! crates and in tests/stories, scripts try the rest with the program (tests/cli, tests/listener,
//! tests/client for journals and what is sent, tests/allocations for calls to which memory is
//! refused), and what a contract says is not tested again. The tests stand in one crate of their
//! own, so that no other crate is proved twice.
#![tactic(auto)]

#[cfg(test)]
mod copies;
#[cfg(test)]
mod decimals;
#[cfg(test)]
mod halves;
#[cfg(test)]
mod listen_wall_clock;
#[cfg(test)]
mod once;
#[cfg(test)]
mod rows;
#[cfg(test)]
mod sending;
#[cfg(test)]
mod wire_conversation;
#[cfg(test)]
mod wire_faults;
#[cfg(test)]
mod words;
