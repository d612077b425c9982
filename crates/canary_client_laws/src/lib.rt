//! Laws over all senders: callers with scripts, whose requests come again and again, with gaps and
//! in any order; and a caller with a journal, over a network that loses, repeats and delays.
//!
//! Callers may rest on this, if each of them has a script: who numbers the commands of its script,
//! from 1 or on from the last request that was settled, and sends any of them as often as it likes,
//! settles a prefix of the script in order, whenever others send theirs; over contents that keep no
//! receipt of a conflict no reply says that a number was used for another command; and once the
//! request under the last number is answered as accepted or refused, the whole script is settled.
//! Between scripts that name no service in common and have no Template, the order in which requests
//! of one moment arrive does not matter. A caller who writes each command into a journal before it
//! sends it, and goes on once it heard that it is settled, has each of its numbers settled at most
//! once, in order, by a command that stands under it. A law does nothing: `laws::senders();` is for
//! a function whose proof wants it, of which there is none yet.
#![tactic(auto)]

pub mod laws;
