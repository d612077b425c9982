//! Copies of a desk's database, which two files are: the database's own and its log; and files that
//! have their name once they are whole.
//!
//! What files hold no contract says. Callers may rest on this: a `StagedCopy` is a whole copy,
//! which writes over no file and has its own names only once it is on the disk; an `OwnCopy` has
//! the commits of one moment, also while a desk serves the file. Why that is so, src/copying.rt
//! says. A `Draft` is its owner's alone until it has its name. Nobody else can put a file or a link
//! in the place of what is written, as far as src/folder.rt says.
//!
//! In use (canary_cli_desk, src/backup.rt):
//!
//!     let part = StagedCopy::of(rt, file, copy)?;
//!     let named = name_desk(rt, &part);
//!     if named.is_err() {
//!         part.remove(rt);
//!     }
#![tactic(auto)]

pub mod copying;
pub mod draft;
pub mod fault;
pub mod folder;
pub mod node;
pub mod series;
