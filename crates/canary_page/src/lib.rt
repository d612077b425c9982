//! The services of a desk as one page of HTML for people: what `canary page` draws.
//!
//! Callers may rest on this: a page is made of the tags and the attributes of two closed lists, of
//! numbers, of the page's own head and style sheet, and of escaped texts. So whatever texts a book
//! has, `<`, `>`, `&` and quotes come from the page's own writing alone; a page has no script, and
//! nothing in it is fetched. What a page shows no contract says. Nor does one say what a value in
//! JSON has of a service; its texts are escaped by the kit's crate `json`.
//!
//! In use (canary_programs, src/page.rt):
//!
//!     match draw(alloc, book, names, view, out, progress) {
//!         Ok(()) => Ok(()),
//!         Err(fault) => Err(fault.into()),
//!     }
#![tactic(auto)]

mod charts;
pub mod fault;
mod frame;
mod groups;
mod index;
mod jobs;
mod key;
pub mod late;
pub mod page;
mod parts;
pub mod progress;
mod reading;
pub mod records;
mod shown;
mod time;
pub mod unmeasured;
mod words;
