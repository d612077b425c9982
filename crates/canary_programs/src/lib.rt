//! What programs do with a desk, whatever book it is kept in: over a book, a reader and a writer.
//!
//! Callers may rest on this: `write_history`, `export_rows`, `text_of_book`, `draw_page`,
//! `write_json` and `write_services` leave the book unchanged, and the first two write what one
//! whose store is honest reports of a service; `export_rows`, `import_rows`, `draw_page` and
//! `answer` do what canary_files, canary_page and canary_wire say of theirs, and `serve_clients`
//! gets from the desk before to the desk after as canary_listen says. Each fault has its line.
//!
//! In use (canary_cli_desk, src/history.rt):
//!
//!     write_history(rt.alloc(), book, self.service, &mut self.output)
//!
//! An overview is the services of a desk, and their open runs, as two tables for people, as JSON
//! for programs, or in the text format of Prometheus. No contract says what it has. Services stand
//! in it in the order in which they were added, each as it is once it has passed to its moment, and
//! a fault is `Memory` alone. In the format of Prometheus they stand so in each family; no sample
//! has a timestamp; if no service is added twice, no series stands twice; and the text ends with a
//! newline, as each other one that has a line.
#![tactic(auto)]

pub mod drafts;
pub mod export;
pub mod fault;
pub mod history;
pub mod import;
mod json;
pub mod overview;
pub mod page;
pub mod pipe;
mod prometheus;
pub mod serve;
pub mod show;
pub mod status;
pub mod succession;
mod table;
