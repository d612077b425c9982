//! What holds of every book over tables, in the terms of the crates below canary_tables alone.
//!
//! A book has a ghost member, which says what it contains and whether its store is honest, and each
//! clause on a book's values holds if it is. So this crate says, without a definition of
//! canary_tables, what that member is: a member that says less is refused here. Likewise what
//! `create` and `adopt` promise, what `migrate` of canary_migrate makes of a database of the first
//! schema, and what each fault becomes.
//!
//! Callers may rest on this: however a book over tables came about, it is honest exactly if its
//! connection is open and its disk did not fail, it contains what the rows of its tables say, and
//! its tables are just the rows of what it contains. A law does nothing:
//! `laws::table_books::<S>();` is for a function whose proof wants it, of which there is none yet.
#![tactic(auto)]

pub mod books;
pub mod laws;
pub mod migrate;
