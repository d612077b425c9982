//! Requests and queries in rows, sent to a book. What was answered 503 changed nothing, and is sent
//! again. The program shows the bodies of answers (tests/stories).
//!
//! A row is the status of its answer, and what is sent (rows.rt).

use crate::rows::{check, event, made, name, refused};
use canary_once::book::{Book, BookFault};
use canary_once::event::{Answer, Event};
use canary_once::memory::MemoryBook;
use canary_once::run::run;
use std::alloc::Global;
use std::process::Abort;
use std::slice;

/// The status of a row, and what it sends.
pub(crate) fn parts(row: &str) -> Option<(u16, &str)> {
    let (status, asked) = row.split_once(' ')?;
    Some((status.parse().ok()?, asked))
}

/// Whether an answer has this status; none if it is 503 for memory, or if there is none.
pub(crate) fn has_status(answer: Option<&Answer>, status: u16) -> Option<bool> {
    match answer? {
        Answer::Replied(reply) => Some(reply.status.code() == status),
        Answer::Unavailable(fault) => refused(*fault == BookFault::Memory),
    }
}

fn answer_to(alloc: Global, book: &mut MemoryBook, event: Option<&Event>) -> Option<Answer> {
    run(alloc, book, slice::from_ref(event?)).ok()?.pop()
}

fn answer_to_copy(alloc: Global, book: &mut MemoryBook, event: Option<&Event>) -> Option<Answer> {
    answer_to(alloc, book, made(&event?.copy(alloc)))
}

/// The answer to a copy of what is asked, or none if memory was refused before it.
pub(crate) fn answer(alloc: Global, book: &mut MemoryBook, asked: &str) -> Option<Answer> {
    answer_to_copy(alloc, book, event(alloc, asked).as_ref())
}

/// How many requests of the caller ops are settled.
pub(crate) fn settled(book: &mut MemoryBook) -> Option<u32> {
    book.settled(&name("ops")?).ok()
}

/// Whether the answer to a row has its status; none if memory was refused.
fn is_answered(alloc: Global, book: &mut MemoryBook, row: &str) -> Option<bool> {
    let (status, asked) = parts(row)?;
    has_status(answer(alloc, book, asked).as_ref(), status)
}

/// Whether a row is answered with its status, at once or when it is sent once more since memory was
/// refused: then nothing was settled. No more than one allocation is refused, so no more than one
/// row is sent twice.
fn is_sent(alloc: Global, book: &mut MemoryBook, row: &str, again: &mut u32) -> bool {
    let before = settled(book);
    if let Some(is_so) = is_answered(alloc, book, row) {
        return is_so;
    }
    *again = again.saturating_add(1);
    *again == 1 && settled(book) == before && is_answered(alloc, book, row) == Some(true)
}

fn send_rows(rt: &impl Abort, alloc: Global, book: &mut MemoryBook, story: &str) {
    let mut again = 0;
    for row in story.lines() {
        check(rt, is_sent(alloc, book, row, &mut again), row);
    }
}

/// Sends the rows of a story to a new book.
pub(crate) fn send_story(rt: &impl Abort, alloc: Global, story: &str) -> MemoryBook {
    let mut book = MemoryBook::new(alloc);
    send_rows(rt, alloc, &mut book, story);
    book
}
