//! Lists of events.
ghost use Rattle.std.specs.Prelude.{◌≡◌, length, IfOk, OnErr, All};
ghost use Rattle.canary_once.specs.Contents.{KeepsReceipts};
ghost use Rattle.canary_once.specs.Sound.{AreSoundContents};
ghost use Rattle.canary_once.specs.BookCalls.{StaysInMemory};
ghost use Rattle.canary_once.specs.Answers.{answered_events, replies_in, answers_of, after};
ghost use Rattle.canary_once.specs.Single.{IsAnsweredBy, IsFaultOf};

use crate::book::Book;
use crate::event::{Answer, Event};
use crate::post::post;
use crate::view::view;
use canary_base::error::Memory;
use std::alloc::Global;

/// Answers events in order, once and in order: of those answered otherwise than by 503, the
/// answers and the contents afterwards are those of the small machine applied to the settled
/// requests alone, each once. The room of the answers is taken before the first event.
///
/// # Errors
/// `Memory` if there is no room for the answers; nothing was done.
pub fn run<B: Book>(alloc: Global, book: &mut B, events: &[Event]) -> Result<Vec<Answer>, Memory>
    ensures honest { (B.state book.new).is_honest → (B.state book.old).is_honest }
    ensures in_memory { StaysInMemory (B.state book.old) (B.state book.new) }
    ensures sure { ((B.state book.new).is_sure ≡ (B.state book.old).is_sure)
        × IfOk result (λ answers. All (IsFaultOf (B.state book.old).is_sure) answers.items) }
    ensures count { IfOk result (λ answers. length answers.items ≡ length events.now) }
    ensures answers { (B.state book.new).is_honest → IfOk result (λ answers.
        replies_in answers.items
        ≡ answers_of (B.state book.old).contents (answered_events events.now answers.items)) }
    ensures contents { (B.state book.new).is_honest → IfOk result (λ answers.
        (B.state book.new).contents
        ≡ after (B.state book.old).contents (answered_events events.now answers.items)) }
    ensures receipts { (B.state book.new).is_honest
        → KeepsReceipts (B.state book.old).contents (B.state book.new).contents }
    ensures sound { (B.state book.new).is_honest
        → AreSoundContents (B.state book.old).contents
        → AreSoundContents (B.state book.new).contents }
    ensures err { OnErr result (book.new ≡ book.old) }
{
    let mut answers = Vec::with_capacity(alloc, events.len())?;
    for event in events {
        let answer = answer(alloc, book, event);
        answers.push(answer)?;
    }
    Ok(answers)
}

// The answer to one event: by `post` if it is a request, by `view` if it is a query.
fn answer<B: Book>(alloc: Global, book: &mut B, event: &Event) -> Answer
    ensures { IsAnsweredBy (B.state book.old) (B.state book.new) event.now result }
{
    match event {
        Event::Request(request) => post(
            alloc,
            book,
            request.moment,
            request.caller,
            request.number,
            &request.command,
        ),
        Event::Query { moment, query } => view(alloc, book, *moment, query),
    }
}
