//! The book in memory: what stories leave, with moments that fall, which no program gives it; pages
//! of measurements, which no request or query asks for; and what it answers. Each test holds as
//! well if any one allocation is refused.

use crate::rows::{B, check, cut, event, found, is_right, made, moment, name};
use crate::sending::{answer, has_status, parts, send_story, settled};
use canary_base::moments::Moment;
use canary_base::numbers::Number;
use canary_once::book::{Book, Receipt};
use canary_once::event::{Answer, Event};
use canary_once::memory::MemoryBook;
use canary_once::post::post;
use canary_once::record::RunRecord;
use canary_once::view::view;
use canary_release::effect::Recorded;
use canary_release::service::Service;
use canary_release::state::ReleaseState;
use std::alloc::Global;
use std::process::Abort;

/// Stories, each after the state in which it leaves the service web, and the seconds of the last
/// moment that it has seen and of that at which it entered its step.
const STORIES: &str = concat!(
    r#"done 0"#,
    "\n",
    r#"200 ops 1 0 {"service":{"analysis":null,"name":"web","steps":[{"setWeight":20},"#,
    r#"{"pause":null}],"version":"v1"}}"#,
    "\n\n",
    r#"in-progress 0"#,
    "\n",
    r#"200 ops 1 0 {"service":{"analysis":null,"name":"web","steps":[{"setWeight":20},"#,
    r#"{"pause":null}],"version":"v1"}}"#,
    "\n",
    r#"200 ops 2 0 {"start":{"service":"web","version":"v2"}}"#,
    "\n\n",
    r#"aborted 0"#,
    "\n",
    r#"200 ops 1 0 {"service":{"analysis":null,"name":"web","steps":[{"setWeight":20},"#,
    r#"{"pause":null}],"version":"v1"}}"#,
    "\n",
    r#"200 ops 2 0 {"start":{"service":"web","version":"v2"}}"#,
    "\n",
    r#"200 ops 3 0 {"abort":{"service":"web"}}"#,
    "\n\n",
    r#"done 9"#,
    "\n",
    r#"200 ops 1 9 {"service":{"analysis":null,"name":"web","steps":[{"pause":null}],"#,
    r#""version":"v1"}}"#,
    "\n",
    r#"200 ops 2 0 {"start":{"service":"web","version":"v2"}}"#,
    "\n",
    r#"200 ops 3 1 {"promote":{"service":"web"}}"#
);

fn word(state: ReleaseState) -> &'static str {
    match state {
        ReleaseState::InProgress => "in-progress",
        ReleaseState::Aborted => "aborted",
        ReleaseState::Done => "done",
    }
}

fn stands(service: Option<&Service>, state: &str, at: Moment) -> Option<bool> {
    let service = service?;
    Some(word(service.state()) == state && service.last() == at && service.entered() == at)
}

/// Whether the service web is left so; none if memory was refused.
fn is_left(book: &mut MemoryBook, told: &str) -> Option<bool> {
    let (state, after) = told.split_once(' ')?;
    let at = moment(after)?;
    let web = name("web")?;
    stands(found(&book.service(&web)), state, at)
}

fn check_left(rt: &impl Abort, book: &mut MemoryBook, told: &str) {
    let first = is_left(book, told);
    check(rt, is_right(first, is_left(book, told)), told);
}

#[test]
fn what_stories_leave(rt: HostRuntime) {
    for story in STORIES.split("\n\n") {
        let (told, rows) = cut(story, '\n');
        check_left(&rt, &mut send_story(&rt, rt.alloc(), rows), told);
    }
}

/// A release in its second run, with a measurement of each.
pub(crate) const RELEASE: &str = concat!(
    r#"200 ops 1 0 {"template":{"dryRun":[],"metrics":[{"consecutiveErrorLimit":4,"#,
    r#""count":3,"failureCondition":null,"failureLimit":0,"inconclusiveLimit":0,"#,
    r#""initialDelay":0,"interval":60,"name":"m","successCondition":"result>9"}],"#,
    r#""name":"t"}}"#,
    "\n",
    r#"200 ops 2 0 {"service":{"analysis":null,"name":"web","steps":[{"setWeight":10},"#,
    r#"{"analysis":["t"]},{"setWeight":60},{"pause":null}],"version":"v1"}}"#,
    "\n",
    r#"200 ops 3 0 {"start":{"service":"web","version":"v2"}}"#,
    "\n",
    r#"200 agent 1 0 {"report":{"entries":[{"metric":"m","ordinal":1,"result":5,"#,
    r#""taken":1767225600}],"run":1,"service":"web"}}"#,
    "\n",
    r#"200 ops 4 0 {"retry":{"service":"web"}}"#,
    "\n",
    r#"200 agent 2 0 {"report":{"entries":[{"metric":"m","ordinal":1,"result":10,"#,
    r#""taken":1767225600}],"run":2,"service":"web"}}"#
);

/// The same without a limit, and with two failures.
const TWO_RUNS: &str = concat!(
    r#"200 ops 1 0 {"template":{"dryRun":[],"metrics":[{"consecutiveErrorLimit":4,"#,
    r#""count":null,"failureCondition":null,"failureLimit":0,"inconclusiveLimit":0,"#,
    r#""initialDelay":0,"interval":null,"name":"m","successCondition":"result>9"}],"#,
    r#""name":"t"}}"#,
    "\n",
    r#"200 ops 2 0 {"service":{"analysis":null,"name":"web","steps":[{"setWeight":10},"#,
    r#"{"analysis":["t"]},{"setWeight":60},{"pause":null}],"version":"v1"}}"#,
    "\n",
    r#"200 ops 3 0 {"start":{"service":"web","version":"v2"}}"#,
    "\n",
    r#"200 agent 1 0 {"report":{"entries":[{"metric":"m","ordinal":1,"result":5,"#,
    r#""taken":1767225600}],"run":1,"service":"web"}}"#,
    "\n",
    r#"200 ops 4 0 {"retry":{"service":"web"}}"#,
    "\n",
    r#"200 agent 2 0 {"report":{"entries":[{"metric":"m","ordinal":1,"result":5,"#,
    r#""taken":1767225600}],"run":2,"service":"web"}}"#
);

/// What is then asked, with the status of its answer; and what is asked after that, if the release
/// goes on, and if it is aborted.
const ASKED: &str = concat!(
    r#"200 ? 0 service web"#,
    "\n",
    r#"200 ? 0 history web"#,
    "\n",
    r#"200 ? 0 run web 1"#,
    "\n",
    r#"404 ? 0 run web 3"#,
    "\n",
    r#"200 ops 3 0 {"start":{"service":"web","version":"v2"}}"#
);

const ABORTED: &str = r#"200 ops 5 0 {"abort":{"service":"web"}}"#;

const NOT_ABORTED: &str = r#"422 ops 5 0 {"abort":{"service":"web"}}"#;

fn answer_by_kind(alloc: Global, book: &mut MemoryBook, event: &Event) -> Answer {
    match event {
        Event::Query { moment, query } => view(alloc, book, *moment, query),
        Event::Request(it) => post(alloc, book, it.moment, it.caller, it.number, &it.command),
    }
}

fn has_answer(
    alloc: Global,
    book: &mut MemoryBook,
    event: Option<&Event>,
    status: u16,
) -> Option<bool> {
    has_status(Some(&answer_by_kind(alloc, book, event?)), status)
}

/// Whether a row is answered by the function for its kind; none if memory was refused.
fn is_answered(alloc: Global, book: &mut MemoryBook, row: &str) -> Option<bool> {
    let (status, asked) = parts(row)?;
    has_answer(alloc, book, event(alloc, asked).as_ref(), status)
}

/// Whether a row's answer among others has its status, and so has its copy; none if memory was
/// refused.
fn is_copied(alloc: Global, book: &mut MemoryBook, row: &str) -> Option<bool> {
    let (status, asked) = parts(row)?;
    has_copy(alloc, answer(alloc, book, asked).as_ref(), status)
}

fn has_copy(alloc: Global, answer: Option<&Answer>, status: u16) -> Option<bool> {
    let answer = answer?;
    is_copy(answer, made(&answer.copy(alloc)), status)
}

fn is_copy(answer: &Answer, copy: Option<&Answer>, status: u16) -> Option<bool> {
    let copy = copy?;
    let is_status = has_status(Some(answer), status)?;
    Some(is_status && copy.status() == status && copy.body() == answer.body())
}

/// Whether the receipt of the start has a copy; none if memory was refused.
fn has_receipt(alloc: Global, book: &mut MemoryBook) -> Option<bool> {
    let (caller, number) = (name("ops")?, Number::new(3)?);
    is_receipt_copied(alloc, found(&book.receipt(&caller, number)))
}

fn is_receipt_copied(alloc: Global, kept: Option<&Receipt>) -> Option<bool> {
    let kept = kept?;
    is_receipt(kept, made(&kept.copy(alloc)))
}

fn is_receipt(kept: &Receipt, copy: Option<&Receipt>) -> Option<bool> {
    let copy = copy?;
    Some(copy.command.is_same(&kept.command) && copy.reply.status.code() == 200)
}

/// Whether the first run has a copy; none if memory was refused.
fn has_record(alloc: Global, book: &mut MemoryBook) -> Option<bool> {
    let (web, number) = (name("web")?, Number::new(1)?);
    is_run_copied(alloc, found(&book.run(&web, number)))
}

fn is_run_copied(alloc: Global, run: Option<&RunRecord>) -> Option<bool> {
    is_first_run(made(&run?.copy(alloc)))
}

fn is_first_run(copy: Option<&RunRecord>) -> Option<bool> {
    let copy = copy?;
    let is_closed = copy.number == 1 && copy.step == Some(1) && copy.closed.is_some();
    Some(is_closed && copy.started.get() == B && copy.tallies.as_slice().len() == 1)
}

/// Whether an event has a copy; none if memory was refused.
fn is_event(alloc: Global) -> Option<bool> {
    let asked = r#"ops 5 0 {"abort":{"service":"web"}}"#;
    is_event_copied(alloc, event(alloc, asked).as_ref())
}

fn is_event_copied(alloc: Global, event: Option<&Event>) -> Option<bool> {
    is_request(made(&event?.copy(alloc)))
}

fn is_request(copy: Option<&Event>) -> Option<bool> {
    match copy? {
        Event::Request(request) => Some(request.number.get() == 5),
        Event::Query { .. } => Some(false),
    }
}

/// What the calls of `of_book` try, in their order.
const CALLS: &str = "\
the copy of a receipt
the copy of a run
how many requests are settled
the copy of an event";

/// The calls on the book, once the rows are answered.
fn of_book(alloc: Global, book: &mut MemoryBook, call: usize) -> Option<bool> {
    match call {
        0 => has_receipt(alloc, book),
        1 => has_record(alloc, book),
        2 => Some(settled(book)? == 5),
        _ => is_event(alloc),
    }
}

/// The run and the ordinal of a measurement; zeros if there is none.
fn place(measured: Option<&Recorded>) -> (u32, u32) {
    match measured {
        Some(measured) => (measured.run, measured.ordinal),
        None => (0, 0),
    }
}

/// How many measurements a page has, and which are its first and its last; none if memory was
/// refused.
fn page(book: &mut MemoryBook, from: u64, most: u32) -> Option<(usize, (u32, u32), (u32, u32))> {
    let page = book.measurements(&name("web")?, from, most).ok()?;
    let page = page.as_slice();
    Some((page.len(), place(page.first()), place(page.last())))
}

fn check_row(rt: &impl Abort, alloc: Global, book: &mut MemoryBook, row: &str) {
    let first = is_answered(alloc, book, row);
    check(rt, is_right(first, is_answered(alloc, book, row)), row);
    let first = is_copied(alloc, book, row);
    check(rt, is_right(first, is_copied(alloc, book, row)), row);
}

/// Whether a page from a place on, of so many measurements at most, is so.
fn check_page(
    rt: &impl Abort,
    book: &mut MemoryBook,
    (from, most): (u64, u32),
    told: (usize, (u32, u32), (u32, u32)),
    what: &str,
) {
    let found = page(book, from, most).or(page(book, from, most));
    check(rt, found == Some(told), what);
}

fn check_pages(rt: &impl Abort, book: &mut MemoryBook) {
    let (first, second) = ((1, 1), (2, 1));
    check_page(rt, book, (0, 256), (2, first, second), "a page of all");
    check_page(rt, book, (1, 1), (1, second, second), "the last page");
    let none = (0, (0, 0), (0, 0));
    check_page(rt, book, (u64::MAX, u32::MAX), none, "a page past the last");
}

fn check_book(rt: &impl Abort, alloc: Global, book: &mut MemoryBook, last: &str) {
    check_pages(rt, book);
    for row in ASKED.lines() {
        check_row(rt, alloc, book, row);
    }
    check_row(rt, alloc, book, last);
    for (call, what) in CALLS.lines().enumerate() {
        let first = of_book(alloc, book, call);
        check(rt, is_right(first, of_book(alloc, book, call)), what);
    }
}

fn check_story(rt: &impl Abort, alloc: Global, story: &str, last: &str) {
    check_book(rt, alloc, &mut send_story(rt, alloc, story), last);
}

#[test]
fn of_books(rt: HostRuntime) {
    check_story(&rt, rt.alloc(), TWO_RUNS, NOT_ABORTED);
    check_story(&rt, rt.alloc(), RELEASE, ABORTED);
}
