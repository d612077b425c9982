//! What tables of rows are written in. A request is the caller, its number, the seconds after B and
//! the canonical text of its command; a query is `?`, the seconds, and `service NAME`, `history
//! NAME` or `run NAME NUMBER`.

use canary_base::error::Memory;
use canary_base::moments::Moment;
use canary_base::names::Name;
use canary_base::numbers::Number;
use canary_canonical::reading::from_canonical;
use canary_once::book::BookFault;
use canary_once::event::{Event, Query, Request};
use canary_plan::command::Command;
use std::alloc::Global;
use std::fmt::Display;
use std::process::Abort;

/// 2026-01-01T00:00:00Z
pub(crate) const B: u64 = 1_767_225_600;

/// Whether a call that was made twice is right: each answer is, and one is there at least, since no
/// more than one allocation is refused.
pub(crate) fn is_right(first: Option<bool>, second: Option<bool>) -> bool {
    first.or(second) == Some(true) && second.or(first) == Some(true)
}

/// Ends the test if a row does not hold.
pub(crate) fn check(rt: &impl Abort, is_so: bool, row: &str) {
    assert!(rt; is_so, "{row}");
}

/// What a call made, where it stands: a large value costs the check least if it is not moved. None
/// if memory was refused.
pub(crate) fn made<T>(made: &Result<T, Memory>) -> Option<&T> {
    match made {
        Ok(made) => Some(made),
        Err(_) => None,
    }
}

/// What a book found, where it stands; none if that is nothing, or if memory was refused.
pub(crate) fn found<T>(found: &Result<Option<T>, BookFault>) -> Option<&T> {
    match found {
        Ok(Some(found)) => Some(found),
        _ => None,
    }
}

/// What a call counts for that answered a fault: none if that is `Memory`, and else it is wrong.
pub(crate) fn refused(is_memory: bool) -> Option<bool> {
    if is_memory { None } else { Some(false) }
}

/// What stands before the first of that mark, and what after it: nothing if there is none.
pub(crate) fn cut(text: &str, mark: char) -> (&str, &str) {
    text.split_once(mark).unwrap_or((text, ""))
}

/// The moment so many seconds after B.
pub(crate) fn moment(after: &str) -> Option<Moment> {
    Moment::new(B.checked_add(after.parse().ok()?)?)
}

/// The name that a text spells.
pub(crate) fn name(text: &str) -> Option<Name> {
    Name::read(text.as_bytes())
}

/// The command with that canonical text; none if it is no command's, or memory was refused.
pub(crate) fn command(alloc: Global, text: &str) -> Option<Command> {
    from_canonical(alloc, text).ok()
}

fn request(alloc: Global, asked: &str) -> Option<Request> {
    let (caller, asked) = cut(asked, ' ');
    let (number, asked) = cut(asked, ' ');
    let (after, asked) = cut(asked, ' ');
    Some(Request {
        moment: moment(after)?,
        caller: name(caller)?,
        number: Number::read(number.as_bytes())?,
        command: command(alloc, asked)?,
    })
}

fn query(asked: &str) -> Option<Query> {
    let (kind, of) = cut(asked, ' ');
    if kind == "run" {
        let (service, number) = cut(of, ' ');
        return Some(Query::Run(name(service)?, Number::read(number.as_bytes())?));
    }
    if kind == "history" {
        return name(of).map(Query::History);
    }
    name(of).map(Query::Service)
}

fn queried(asked: &str) -> Option<Event> {
    let (after, asked) = cut(asked, ' ');
    let moment = moment(after)?;
    let query = query(asked)?;
    Some(Event::Query { moment, query })
}

/// What a row sends; none if it sends nothing, or memory was refused.
pub(crate) fn event(alloc: Global, asked: &str) -> Option<Event> {
    match asked.strip_prefix("? ") {
        Some(asked) => queried(asked),
        None => request(alloc, asked).map(Event::Request),
    }
}

/// Whether the value is printed so; none if memory was refused.
pub(crate) fn says<T: Display>(alloc: Global, value: &T, words: &str) -> Option<bool> {
    Some(format!(in alloc; "{value}").ok()?.as_str() == words)
}
