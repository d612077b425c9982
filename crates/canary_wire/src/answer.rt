//! Answering one message.
ghost use Rattle.std.specs.Prelude.{◌≡◌, ℕ, List, Ok};
ghost use Rattle.canary_base.specs.Writes.{Writes};
ghost use Rattle.canary_once.specs.Messages.{BookStep, HandledOne, desk_state};
ghost use Rattle.canary_wire.specs.Cut.{Message, IsFirst};
ghost use Rattle.canary_wire.specs.Dispositions.{HttpDisposition, HttpExchange};
ghost use Rattle.canary_wire.specs.Dispositions.{IsDisposition, IsExchange, IsRequest};
ghost use Rattle.canary_wire.specs.Dispositions.{reply_bytes, response_of};
ghost use Rattle.canary_wire.specs.Routes.{the_rows, IsAsked};

use crate::cut::MessageSpans;
use crate::rejection::Rejection;
use crate::reply::{Response, write_reply};
use crate::routes::{Address, Route, Wanted, asked_of};
use canary_base::moments::Moment;
use canary_base::writing::WriteFault;
use canary_manifest::command::{WireFault, command_from_json};
use canary_once::book::Book;
use canary_once::clock::Clock;
use canary_once::event::Query;
use canary_once::post::post;
use canary_once::view::view;
use matchit::Router;
use std::alloc::Global;
use std::io::Write;

// Answers the message that stands first in these bytes: the clock is asked once, the register is
// asked if the message is a request or a query, and then the reply is written.
pub(crate) fn answer<W: Write, C: Clock, B: Book>(
    alloc: Global,
    router: &Router<Route>,
    bytes: &[u8],
    parts: MessageSpans,
    writer: &mut W,
    clock: &mut C,
    book: &mut B,
) -> Result<(), WriteFault>
    requires message { (m : Message) × IsFirst bytes.now parts m }
    requires routes { router.now ≡ the_rows }
    ensures { (m : Message) → IsFirst bytes.now parts m → (x : HttpExchange) × (x.message ≡ m)
        × HandledOne IsExchange
        (desk_state (C.tells clock.old) (B.state book.old))
        (desk_state (C.tells clock.new) (B.state book.new)) x
        × Writes (W.contents writer.old) (W.contents writer.new) (reply_bytes x) result }
{
    let moment = clock.now();
    let method = parts.method.of(bytes);
    let target = parts.target.of(bytes);
    let body = &bytes[parts.len..parts.end];
    let response = handle(alloc, router, method, target, body, moment, book);
    write_reply(writer, &response, parts.is_last, parts.head_alone)
}

// Handles a message at a moment, and answers what its reply is to say.
fn handle<B: Book>(
    alloc: Global,
    router: &Router<Route>,
    method: &[u8],
    target: &[u8],
    body: &[u8],
    moment: Moment,
    book: &mut B,
) -> Response
    requires { router.now ≡ the_rows }
    ensures { (h : HttpDisposition) × (result ≡ response_of h)
        × IsDisposition method.now target.now body.now moment h
        × BookStep (B.state book.old) (B.state book.new) h }
{
    match asked_of(router, method, target) {
        Ok(Wanted::Request(address)) => handle_request(alloc, address, body, moment, book),
        Ok(Wanted::Query(query)) => handle_query(alloc, &query, moment, book),
        Err(rejection) => Response::Rejected(rejection),
    }
}

// The same if the message is a request.
fn handle_request<B: Book>(
    alloc: Global,
    address: Address,
    body: &[u8],
    moment: Moment,
    book: &mut B,
) -> Response
    ensures { (method target : List ℕ) → IsRequest method target address → (h : HttpDisposition)
        × (result ≡ response_of h) × IsDisposition method target body.now moment h
        × BookStep (B.state book.old) (B.state book.new) h }
{
    match command_from_json(alloc, body) {
        Ok(command) => {
            let answer = post(
                alloc,
                book,
                moment,
                address.caller,
                address.number,
                &command,
            );
            Response::Answered(answer)
        }
        Err(WireFault::Unsupported) => Response::Rejected(Rejection::Unsupported),
        Err(WireFault::Unreadable) => Response::Rejected(Rejection::Unreadable),
        Err(WireFault::Memory) => Response::NoMemory,
    }
}

// The same if the message is a query, whose body says nothing.
fn handle_query<B: Book>(alloc: Global, query: &Query, moment: Moment, book: &mut B) -> Response
    ensures { (method target body : List ℕ) → IsAsked method target (Ok (Wanted.Query query.now))
        → (h : HttpDisposition) × (result ≡ response_of h)
        × IsDisposition method target body moment h
        × BookStep (B.state book.old) (B.state book.new) h }
{
    Response::Answered(view(alloc, book, moment, query))
}
