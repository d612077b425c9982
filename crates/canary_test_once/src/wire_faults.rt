//! A store that fails once under a stream, at each of its calls.
use crate::rows::{check, is_right};
use crate::wire_conversation::seconds;
use canary_base::lists::Listed;
use canary_base::names::Name;
use canary_base::numbers::Number;
use canary_once::book::{Book, BookFault, Receipt, Settlement};
use canary_once::record::RunRecord;
use canary_plan::line::Line;
use canary_plan::templates::Templates;
use canary_release::effect::Recorded;
use canary_release::service::Service;
use canary_wire::serve::{Ended, ServeFault, serve};
use std::alloc::Global;

// A request that is sent twice.
const STREAM: &str = concat!(
    "PUT /callers/ops/requests/1 HTTP/1.1\r\nContent-Length: 29\r\n\r\n",
    r#"{"promote":{"service":"web"}}"#,
    "PUT /callers/ops/requests/1 HTTP/1.1\r\nContent-Length: 29\r\n\r\n",
    r#"{"promote":{"service":"web"}}"#
);

// What answers it if the store fails at first.
const REPLIES: &str = concat!(
    "HTTP/1.1 503 Service Unavailable\r\nContent-Type: application/json\r\n",
    "Content-Length: 18\r\n\r\n",
    r#"{"code":"storage"}"#,
    "HTTP/1.1 422 Unprocessable Content\r\nContent-Type: application/json\r\n",
    "Content-Length: 26\r\n\r\n",
    r#"{"code":"unknown-service"}"#
);

// A book with nothing settled, whose store fails once, at the call of this number.
#[derive(Clone, Copy)]
struct Failing {
    alloc: Global,
    calls: usize,
    fails: usize,
}

impl Failing {
    fn reach(&mut self) -> Result<(), BookFault> {
        self.calls = self.calls.saturating_add(1);
        if self.calls == self.fails {
            return Err(BookFault::Storage);
        }
        Ok(())
    }
}

impl Book for Failing {
    ghost use Rattle.std.specs.Prelude.{false};
    ghost use Rattle.canary_once.specs.Contents.{no_contents};

    ghost state = { λ _. record {
      contents = no_contents;
      is_honest = ⊥;
      is_in_memory = ⊥;
      is_sure = false;
    } };

    fn settled(&mut self, _: &Name) -> Result<u32, BookFault> {
        self.reach()?;
        Ok(0)
    }

    fn receipt(&mut self, _: &Name, _: Number) -> Result<Option<Receipt>, BookFault> {
        Err(BookFault::Storage)
    }

    fn templates(&mut self, _: &[Name]) -> Result<Templates, BookFault> {
        self.reach()?;
        Ok(Templates::new(self.alloc))
    }

    fn service(&mut self, _: &Name) -> Result<Option<Service>, BookFault> {
        self.reach()?;
        Ok(None)
    }

    fn history(&mut self, _: &Name) -> Result<Listed<Line>, BookFault> {
        Err(BookFault::Storage)
    }

    fn run(&mut self, _: &Name, _: Number) -> Result<Option<RunRecord>, BookFault> {
        Err(BookFault::Storage)
    }

    fn measurements(&mut self, _: &Name, _: u64, _: u32) -> Result<Listed<Recorded>, BookFault> {
        Err(BookFault::Storage)
    }

    fn commit(&mut self, _: Settlement) -> Result<(), BookFault> {
        self.reach()
    }
}

// Serves the stream over a store that fails at this call.
fn serve_failing(alloc: Global, written: &mut Vec<u8>, fails: usize) -> Result<Ended, ServeFault> {
    let mut stream = STREAM.as_bytes();
    let mut book = Failing {
        alloc,
        calls: 0,
        fails,
    };
    serve(alloc, &mut stream, written, &mut seconds(), &mut book)
}

fn tells_of_memory(written: &[u8]) -> bool {
    for window in written.windows(9) {
        if window == "no-memory".as_bytes() {
            return true;
        }
    }
    false
}

// Whether the failure was reported once, and the request was settled as it came again; none if
// memory was refused.
fn went_on(ended: Result<Ended, ServeFault>, written: &[u8]) -> Option<bool> {
    if ended == Err(ServeFault::Memory) || tells_of_memory(written) {
        return None;
    }
    Some(ended == Ok(Ended::EndOfInput) && written == REPLIES.as_bytes())
}

fn goes_on(alloc: Global, fails: usize) -> Option<bool> {
    let mut written = Vec::with_capacity(alloc, 1_000).ok()?;
    let ended = serve_failing(alloc, &mut written, fails);
    went_on(ended, &written)
}

// What a promotion asks of a book, in that order.
const CALLS: &str = "\
the count of its caller
the service
the templates
that it is settled";

#[test]
fn a_store_that_fails_once(rt: HostRuntime) {
    let alloc = rt.alloc();
    for (before, what) in CALLS.lines().enumerate() {
        let fails = before.saturating_add(1);
        check(
            &rt,
            is_right(goes_on(alloc, fails), goes_on(alloc, fails)),
            what,
        );
    }
}
