//! The reply that a connection brings, read from its bytes in whatever pieces they come.
ghost use Rattle.std.specs.Prelude.{◌≡◌, ◌≢◌, ◌<◌, ◌≤◌, ◌+◌, ◌++◌, List, [], ℕ, length, drop, Err};
ghost use Rattle.std.specs.Prelude.{IfOk, IfErr, OnOk, MatchOption};
ghost use Rattle.std.specs.Prelude.{vec_len};
ghost use Rattle.httparse.specs.Spans.{IsWithin, span_bytes};
ghost use Rattle.canary_fetch.specs.Unreads.{bytes_unread};
ghost use Rattle.canary_fetch.specs.Replies.{ReadsReply, HasNoReply};

use crate::fault::ExchangeFault;
use crate::heads::{Front, MAX_BODY, front_of};
use crate::unread::Unread;
use http1::chunked::ChunkError;
use http1::decode::{Decoded, Decoder};
use http1::{Limits, ReadError};
use httparse::Error;
use httparse::spans::{EMPTY_HEADER_SPAN, Span};
use std::alloc::Global;
use std::mem;

// The most fields after the last chunk. They are read and ignored.
const MAX_TRAILERS: usize = 16;

// The most bytes of the extensions of all chunks, which are ignored, and of the fields after them.
const LIMITS: Limits = Limits {
    max_head_len: 16_384,
    max_extensions_len: 16_384,
    max_trailers_len: 16_384,
};

/// A reply: its status, and its body as it was before it was cut into chunks.
#[derive(Drop)]
pub struct HttpReply {
    /// The status.
    pub status: u16,
    /// The body.
    pub body: Vec<u8>,
}

// What of a reply comes next.
#[derive(Clone, Copy)]
pub(crate) enum ReplyStage {
    // Its head.
    Head,
    // Its body, with what is still to come of it; the number is the status.
    Body(u16, Decoder),
}

// What one step of the reader came to.
#[derive(Clone, Copy)]
pub(crate) enum ParseProgress {
    // Another step may follow.
    Goes,
    // More bytes have to come.
    Waits,
    // The reply is whole, with this status.
    Ends(u16),
}

/// A reply that comes, as far as it came.
#[derive(Drop)]
pub struct Incoming {
    alloc: Global,
    stage: ReplyStage,
    unread: Unread,
    body: Vec<u8>,
    ghost small: { vec_len body ≤ 1048576 },
}

impl Incoming {
    ghost use Rattle.canary_fetch.specs.Reading.{IsReading, StepsTo, BeginsWith, IsRefusal};
    ghost use Rattle.canary_fetch.specs.Reading.{reply_heard, AwaitsMore, IsPart};
    ghost use Rattle.canary_fetch.specs.Replies.{response};

    /// A reply of which nothing came.
    pub fn new(alloc: Global) -> Incoming
        ensures { IsReading [] result }
    {
        Incoming {
            alloc,
            stage: ReplyStage::Head,
            unread: Unread::new(alloc),
            body: Vec::new(alloc),
        }
    }

    /// More bytes came. None while the reply is not whole; bytes that follow it are ignored.
    ///
    /// # Errors
    /// That of the bytes, after which this is of no more use: `TooLong`, `NotHttp` or `Coded`. Or
    /// `Memory`, also after 2^64 - 1 steps.
    pub fn take(&mut self, bytes: &[u8]) -> Result<Option<HttpReply>, ExchangeFault>
        ensures ok { (came : List ℕ) → IsReading came self.old → IfOk result (λ told.
            MatchOption told (AwaitsMore (came ++ bytes.now) self.new)
            (λ reply. BeginsWith (came ++ bytes.now) (reply_heard reply))) }
        ensures err { (came : List ℕ) → IsReading came self.old
            → IfErr result (IsRefusal (came ++ bytes.now)) }
    {
        if let Err(fault) = self.unread.add(bytes) {
            return Err(fault);
        }
        'steps: for _ in 0..u64::MAX {
            match self.step() {
                Ok(ParseProgress::Goes) => {}
                Ok(ParseProgress::Waits) => return Ok(None),
                Ok(ParseProgress::Ends(status)) => return Ok(Some(self.reply(status))),
                Err(fault) => return Err(fault),
            }
        }
        Err(ExchangeFault::Memory)
    }

    /// The connection ended, on the other side. That ends a body whose head does not say where it
    /// ends.
    ///
    /// # Errors
    /// `Cut` if the reply is not whole. `TooLong` or `Memory`.
    pub fn end(&mut self) -> Result<HttpReply, ExchangeFault>
        ensures ok { (came : List ℕ) → IsReading came self.old
            → IfOk result (λ reply. ReadsReply came (reply_heard reply) []) }
        ensures cut { (came : List ℕ) → IsPart came self.old.stage → result ≡ Err ExchangeFault.Cut
            → HasNoReply came }
    {
        match self.stage {
            ReplyStage::Body(status, decoder) => self.end_body(status, decoder),
            ReplyStage::Head => Err(ExchangeFault::Cut),
        }
    }

    // The connection ended in a body, of which so much was still to come.
    fn end_body(&mut self, status: u16, decoder: Decoder) -> Result<HttpReply, ExchangeFault>
        requires { self.old.stage ≡ ReplyStage.Body status decoder }
        ensures ok { (came : List ℕ) → IsReading came self.old
            → IfOk result (λ reply. ReadsReply came (reply_heard reply) []) }
        ensures cut { (came : List ℕ) → IsPart came self.old.stage → result ≡ Err ExchangeFault.Cut
            → HasNoReply came }
    {
        match decoder {
            Decoder::UntilClose => self.all(status),
            _ => Err(ExchangeFault::Cut),
        }
    }

    // The reply whose body is all that came.
    fn all(&mut self, status: u16) -> Result<HttpReply, ExchangeFault>
        requires { self.old.stage ≡ ReplyStage.Body status Decoder.UntilClose }
        ensures ok { (came : List ℕ) → IsReading came self.old
            → IfOk result (λ reply. ReadsReply came (reply_heard reply) []) }
        ensures whole { result ≢ Err ExchangeFault.Cut }
    {
        let rest = Span {
            start: 0,
            end: self.unread.as_slice().len(),
        };
        match self.keep(rest) {
            Ok(()) => Ok(self.reply(status)),
            Err(fault) => Err(fault),
        }
    }

    // Reads the next piece of what came.
    fn step(&mut self) -> Result<ParseProgress, ExchangeFault>
        ensures ok { (came : List ℕ) → IsReading came self.old
            → IfOk result (StepsTo came self.new) }
        ensures err { (came : List ℕ) → IsReading came self.old
            → IfErr result (IsRefusal came) }
    {
        match self.stage {
            ReplyStage::Head => self.read_head(),
            ReplyStage::Body(status, decoder) => self.read_body(status, decoder),
        }
    }

    // Reads a head, if it is whole.
    fn read_head(&mut self) -> Result<ParseProgress, ExchangeFault>
        requires { self.old.stage ≡ ReplyStage.Head }
        ensures ok { (came : List ℕ) → IsReading came self.old
            → IfOk result (StepsTo came self.new) }
        ensures err { (came : List ℕ) → IsReading came self.old
            → IfErr result (IsRefusal came) }
    {
        match front_of(self.unread.as_slice()) {
            Ok(Front::Part) => Ok(ParseProgress::Waits),
            Ok(Front::Interim(len)) => {
                self.unread.read(len);
                Ok(ParseProgress::Goes)
            }
            Ok(Front::Final(head)) => {
                let decoder = Decoder::new(head.framing, &LIMITS);
                self.go_on(head.status, decoder, head.len);
                Ok(ParseProgress::Goes)
            }
            Err(fault) => Err(fault),
        }
    }

    // Reads the next piece of a body.
    fn read_body(&mut self, status: u16, decoder: Decoder) -> Result<ParseProgress, ExchangeFault>
        requires { self.old.stage ≡ ReplyStage.Body status decoder }
        ensures ok { (came : List ℕ) → IsReading came self.old
            → IfOk result (StepsTo came self.new) }
        ensures err { (came : List ℕ) → IsReading came self.old
            → IfErr result (IsRefusal came) }
    {
        let mut decoder = decoder;
        let mut trailers = [EMPTY_HEADER_SPAN; MAX_TRAILERS];
        match decoder.decode(self.unread.as_slice(), &mut trailers) {
            Ok(Decoded::NeedMore(len)) => {
                self.go_on(status, decoder, len);
                Ok(ParseProgress::Waits)
            }
            Ok(Decoded::Data(piece)) => match self.keep(piece) {
                Ok(()) => {
                    self.go_on(status, decoder, piece.end);
                    Ok(ParseProgress::Goes)
                }
                Err(fault) => Err(fault),
            },
            Ok(Decoded::End { .. }) => Ok(ParseProgress::Ends(status)),
            Err(error) => Err(fault_of(error)),
        }
    }

    // So many bytes of the body were read, and the decoder says what is still to come.
    fn go_on(&mut self, status: u16, decoder: Decoder, count: usize)
        requires { count ≤ length (bytes_unread self.old.unread) }
        ensures stage { self.new.stage ≡ ReplyStage.Body status decoder }
        ensures unread { bytes_unread self.new.unread
            ≡ drop count (bytes_unread self.old.unread) }
        ensures body { self.new.body.items ≡ self.old.body.items }
    {
        self.unread.read(count);
        self.stage = ReplyStage::Body(status, decoder);
    }

    // Keeps a piece of the body that is among what was not read yet.
    fn keep(&mut self, piece: Span) -> Result<(), ExchangeFault>
        requires { IsWithin (length (bytes_unread self.old.unread)) piece }
        ensures body { OnOk result (self.new.body.items ≡ self.old.body.items
            ++ span_bytes (bytes_unread self.old.unread) piece) }
        ensures long { IfErr result (λ fault. fault ≢ ExchangeFault.Memory
            → 1048576 < length self.old.body.items
            + length (span_bytes (bytes_unread self.old.unread) piece)) }
        ensures whole { result ≢ Err ExchangeFault.Cut }
        ensures unread { bytes_unread self.new.unread ≡ bytes_unread self.old.unread }
        ensures stage { self.new.stage ≡ self.old.stage }
    {
        let piece = piece.of(self.unread.as_slice());
        if piece.len() > MAX_BODY - self.body.len() {
            return Err(ExchangeFault::TooLong);
        }
        match self.body.extend_from_slice(piece) {
            Ok(()) => Ok(()),
            Err(_) => Err(ExchangeFault::Memory),
        }
    }

    // The reply with this status, and with the body that was kept.
    fn reply(&mut self, status: u16) -> HttpReply
        ensures { reply_heard result ≡ response status self.old.body.items }
    {
        let body = mem::replace(&mut self.body, Vec::new(self.alloc));
        HttpReply { status, body }
    }
}

// What is reported of a body that cannot be read.
fn fault_of(error: ReadError) -> ExchangeFault {
    match error {
        ReadError::TooLarge
        | ReadError::Parse(Error::TooManyHeaders)
        | ReadError::Chunk(ChunkError::ExtensionsTooLong) => ExchangeFault::TooLong,
        _ => ExchangeFault::NotHttp,
    }
}
