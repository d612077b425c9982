//! A connection on which a message is sent and its reply is heard.
use crate::fault::ExchangeFault;
use crate::local::{LocalFault, is_exhausted};
use crate::reply::{HttpReply, Incoming};
use mio::net::TcpStream;
use mio::{Interest, Registry, Token};
use std::alloc::Global;
use std::io::{self, ErrorKind, Read, Write};
use std::net::{Net, SocketAddr};

// How many bytes are read at a time.
const PIECE: usize = 16_384;

// How often a connection is read in one turn, so that nobody who sends without a pause holds up the
// others.
const MAX_READS: u32 = 4;

// What one read brought.
#[derive(Drop)]
enum ReadProgress {
    // Some bytes, and the reply is not whole.
    More,
    // Nothing yet.
    Nothing,
    // The whole reply.
    Whole(HttpReply),
}

// A connection.
#[derive(Drop)]
pub(crate) struct Flight {
    stream: TcpStream,
    is_connected: bool,
    // How many bytes of the message were sent.
    sent: usize,
    incoming: Incoming,
    // Whether bytes may be left after its turn.
    has_more: bool,
}

impl Flight {
    // A connection that begins to be made, and is reported under this token.
    pub(crate) fn begun<R: Net>(
        rt: &R,
        alloc: Global,
        registry: &Registry,
        token: Token,
        address: SocketAddr,
    ) -> io::Result<Flight> {
        let mut stream = TcpStream::connect(rt, address)?;
        registry.register(&mut stream, token, both_ways())?;
        Ok(Flight {
            stream,
            is_connected: false,
            sent: 0,
            incoming: Incoming::new(alloc),
            has_more: false,
        })
    }

    // Its turn, after which it is reported once more if bytes may be left. None while the reply is
    // not whole.
    pub(crate) fn dispatch(
        &mut self,
        registry: &Registry,
        token: Token,
        message: &[u8],
    ) -> Result<Option<HttpReply>, ExchangeFault> {
        self.has_more = false;
        let told = self.turn(message);
        if self.is_reported(registry, token) {
            return told;
        }
        Err(ExchangeFault::Local(LocalFault::Memory))
    }

    // Its turn: it sends what can be sent of the message, and hears what came.
    fn turn(&mut self, message: &[u8]) -> Result<Option<HttpReply>, ExchangeFault> {
        self.look_at_connection()?;
        if !self.is_connected {
            return Ok(None);
        }
        self.send(message);
        self.hear()
    }

    // Has it reported once more, if bytes may be left. Says whether it is reported.
    fn is_reported(&mut self, registry: &Registry, token: Token) -> bool {
        !self.has_more
            || registry
                .reregister(&mut self.stream, token, both_ways())
                .is_ok()
    }

    // Notes whether the connection was made.
    fn look_at_connection(&mut self) -> Result<(), ExchangeFault> {
        if self.is_connected {
            return Ok(());
        }
        match self.stream.take_error() {
            Ok(None) => {
                self.is_connected = self.stream.peer_addr().is_ok();
                Ok(())
            }
            Ok(Some(error)) => Err(fault_or(&error, ExchangeFault::Refused)),
            Err(error) => Err(fault_or(&error, ExchangeFault::Refused)),
        }
    }

    // Sends what can be sent of the message. One that cannot be sent to its end may have a reply
    // all the same.
    fn send(&mut self, message: &[u8]) {
        'writes: for _ in 0..u64::MAX {
            let rest = message.get(self.sent..).unwrap_or(&[]);
            if rest.is_empty() || !self.send_some(rest) {
                return;
            }
        }
    }

    // Sends some of what is left. Says whether to try again at once.
    fn send_some(&mut self, rest: &[u8]) -> bool {
        match self.stream.write(rest) {
            Ok(count) => {
                self.sent = self.sent.saturating_add(count);
                count > 0
            }
            Err(error) => error.kind() == ErrorKind::Interrupted,
        }
    }

    // Hears what came, as far as one turn goes.
    fn hear(&mut self) -> Result<Option<HttpReply>, ExchangeFault> {
        'reads: for _ in 0..MAX_READS {
            match self.hear_some()? {
                ReadProgress::More => {}
                ReadProgress::Nothing => return Ok(None),
                ReadProgress::Whole(reply) => return Ok(Some(reply)),
            }
        }
        self.has_more = true;
        Ok(None)
    }

    // Hears the next piece.
    fn hear_some(&mut self) -> Result<ReadProgress, ExchangeFault> {
        let mut piece = [0u8; PIECE];
        match self.stream.read(&mut piece) {
            Ok(0) => Ok(ReadProgress::Whole(self.incoming.end()?)),
            Ok(count) => match self.incoming.take(piece.get(..count).unwrap_or(&[]))? {
                Some(reply) => Ok(ReadProgress::Whole(reply)),
                None => Ok(ReadProgress::More),
            },
            Err(error) => match error.kind() {
                ErrorKind::WouldBlock => Ok(ReadProgress::Nothing),
                ErrorKind::Interrupted => Ok(ReadProgress::More),
                _ => Err(fault_or(&error, ExchangeFault::Cut)),
            },
        }
    }
}

// What an error of a connection that was begun means: this, unless no memory is left for it.
fn fault_or(error: &io::Error, fault: ExchangeFault) -> ExchangeFault {
    if is_exhausted(error) {
        ExchangeFault::Local(LocalFault::Memory)
    } else {
        fault
    }
}

// What a connection is asked for.
fn both_ways() -> Interest {
    Interest::READABLE | Interest::WRITABLE
}
