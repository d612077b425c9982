//! Lines for people, which nobody has to read for the desk to go on.
use mio::unix::SourceFd;
use mio::{Events, Interest, Poll, Token};
use std::alloc::Global;
use std::io::{self, ErrorKind, Write};
use std::net::Net;
use std::os::fd::RawFd;
use std::time::Duration;

// The descriptor of a process's standard error.
const STANDARD_ERROR: RawFd = 2;

// The most bytes of one write: a pipe that is ready takes these at once (PIPE_BUF).
const MAX_BYTES: usize = 4_096;

// What says whether a descriptor is ready.
#[derive(Drop)]
struct Gate {
    poll: Poll,
    events: Events<Global>,
    descriptor: RawFd,
}

impl Gate {
    // The gate of a descriptor; none if the system has none for it, as for a file, which is always
    // ready.
    fn new<R: Net + AllocGlobal>(rt: &R, descriptor: RawFd) -> Option<Gate> {
        let poll = Poll::new(rt).ok()?;
        let events = Events::with_capacity(rt.alloc(), 1).ok()?;
        poll.registry()
            .register(&mut SourceFd(&descriptor), Token(0), Interest::WRITABLE)
            .ok()?;
        Some(Gate {
            poll,
            events,
            descriptor,
        })
    }

    // Whether the descriptor takes bytes without a wait.
    fn is_open(&mut self) -> io::Result<bool> {
        self.poll.registry().reregister(
            &mut SourceFd(&self.descriptor),
            Token(0),
            Interest::WRITABLE,
        )?;
        self.poll.poll(&mut self.events, Some(Duration::ZERO))?;
        Ok(self.events.iter().count() > 0)
    }
}

/// A process's standard error, on which no write waits: one that would wait fails with
/// `WouldBlock`.
#[derive(Drop)]
pub struct Unblocked<'a, F> {
    errors: &'a mut F,
    gate: Option<Gate>,
}

impl<'a, F: Write> Unblocked<'a, F> {
    /// The same writer, which has to be the standard error of this process, without waiting.
    pub fn new<R: Net + AllocGlobal>(rt: &R, errors: &'a mut F) -> Unblocked<'a, F> {
        Unblocked {
            errors,
            gate: Gate::new(rt, STANDARD_ERROR),
        }
    }
}

impl<F: Write> Write for Unblocked<'_, F> {
    // Writes at most `MAX_BYTES`, or fails with `WouldBlock` if that would wait.
    fn write(&mut self, buf: &[u8]) -> io::Result<usize> {
        let is_open = match &mut self.gate {
            Some(gate) => gate.is_open()?,
            None => true,
        };
        if !is_open {
            return Err(ErrorKind::WouldBlock.into());
        }
        self.errors.write(&buf[..buf.len().min(MAX_BYTES)])
    }

    // Flushes the writer, without a look at the gate.
    fn flush(&mut self) -> io::Result<()> {
        self.errors.flush()
    }
}
