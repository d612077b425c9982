//! The lines of another program, read without waiting for any.
use canary_fetch::local::LocalFault;
use mio::unix::SourceFd;
use mio::{Events, Interest, Poll, Token};
use std::alloc::{AllocError, Global};
use std::fs::{self, File, OpenOptions};
use std::io::{self, ErrorKind, Read};
use std::mem;
use std::net::Net;
use std::os::fd::{AsRawFd, RawFd};
use std::os::unix::fs::FileTypeExt;

// The name of standard input.
const INPUT: &str = "-";

// The descriptor of a process's standard input.
const STANDARD_INPUT: RawFd = 0;

// How many bytes are read at a time.
const INPUT_PIECE: usize = 16_384;

/// The most bytes of a line.
pub(crate) const MAX_LINE: usize = 4_096;

// What says whether a descriptor has bytes to read.
#[derive(Drop)]
struct ReadPoll {
    poll: Poll,
    events: Events<Global>,
    descriptor: RawFd,
}

impl ReadPoll {
    // The gate of a descriptor; none if the system has none for it, as for a file, of which a read
    // never waits.
    fn new<R: Net + AllocGlobal>(rt: &R, descriptor: RawFd) -> io::Result<Option<ReadPoll>> {
        let gate = ReadPoll {
            poll: Poll::new(rt)?,
            events: Events::with_capacity(rt.alloc(), 1)?,
            descriptor,
        };
        let registered = gate
            .poll
            .registry()
            .register(&mut SourceFd(&descriptor), Token(0), Interest::READABLE);
        match registered {
            Ok(()) => Ok(Some(gate)),
            Err(error) if is_exhausted(&error) => Err(error),
            Err(_) => Ok(None),
        }
    }

    // Whether a read does not wait.
    fn is_open(&mut self) -> io::Result<bool> {
        self.poll.registry().reregister(
            &mut SourceFd(&self.descriptor),
            Token(0),
            Interest::READABLE,
        )?;
        self.poll
            .poll(&mut self.events, Some(std::time::Duration::ZERO))?;
        Ok(self.events.iter().count() > 0)
    }
}

// Whether this machine has nothing left for a gate.
fn is_exhausted(error: &io::Error) -> bool {
    matches!(
        LocalFault::of(error),
        Some(LocalFault::Descriptors | LocalFault::Memory)
    )
}

// Where the lines come from.
#[derive(Drop)]
enum Origin {
    Input,
    File(File),
}

/// The lines of another program.
#[derive(Drop)]
pub(crate) struct LineReader {
    origin: Origin,
    gate: Option<ReadPoll>,
    held: Vec<u8>,
    // Whether the line that is held is too long, so that the rest of it is left out.
    is_too_long: bool,
    is_ended: bool,
    // Whether the last read failed.
    is_failing: bool,
    // Whether it was answered that one failed, and no byte came since.
    is_told: bool,
}

/// What a reader has.
#[derive(Drop)]
pub(crate) enum ReadLine {
    /// A line, without its end.
    Line(Vec<u8>),
    /// That a line was too long.
    TooLong,
    /// That no more comes.
    End,
    /// That it cannot be read now, which comes once until some bytes are read.
    Unreadable,
    /// Nothing now.
    Nothing,
}

// What came of a read.
#[derive(Clone, Copy)]
enum InputRead {
    // Some bytes more.
    More,
    // Nothing: that is the end.
    End,
    // Nothing now: a signal came first, or nothing is there.
    Interrupted,
    // The system cannot read it.
    Failed,
}

impl LineReader {
    /// The lines of the file of this name, a regular file or a FIFO; `-` is standard input, which
    /// `input` then has to be.
    ///
    /// # Errors
    /// What the system answers.
    pub(crate) fn open(rt: &HostRuntime, name: &str) -> io::Result<LineReader> {
        let origin = origin_of(rt, name)?;
        let descriptor = match &origin {
            Origin::Input => STANDARD_INPUT,
            Origin::File(file) => file.as_raw_fd(),
        };
        Ok(LineReader {
            gate: ReadPoll::new(rt, descriptor)?,
            origin,
            held: Vec::new(rt.alloc()),
            is_too_long: false,
            is_ended: false,
            is_failing: false,
            is_told: false,
        })
    }

    /// Whether the last read failed.
    pub(crate) fn is_failing(&self) -> bool {
        self.is_failing
    }

    /// The next line that is there.
    ///
    /// # Errors
    /// `AllocError` if an allocation was refused.
    pub(crate) fn next<R: Read>(
        &mut self,
        alloc: Global,
        input: &mut R,
    ) -> Result<ReadLine, AllocError> {
        for _ in 0..u64::MAX {
            if let Some(end) = self.held.as_slice().iter().position(|byte| *byte == b'\n') {
                return self.line_to(alloc, end);
            }
            self.shorten();
            if self.is_ended || !self.is_open() {
                return Ok(ReadLine::Nothing);
            }
            match self.read(input)? {
                InputRead::More => self.succeeded(),
                InputRead::End if self.has_an_end() => return self.rest(alloc),
                InputRead::End => return Ok(self.none_yet()),
                InputRead::Interrupted => return Ok(ReadLine::Nothing),
                InputRead::Failed => return Ok(self.failed()),
            }
        }
        Ok(ReadLine::Nothing)
    }

    // Some bytes were read.
    fn succeeded(&mut self) {
        self.is_failing = false;
        self.is_told = false;
    }

    // Nothing now: it was read to its end, and may grow.
    fn none_yet(&mut self) -> ReadLine {
        self.is_failing = false;
        ReadLine::Nothing
    }

    // That it cannot be read; nothing if that was answered before.
    fn failed(&mut self) -> ReadLine {
        self.is_failing = true;
        if mem::replace(&mut self.is_told, true) {
            return ReadLine::Nothing;
        }
        ReadLine::Unreadable
    }

    // Whether no more comes after its end: of standard input, and not of a file, which may grow.
    fn has_an_end(&self) -> bool {
        matches!(&self.origin, Origin::Input)
    }

    // The last line, if it has no end; else that no more comes.
    fn rest(&mut self, alloc: Global) -> Result<ReadLine, AllocError> {
        if self.held.is_empty() && !self.is_too_long {
            self.is_ended = true;
            return Ok(ReadLine::End);
        }
        let end = self.held.len();
        self.line_to(alloc, end)
    }

    // The line up to this place, which is held no more.
    fn line_to(&mut self, alloc: Global, end: usize) -> Result<ReadLine, AllocError> {
        let held = self.held.as_slice();
        let line = Vec::from_slice(alloc, held.get(..end).unwrap_or(&[]))?;
        let rest = Vec::from_slice(alloc, held.get(end.saturating_add(1)..).unwrap_or(&[]))?;
        self.held = rest;
        if self.is_too_long || line.len() > MAX_LINE {
            self.is_too_long = false;
            return Ok(ReadLine::TooLong);
        }
        Ok(ReadLine::Line(line))
    }

    // Forgets a line that is too long already.
    fn shorten(&mut self) {
        if self.held.len() > MAX_LINE {
            self.held.clear();
            self.is_too_long = true;
        }
    }

    // Whether a read does not wait; true without a gate, false if the system does not say.
    fn is_open(&mut self) -> bool {
        match &mut self.gate {
            Some(gate) => gate.is_open().unwrap_or(false),
            None => true,
        }
    }

    // Reads some bytes more.
    fn read<R: Read>(&mut self, input: &mut R) -> Result<InputRead, AllocError> {
        let mut piece = [0u8; INPUT_PIECE];
        let count = match &mut self.origin {
            Origin::Input => input.read(&mut piece),
            Origin::File(file) => file.read(&mut piece),
        };
        match count {
            Ok(0) => Ok(InputRead::End),
            Ok(count) => {
                self.held
                    .extend_from_slice(piece.get(..count).unwrap_or(&[]))?;
                Ok(InputRead::More)
            }
            Err(error) => Ok(without_bytes(error.kind())),
        }
    }
}

// What came of a read that the system refused.
fn without_bytes(kind: ErrorKind) -> InputRead {
    match kind {
        ErrorKind::Interrupted | ErrorKind::WouldBlock => InputRead::Interrupted,
        _ => InputRead::Failed,
    }
}

// A FIFO is opened to be written, too, so that it never ends, and no open waits.
fn origin_of(rt: &HostRuntime, name: &str) -> io::Result<Origin> {
    if name == INPUT {
        return Ok(Origin::Input);
    }
    let found = fs::metadata(rt, name)?;
    if found.is_dir() {
        return Err(ErrorKind::IsADirectory.into());
    }
    let is_fifo = found.file_type().is_fifo();
    let file = OpenOptions::new().read(true).write(is_fifo).open(rt, name)?;
    Ok(Origin::File(file))
}
