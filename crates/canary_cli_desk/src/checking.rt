//! Showing how much of a file was read to check it, before its rows are judged.
use crate::line::{LINE_SECONDS, MEGABYTE, erase, write, write_unblocked};
use crate::pause::Pause;
use canary_tables_file::reading::ReadingProgress;
use std::alloc::{AllocError, Global};
use std::cell::Cell;
use std::rc::Rc;

// The bytes of a file of which a line says at once that nothing is read yet.
const LARGE: u64 = 16 * MEGABYTE;
/// How far a check is.
#[derive(Clone, Copy)]
struct CheckState {
    // The bytes that are read so far, and from how many on a line may be written.
    read: u64,
    next: u64,
    // How long no line is written if there is no terminal.
    pause: Pause,
    // Whether the line of a terminal says how far it is.
    is_drawn: bool,
    // Whether nothing is shown any more.
    is_over: bool,
}

impl CheckState {
    // The same, once so many bytes more are read.
    fn with_read(self, bytes: usize) -> CheckState {
        let read = self.read.saturating_add(bytes as u64);
        CheckState { read, ..self }
    }

    // The same, but no line may be written before a megabyte more is read.
    fn with_next(self) -> CheckState {
        let next = self.read.saturating_add(MEGABYTE);
        CheckState { next, ..self }
    }

    // Whether a line may be written.
    fn is_due(&self) -> bool {
        !self.is_over && self.next <= self.read
    }
}

/// Shows on the standard error of the process how many bytes SQLite has read to check a file, of
/// which size that is, until `end`. A check reads each page several times, so it reads some times
/// the bytes of a file. A terminal has one line, which is written anew. Elsewhere a line is written
/// below the others each second, and at once only of a large file. Such a line waits for nobody who
/// reads it: if it cannot be taken at once, it is left out. A fault of the stream, a clock that
/// cannot be read, and memory that is refused, are ignored.
#[derive(Drop)]
pub struct CheckDisplay {
    rt: HostRuntime,
    bytes: u64,
    is_terminal: bool,
    // None if nothing is shown.
    state: Option<Rc<Cell<CheckState>>>,
}

impl CheckDisplay {
    /// Shows the check of a file of so many bytes, which begins now.
    pub fn begun(rt: &HostRuntime, bytes: u64, is_terminal: bool) -> CheckDisplay {
        let state = CheckState {
            read: 0,
            next: MEGABYTE,
            pause: Pause::begun(rt, LINE_SECONDS),
            is_drawn: false,
            is_over: false,
        };
        let display = CheckDisplay {
            rt: *rt,
            bytes,
            is_terminal,
            state: Rc::new(rt.alloc(), Cell::new(state)).ok(),
        };
        if LARGE <= bytes {
            display.show_first();
        }
        display
    }

    /// Shows nothing.
    pub fn silent(rt: &HostRuntime) -> CheckDisplay {
        CheckDisplay {
            rt: *rt,
            bytes: 0,
            is_terminal: false,
            state: None,
        }
    }

    /// Shows nothing any more, and erases the line of a terminal, if there is one.
    pub fn end(&self) {
        let Some(shared) = &self.state else {
            return;
        };
        let state = shared.get();
        if state.is_drawn && !state.is_over {
            erase(&mut self.rt.stderr());
        }
        shared.set(CheckState {
            is_over: true,
            ..state
        });
    }

    // Says at once that nothing is read.
    fn show_first(&self) {
        if let Some(shared) = &self.state {
            shared.set(self.write_line(shared.get()));
        }
    }

    // Writes a line if that may be.
    fn shown_if_due(&self, state: CheckState) -> CheckState {
        let state = state.with_next();
        if self.is_terminal || state.pause.is_over(&self.rt) {
            self.write_line(state)
        } else {
            state
        }
    }

    // Writes the line of a terminal anew, or one below the others, and notes that.
    fn write_line(&self, state: CheckState) -> CheckState {
        if self.is_terminal {
            self.draw(state.read);
            return CheckState {
                is_drawn: true,
                ..state
            };
        }
        self.write_below(state.read);
        CheckState {
            pause: Pause::begun(&self.rt, LINE_SECONDS),
            ..state
        }
    }

    // Writes the line of a terminal anew.
    fn draw(&self, read: u64) {
        if let Ok(line) = self.line(read, "\r", "") {
            write(&mut self.rt.stderr(), line.as_str());
        }
    }

    // Writes a line below the others, unless that would wait.
    fn write_below(&self, read: u64) {
        if let Ok(line) = self.line(read, "", "\n") {
            write_unblocked(&self.rt, &mut self.rt.stderr(), line.as_str());
        }
    }

    // The line, once so many bytes are read, and what stands before and after it. What is read is
    // rounded down, and the megabytes of the file up.
    fn line(&self, read: u64, before: &str, after: &str) -> Result<String, AllocError> {
        let alloc: Global = self.rt.alloc();
        let done = read / MEGABYTE;
        let megabytes = self.bytes.div_ceil(MEGABYTE);
        format!(in alloc; "{before}canary: {done} MB read to check {megabytes} MB{after}")
    }
}

impl ReadingProgress for CheckDisplay {
    // Counts the bytes, and shows how many there are by now.
    fn read(&mut self, bytes: usize) {
        let Some(shared) = &self.state else {
            return;
        };
        let state = shared.get().with_read(bytes);
        shared.set(if state.is_due() {
            self.shown_if_due(state)
        } else {
            state
        });
    }

    // Another one, which counts and ends with this one.
    fn again(&self) -> CheckDisplay {
        CheckDisplay {
            rt: self.rt,
            bytes: self.bytes,
            is_terminal: self.is_terminal,
            state: shared(&self.state),
        }
    }
}

// The same state; none also if memory is refused.
fn shared(state: &Option<Rc<Cell<CheckState>>>) -> Option<Rc<Cell<CheckState>>> {
    match state {
        Some(state) => state.clone().ok(),
        None => None,
    }
}
