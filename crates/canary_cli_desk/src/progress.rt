//! Showing how far a program has come, and on a terminal that it made a file.
ghost use Rattle.std.specs.Prelude.{◌≡◌, false};

use crate::checking::CheckDisplay;
use crate::line::{LINE_SECONDS, MEGABYTE, erase, write, write_unblocked};
use crate::pause::Pause;
use canary_page::progress as drawing;
use canary_shown::text::{TextKind, shown};
use canary_tables_adopt::progress as judging;
use std::alloc::{AllocError, Global};
use std::io::{self, Read, Write};

// The bytes of one kilobyte.
const KILOBYTE: u64 = 1_000;

// Into how many parts the whole is divided, after each of which a line may be written.
const PARTS: u64 = 1_000;

/// What is counted.
#[derive(Clone, Copy, Debug, PartialEq, Eq)]
enum Unit {
    /// Rows of the tables in a file, which are judged. They are shown as their share of its bytes,
    /// of which it has so many.
    Rows { bytes: u64 },
    /// Bytes of a file, which are read.
    Bytes,
    /// Services, which are drawn.
    Services,
}

/// Shows how far a program has come. A terminal has one line, which is written anew as it goes, and
/// erased when it is done. Elsewhere lines are written one below another: none in the first
/// second, then at most one a second, and none that says the same as the one before it. Such a line
/// waits for nobody who reads it: if it cannot be taken at once, it is left out. A fault of the
/// stream, a clock that cannot be read, and memory that is refused for a line, are ignored.
#[derive(Drop)]
pub struct ProgressDisplay<'a, F: Write> {
    rt: &'a HostRuntime,
    errors: &'a mut F,
    is_terminal: bool,
    unit: Unit,
    done: u64,
    // The whole; none if it is not known.
    whole: Option<u64>,
    // How much is done when a line may be written next.
    next: u64,
    // How long no line is written if there is no terminal.
    pause: Pause,
    // The number in the last line, if there is one.
    last: Option<u64>,
    is_drawn: bool,
    // What shows the check that comes before the judging, and ends as that begins.
    check: Option<&'a CheckDisplay>,
}

impl<'a, F: Write> ProgressDisplay<'a, F> {
    /// Shows how much of a file of so many bytes is judged, on `errors`, the standard error of the
    /// process: as large a share of its bytes as is judged of its rows. Before that SQLite reads
    /// and checks all of it, which takes a second for some 10 MB: `check` shows that, and is ended
    /// once the judging begins.
    pub fn judging(
        rt: &'a HostRuntime,
        errors: &'a mut F,
        is_terminal: bool,
        bytes: u64,
        check: &'a CheckDisplay,
    ) -> ProgressDisplay<'a, F> {
        let unit = Unit::Rows { bytes };
        let mut shown = ProgressDisplay::of(rt, errors, is_terminal, unit, None);
        shown.check = Some(check);
        shown
    }

    /// Shows how many bytes are read, of so many if that is known, on `errors`, the standard
    /// error of the process.
    pub fn bytes(
        rt: &'a HostRuntime,
        errors: &'a mut F,
        is_terminal: bool,
        whole: Option<u64>,
    ) -> ProgressDisplay<'a, F> {
        ProgressDisplay::of(rt, errors, is_terminal, Unit::Bytes, whole)
    }

    /// Shows how many services are drawn, on `errors`, the standard error of the process.
    pub fn services(
        rt: &'a HostRuntime,
        errors: &'a mut F,
        is_terminal: bool,
    ) -> ProgressDisplay<'a, F> {
        ProgressDisplay::of(rt, errors, is_terminal, Unit::Services, None)
    }

    // Counts this unit from 0. Without a terminal, no line comes in the first `LINE_SECONDS`.
    fn of(
        rt: &'a HostRuntime,
        errors: &'a mut F,
        is_terminal: bool,
        unit: Unit,
        whole: Option<u64>,
    ) -> ProgressDisplay<'a, F> {
        ProgressDisplay {
            rt,
            errors,
            is_terminal,
            unit,
            done: 0,
            whole,
            next: 0,
            pause: Pause::begun(rt, LINE_SECONDS),
            last: None,
            is_drawn: false,
            check: None,
        }
    }

    // So much is to be done, and nothing of it is done yet.
    fn begin_whole(&mut self, whole: u64) {
        self.done = 0;
        self.whole = Some(whole);
        self.next = 0;
    }

    /// So much more is done.
    pub fn more(&mut self, count: u64) {
        self.done = self.done.saturating_add(count);
        if self.next <= self.done {
            self.show();
            self.next = self.done.saturating_add(self.part());
        }
    }

    // How much more is done until a line may be written next: a part of the whole, or a megabyte.
    fn part(&self) -> u64 {
        match self.whole {
            Some(whole) => (whole / PARTS).max(1),
            None => MEGABYTE,
        }
    }

    // Draws the line of a terminal anew, or writes one below the others if that may be.
    fn show(&mut self) {
        if self.is_terminal || self.is_due() {
            self.write_line();
        }
    }

    // Draws the line of a terminal anew, or writes one below the others, and notes which and when.
    fn write_line(&mut self) {
        if self.is_terminal {
            self.draw();
        } else {
            self.write_below();
            self.last = Some(self.number());
            self.pause = Pause::begun(self.rt, LINE_SECONDS);
        }
    }

    // Whether a line may be written below the others: it would say something else than the last
    // one, and the pause is over.
    fn is_due(&self) -> bool {
        self.last != Some(self.number()) && self.pause.is_over(self.rt)
    }

    // The number of what is done, as a line says it. Megabytes are rounded down.
    fn number(&self) -> u64 {
        match self.unit {
            // In kilobytes, so that their product with the rows of any file is a number here.
            Unit::Rows { bytes } => share(self.done, self.whole, bytes / KILOBYTE) / KILOBYTE,
            Unit::Bytes => self.done / MEGABYTE,
            Unit::Services => self.done,
        }
    }

    // Writes the line of a terminal anew.
    fn draw(&mut self) {
        if let Ok(line) = self.line("\r", "") {
            write(self.errors, line.as_str());
            self.is_drawn = true;
        }
    }

    // Writes a line below the others, unless that would wait.
    fn write_below(&mut self) {
        if let Ok(line) = self.line("", "\n") {
            write_unblocked(self.rt, self.errors, line.as_str());
        }
    }

    // The line, and what stands before and after it.
    fn line(&self, before: &str, after: &str) -> Result<String, AllocError> {
        let alloc = self.rt.alloc();
        let text = self.text(alloc)?;
        format!(in alloc; "{before}canary: {text}{after}")
    }

    // How much is done of what. All the megabytes are rounded up. A file that has grown since it
    // was opened has no whole.
    fn text(&self, alloc: Global) -> Result<String, AllocError> {
        let done = self.number();
        match (self.unit, self.whole) {
            (Unit::Rows { bytes }, _) => {
                let megabytes = bytes.div_ceil(MEGABYTE);
                format!(in alloc; "{done} of {megabytes} MB judged")
            }
            (Unit::Services, Some(whole)) => format!(in alloc; "{done} of {whole} services drawn"),
            (Unit::Services, None) => format!(in alloc; "{done} services drawn"),
            (Unit::Bytes, Some(whole)) if self.done <= whole => {
                let megabytes = whole.div_ceil(MEGABYTE);
                format!(in alloc; "{done} of {megabytes} MB read")
            }
            (Unit::Bytes, _) => format!(in alloc; "{done} MB read"),
        }
    }

    // Ends what shows the check. The next line comes when it may after the last one of that.
    fn end_check(&mut self) {
        if let Some(check) = self.check {
            check.end();
            self.pause = Pause::begun(self.rt, LINE_SECONDS);
        }
    }

    /// Erases the line of a terminal, if there is one.
    pub fn end(&mut self) {
        self.end_check();
        if self.is_drawn && self.is_terminal {
            erase(self.errors);
            self.is_drawn = false;
        }
    }
}

// As large a share of this as is done of the whole; all of it if the whole is done or unknown.
fn share(done: u64, whole: Option<u64>, of: u64) -> u64 {
    match whole {
        Some(whole) if done < whole => of.saturating_mul(done) / whole,
        _ => of,
    }
}

impl<F: Write> judging::JudgingProgress for ProgressDisplay<'_, F> {
    // Counts from 0 again, up to so many rows.
    fn begin(&mut self, rows: u64) {
        self.end_check();
        self.begin_whole(rows);
    }

    // Counts so many rows more.
    fn judged(&mut self, rows: u64) {
        self.more(rows);
    }
}

impl<F: Write> drawing::DrawingProgress for ProgressDisplay<'_, F> {
    // Counts from 0 again, up to so many services.
    fn begin(&mut self, services: u64) {
        self.begin_whole(services);
    }

    // Counts one service more.
    fn drawn(&mut self) {
        self.more(1);
    }
}

/// A reader that shows how many bytes of another one are read.
#[derive(Drop)]
pub struct Counted<'a, R, F: Write> {
    pub source: R,
    pub shown: ProgressDisplay<'a, F>,
}

impl<R: Read, F: Write> Read for Counted<'_, R, F> {
    ghost remaining = { λ c. R.remaining c.source };

    // Reads from the source, and counts the bytes that it gave.
    fn read(&mut self, buf: &mut [u8]) -> io::Result<usize> {
        let count = self.source.read(buf)?;
        self.shown.more(count as u64);
        Ok(count)
    }
}

/// Says on a terminal that the file of this name was made. Characters of the name that would
/// command it are escaped. Nothing is written if it is no terminal. A fault of the terminal, and
/// memory that is refused for the line, are ignored.
pub fn tell_made<F: Write>(alloc: Global, file: &str, errors: &mut F, is_terminal: bool)
    ensures { is_terminal ≡ false → errors.new ≡ errors.old }
{
    if !is_terminal {
        return;
    }
    let Ok(file) = shown(alloc, file, TextKind::Line) else {
        return;
    };
    if let Ok(line) = format!(in alloc; "canary: made {file}, since there was no such file\n") {
        let _ = errors.write_all(line.as_bytes());
        let _ = errors.flush();
    }
}
