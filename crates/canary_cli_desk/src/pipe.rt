//! `pipe`: a stream answered over the book in a file.
use crate::open::DeskFile;
use crate::tables::DeskBook;
use crate::work::{Work, with_desk_file};
use canary_base::moments::Moment;
use canary_once::clock::StepClock;
use canary_programs::fault::Fault;
use canary_programs::pipe::answer;
use std::io::{Read, Write};

// A stream that is answered. The first message is at `at`, and each later one `step` seconds after
// the one before it.
#[derive(Drop)]
struct Answering<R, W> {
    at: Moment,
    step: Moment,
    input: R,
    output: W,
}

impl<R: Read, W: Write> Work for Answering<R, W> {
    ghost use Rattle.std.specs.Prelude.{true, false};

    ghost knows_names = { λ _. false };

    ghost may_settle = { λ _. true };

    ghost shows_made = { λ _. false };

    // True: messages may be settled.
    fn settles(&self) -> bool {
        true
    }

    // False: a desk may begin so.
    fn shows_made_file(&self) -> bool {
        false
    }

    // Answers the stream over this book.
    fn run<B: DeskBook, F: Write>(
        &mut self,
        rt: &HostRuntime,
        book: &mut B,
        _errors: &mut F,
        _is_terminal: bool,
    ) -> Result<(), Fault> {
        let mut clock = StepClock::new(self.at, self.step);
        answer(
            rt.alloc(),
            &mut self.input,
            &mut self.output,
            &mut clock,
            book,
        )
    }
}

/// Answers HTTP from `input` on `output` over the book in a file, which is closed then. The first
/// message is at `at`, and each later one `step` seconds after the one before it.
///
/// # Errors
/// What `with_desk_file` answers as it opens the file: nothing is read then. What `answer` does.
/// `Storage` if the file fails as it is closed; what was settled is settled.
pub(crate) fn pipe<R: Read + Drop, W: Write + Drop, F: Write>(
    rt: &HostRuntime,
    at: Moment,
    step: Moment,
    file: DeskFile<'_>,
    input: R,
    output: W,
    errors: &mut F,
    is_terminal: bool,
) -> Result<(), Fault> {
    let mut work = Answering {
        at,
        step,
        input,
        output,
    };
    with_desk_file(rt, file, &mut work, errors, is_terminal)
}
