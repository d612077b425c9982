//! `serve`: the desk on a socket.
use crate::open::DeskFile;
use crate::tables::DeskBook;
use crate::work::{Work, with_desk_file};
use canary_listen::limits::Limits;
use canary_programs::fault::Fault;
use canary_programs::serve::{Listening, serve_book, serve_memory};
use std::io::Write;

// Clients who are served.
#[derive(Drop)]
struct Serving<W> {
    listening: Listening,
    output: W,
}

impl<W: Write> Work for Serving<W> {
    ghost use Rattle.std.specs.Prelude.{true, false};

    ghost knows_names = { λ _. false };

    ghost may_settle = { λ _. true };

    ghost shows_made = { λ _. false };

    // True: requests of clients may be settled.
    fn settles(&self) -> bool {
        true
    }

    // False: a desk begins so.
    fn shows_made_file(&self) -> bool {
        false
    }

    // Serves clients over this book.
    fn run<B: DeskBook, F: Write>(
        &mut self,
        rt: &HostRuntime,
        book: &mut B,
        errors: &mut F,
        _is_terminal: bool,
    ) -> Result<(), Fault> {
        serve_book(rt, self.listening, "", book, &mut self.output, errors)
    }
}

/// Serves clients on the address that `listen` spells, after so many connections no more. The book
/// is that of a file, which is opened before anybody can connect, or one in memory if none is
/// given, which a line on `errors` says. The line `listening IP:PORT` goes to `output` once clients
/// can connect.
///
/// # Errors
/// `Listen` if `listen` is no address, before anything is opened; then what `with_desk_file`
/// answers as it opens the file; then `Listen` if the address cannot be listened on; `Memory` if an
/// allocation was refused; `Write` if the output failed; `Accept` if waiting for clients failed;
/// `Storage` if the file fails as it is closed.
pub(crate) fn serve<W: Write + Drop, F: Write>(
    rt: &HostRuntime,
    listen: &str,
    file: Option<DeskFile<'_>>,
    connections: Option<u64>,
    limits: Limits,
    mut output: W,
    errors: &mut F,
    is_terminal: bool,
) -> Result<(), Fault> {
    let listening = Listening::at(listen, connections, limits)?;
    match file {
        Some(file) => {
            let mut work = Serving { listening, output };
            with_desk_file(rt, file, &mut work, errors, is_terminal)
        }
        None => serve_memory(rt, listening, &mut output, errors),
    }
}
