//! `history`: what a service went through.
ghost use Rattle.std.specs.Prelude.{◌≡◌, ◌≢◌, Err, IsTrue};
ghost use Rattle.canary_base.specs.Names.{is_name};
ghost use Rattle.canary_programs.specs.declared.fault.Fault.TheVariants as fault;

use crate::open::DeskFile;
use crate::tables::DeskBook;
use crate::work::{Work, with_desk_file};
use canary_base::names::Name;
use canary_programs::fault::Fault;
use canary_programs::history::write_history;
use canary_programs::show::name_of;
use std::io::Write;

// The history of a service.
#[derive(Drop)]
struct HistoryOf<W> {
    service: Name,
    output: W,
}

impl<W: Write> Work for HistoryOf<W> {
    ghost use Rattle.std.specs.Prelude.{true, false};

    ghost knows_names = { λ _. true };

    ghost may_settle = { λ _. false };

    ghost shows_made = { λ _. true };

    // False: it reads alone.
    fn settles(&self) -> bool {
        false
    }

    // True: a file that it makes has no such service.
    fn shows_made_file(&self) -> bool {
        true
    }

    // Writes the history that this book has.
    fn run<B: DeskBook, F: Write>(
        &mut self,
        rt: &HostRuntime,
        book: &mut B,
        _errors: &mut F,
        _is_terminal: bool,
    ) -> Result<(), Fault> {
        write_history(rt.alloc(), book, self.service, &mut self.output)
    }
}

/// Writes the history of a service in a file as it is stored: no time passes.
///
/// # Errors
/// `BadName` if the service's name is invalid: no file is opened then. What `with_desk_file`
/// answers. `UnknownService` if there is no such service, and nothing is written. `Write` if the
/// output failed. `Memory` and `Storage`: nothing is written.
pub fn history<W: Write, F: Write>(
    rt: &HostRuntime,
    file: &str,
    service: &str,
    output: &mut W,
    errors: &mut F,
    is_terminal: bool,
) -> Result<(), Fault>
    ensures bad_name { (IsTrue (is_name service.now) → ⊥)
        → (result ≡ Err fault.BadName) × (output.new ≡ output.old) }
    ensures name { IsTrue (is_name service.now) → result ≢ Err fault.BadName }
{
    let service = name_of(service)?;
    history_of(rt, file, service, output, errors, is_terminal)
}

// The same of a valid name.
fn history_of<W: Write + Drop, F: Write>(
    rt: &HostRuntime,
    file: &str,
    service: Name,
    output: W,
    errors: &mut F,
    is_terminal: bool,
) -> Result<(), Fault>
    ensures { result ≢ Err fault.BadName }
{
    let mut work = HistoryOf { service, output };
    with_desk_file(rt, DeskFile::named(file), &mut work, errors, is_terminal)
}
