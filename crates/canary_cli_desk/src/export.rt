//! `export`: a service's measurements as a file.
ghost use Rattle.std.specs.Prelude.{◌≡◌, ◌≢◌, Err, IsTrue};
ghost use Rattle.canary_base.specs.Names.{is_name};
ghost use Rattle.canary_programs.specs.declared.fault.Fault.TheVariants as fault;

use crate::open::DeskFile;
use crate::tables::DeskBook;
use crate::work::{Work, with_desk_file};
use canary_base::names::Name;
use canary_programs::export::export_rows;
use canary_programs::fault::Fault;
use canary_programs::show::name_of;
use std::io::Write;

// The measurements of a service, under this caller.
#[derive(Drop)]
struct Exporting<W> {
    service: Name,
    caller: Name,
    output: W,
}

impl<W: Write> Work for Exporting<W> {
    ghost use Rattle.std.specs.Prelude.{true, false};

    ghost knows_names = { λ _. true };

    ghost may_settle = { λ _. false };

    ghost shows_made = { λ _. true };

    // False: it reads alone.
    fn settles(&self) -> bool {
        false
    }

    // True: a file that it makes has no such service.
    fn shows_made_file(&self) -> bool {
        true
    }

    // Writes the measurements that this book has.
    fn run<B: DeskBook, F: Write>(
        &mut self,
        rt: &HostRuntime,
        book: &mut B,
        _errors: &mut F,
        _is_terminal: bool,
    ) -> Result<(), Fault> {
        export_rows(
            rt.alloc(),
            book,
            self.service,
            self.caller,
            &mut self.output,
        )?;
        Ok(())
    }
}

/// Writes the measurements of a service in a file, under this caller.
///
/// # Errors
/// `BadName` if the service's name or the caller's is invalid: no file is opened then. What
/// `with_desk_file` and canary_programs' `export_rows` answer.
pub fn export<W: Write, F: Write>(
    rt: &HostRuntime,
    file: &str,
    caller: &str,
    service: &str,
    output: &mut W,
    errors: &mut F,
    is_terminal: bool,
) -> Result<(), Fault>
    ensures bad_caller { (IsTrue (is_name caller.now) → ⊥)
        → (result ≡ Err fault.BadName) × (output.new ≡ output.old) }
    ensures bad_service { (IsTrue (is_name service.now) → ⊥)
        → (result ≡ Err fault.BadName) × (output.new ≡ output.old) }
    ensures names { IsTrue (is_name caller.now) → IsTrue (is_name service.now)
        → result ≢ Err fault.BadName }
{
    let (caller, service) = (name_of(caller)?, name_of(service)?);
    export_of(rt, file, service, caller, output, errors, is_terminal)
}

// The same under valid names.
fn export_of<W: Write + Drop, F: Write>(
    rt: &HostRuntime,
    file: &str,
    service: Name,
    caller: Name,
    output: W,
    errors: &mut F,
    is_terminal: bool,
) -> Result<(), Fault>
    ensures { result ≢ Err fault.BadName }
{
    let mut work = Exporting {
        service,
        caller,
        output,
    };
    with_desk_file(rt, DeskFile::named(file), &mut work, errors, is_terminal)
}
