//! Running the desk's programs.
ghost use Rattle.std.specs.Prelude.{◌≡◌, Bool};
ghost use Rattle.canary_cli_desk.specs.Run.{IsDeskRun, IsOfDesk, IsOfRecords, IsPiped, MayTell};
ghost use Rattle.canary_cli_desk.specs.Run.{limits_of};

use crate::backup::{backup, backup_each};
use crate::export::export;
use crate::given::{drawing, file_of, file_or_none, text_of};
use crate::history::history;
use crate::import::import;
use crate::migrate::migrate;
use crate::open::DeskFile;
use crate::page::page;
use crate::pipe::pipe;
use crate::serve::serve;
use crate::status::status;
use crate::succeed::succeed;
use canary_base::lists::Text;
use canary_base::moments::Moment;
use canary_cli_words::words::{AskedLimits, Program};
use canary_listen::limits::Limits;
use canary_once::clock::StepClock;
use canary_once::memory::MemoryBook;
use canary_programs::fault::{Fault, done_of};
use std::alloc::Global;
use std::io::{Read, Write};

/// Which of the process's streams are terminals.
#[derive(Clone, Copy, Debug, PartialEq, Eq)]
pub struct Terminals {
    /// Standard output.
    pub output: bool,
    /// Standard error.
    pub errors: bool,
}

/// Runs a program that serves a desk, or works on a desk's file, on this input, output and error
/// stream, with the machine's files, sockets and clocks. Long work shows on `errors` how far it has
/// come, and the check of a file on the standard error of the process. If `errors` is a terminal,
/// `import`, `history` and `export` say there that they made a file that was not there.
///
/// # Errors
/// Those that `Fault` names, of each program as `canary help` has them.
pub fn run<R: Read, W: Write, F: Write>(
    rt: &HostRuntime,
    program: &Program,
    input: &mut R,
    output: &mut W,
    errors: &mut F,
    terminals: Terminals,
) -> Result<(), Fault>
    requires { IsOfDesk program.now }
    ensures ran { IsDeskRun (R.remaining input.old) (R.remaining input.new)
        (W.contents output.old) (W.contents output.new) program.now result }
    ensures quiet { (MayTell program.now → ⊥) → errors.new ≡ errors.old }
{
    let shows = terminals.errors;
    match program {
        Program::Pipe {
            at,
            step,
            db,
            cache,
        } => answer(rt, *at, *step, db, *cache, input, output, errors, shows),
        Program::Serve {
            listen,
            db,
            cache,
            connections,
            limits,
        } => {
            let (listen, file) = (listen.as_str(), file_or_none(db, *cache));
            serve_within(
                rt,
                listen,
                file,
                *connections,
                *limits,
                output,
                errors,
                shows,
            )
        }
        Program::Import { db, cache, csv } => {
            let file = file_of(db, *cache);
            import(rt, file, csv.as_str(), input, output, errors, shows)
        }
        Program::Backup {
            db,
            copy,
            every,
            keep,
        } => copy_records(rt, db.as_str(), copy.as_str(), *every, *keep),
        _ => run_on_records(rt, program, output, errors, terminals),
    }
}

// Shows what is in the file of a desk's records, or makes it one of this version, or makes a new
// one of it.
fn run_on_records<W: Write, F: Write>(
    rt: &HostRuntime,
    program: &Program,
    output: &mut W,
    errors: &mut F,
    terminals: Terminals,
) -> Result<(), Fault>
    requires { IsOfRecords program.now }
{
    let shows = terminals.errors;
    match program {
        Program::History { db, service } => {
            history(rt, db.as_str(), service.as_str(), output, errors, shows)
        }
        Program::Export {
            db,
            caller,
            service,
        } => {
            let (db, caller, service) = (db.as_str(), caller.as_str(), service.as_str());
            export(rt, db, caller, service, output, errors, shows)
        }
        Program::Status {
            db,
            watch,
            json,
            prometheus,
        } => {
            let drawing = drawing(*watch, *json, *prometheus, terminals);
            status(rt, db.as_str(), drawing, output, errors, shows)
        }
        Program::Page {
            db,
            out,
            watch,
            json,
        } => {
            let (db, out, json) = (db.as_str(), out.as_str(), text_of(json));
            page(rt, db, out, json, *watch, output, errors, shows)
        }
        Program::Migrate { db, dry_run } => {
            migrate(rt, db.as_str(), *dry_run, output, errors, shows)
        }
        Program::Succeed { db, new } => {
            succeed(rt, db.as_str(), new.as_str(), output, errors, shows)
        }
        _ => unreachable!(),
    }
}

// Answers a stream, over the desk in a file if there is one.
fn answer<R: Read, W: Write, F: Write>(
    rt: &HostRuntime,
    at: Moment,
    step: Moment,
    db: &Option<Text>,
    cache: Option<u64>,
    input: &mut R,
    output: &mut W,
    errors: &mut F,
    shows: bool,
) -> Result<(), Fault>
    ensures ran { IsDeskRun (R.remaining input.old) (R.remaining input.new)
        (W.contents output.old) (W.contents output.new)
        (Program.Pipe at step db.now cache) result }
    ensures quiet { (MayTell (Program.Pipe at step db.now cache) → ⊥)
        → errors.new ≡ errors.old }
{
    match db {
        None => answer_in_memory(rt.alloc(), at, step, input, output),
        Some(db) => {
            let file = file_of(db, cache);
            pipe(rt, at, step, file, input, output, errors, shows)
        }
    }
}

// Answers HTTP from `input` on `output`, with records in memory. The first message is at `at`, and
// each later one `step` seconds after the one before it.
fn answer_in_memory<R: Read, W: Write>(
    alloc: Global,
    at: Moment,
    step: Moment,
    input: &mut R,
    output: &mut W,
) -> Result<(), Fault>
    ensures { IsPiped (R.remaining input.old) (R.remaining input.new)
        (W.contents output.old) (W.contents output.new) at step result }
{
    let mut clock = StepClock::new(at, step);
    let mut book = MemoryBook::new(alloc);
    done_of(canary_wire::serve::serve(alloc, input, output, &mut clock, &mut book))
}

// A copy of the records, or one each time after so many seconds, of which so many are kept.
fn copy_records(
    rt: &HostRuntime,
    db: &str,
    copy: &str,
    every: Option<u64>,
    keep: Option<u64>,
) -> Result<(), Fault> {
    match every {
        None => backup(rt, db, copy),
        Some(seconds) => backup_each(rt, db, copy, seconds, keep),
    }
}

// The limits of a listener: those that were asked for, and the others as by default.
fn limits_of(asked: AskedLimits) -> Limits
    ensures { result ≡ limits_of asked }
{
    let standard = Limits::DEFAULT;
    Limits {
        message_seconds: asked.read_timeout.unwrap_or(standard.message_seconds),
        idle_seconds: asked.idle_timeout.unwrap_or(standard.idle_seconds),
        clients: asked.max_clients.unwrap_or(standard.clients),
        owed_bytes: asked.max_unsent.unwrap_or(standard.owed_bytes),
        unsent_total_bytes: asked
            .max_unsent_total
            .unwrap_or(standard.unsent_total_bytes),
    }
}

// Serves clients on an address, over the desk in a file if there is one, within these limits.
fn serve_within<W: Write, F: Write>(
    rt: &HostRuntime,
    listen: &str,
    file: Option<DeskFile<'_>>,
    connections: Option<u64>,
    limits: AskedLimits,
    output: &mut W,
    errors: &mut F,
    shows: bool,
) -> Result<(), Fault> {
    let limits = limits_of(limits);
    serve(rt, listen, file, connections, limits, output, errors, shows)
}
