//! Running a command line: the one place that knows both the desk's programs and the client's.
ghost use Rattle.std.specs.Prelude.{◌≡◌, ◌↔◌, ℕ, Bool, List, Option, Some, None, Ok, Err, [], map};
ghost use Rattle.std.specs.Prelude.{◌⊎◌, IfOk, IfErr, codes, string_bytes};
ghost use Rattle.std.specs.IoError.{error_kind};
ghost use Rattle.std.specs.Io.KnownBytes.{Appends};
ghost use Rattle.canary_cli_words.specs.CommandLine.{faults_of, program_of};
ghost use Rattle.canary_cli_words.specs.Unclear.{unclear_of};
ghost use Rattle.canary_cli_words.specs.declared.unclear.Unclear.{Unclear as WhatIsUnclear};
ghost use Rattle.canary_cli_words.specs.declared.words.Program.{Program as AnyProgram};
ghost use Rattle.canary_cli_desk.specs.Run.{MayTell};
ghost use Rattle.canary_cli.specs.Performed.{outcome_of, status_of, checked_of};
ghost use Rattle.canary_cli.specs.Performed.{IsPipedTo, IsRun, IsRunTo, IsTold};
ghost use Rattle.canary_cli.specs.Performed.{IsTurnedAway, IsGivenUp, unopened_status};
ghost use Rattle.canary_cli.specs.Performed.{AsksForOneThatTells, AsksNoDesk, IsChecked, IsNoClient};

use canary_base::lists::Text;
use canary_cli_client::argo::argo;
use canary_cli_client::call::ask_desk;
use canary_cli_client::check::{Checked, check};
use canary_cli_client::exit::ManifestExit;
use canary_cli_desk::fault_place::FaultPlace;
use canary_cli_desk::run as desk;
use canary_cli_desk::run::Terminals;
use canary_cli_words::unclear::{Unclear, unclear_of};
use canary_cli_words::words::{Program, WordsFault, read_words};
use canary_client::outcome as client;
use canary_programs::fault::Fault;
use canary_programs::show::show;
use std::alloc::Global;
use std::io::{self, ErrorKind, Read, Write};

/// The exit status if what was asked was done.
pub const DONE: u8 = 0;
/// The exit status of a fault, and of findings.
pub const FAULT: u8 = 1;
/// The exit status if the command line is not one that the desk takes.
pub const USAGE: u8 = 2;

// The report on a word that is not UTF-8, laid out as clap says what is wrong with words.
const NOT_UTF8: &str = concat!(
    "error: a word of the command line is not UTF-8\n\n",
    "Usage: canary <COMMAND>\n\n",
    "For more information, try '--help'.\n"
);

// What a client says if a standard stream is closed, and nothing could be opened in its place.
const UNOPENED: &str =
    "a standard stream is closed, and the root folder cannot be opened in its place";

/// What came of what was asked.
#[derive(Clone, Copy, Debug, PartialEq, Eq)]
pub enum ProgramExit {
    /// It was done.
    Done,
    /// A check was done, and found something.
    Findings,
    /// Nothing was done, since the words leave this unclear.
    Unclear(Unclear),
    /// A client of a desk ended so.
    Asked(client::ClientExit),
}

/// Runs a command line, the words after the program's name, on this input, output and error
/// stream, with the machine's files, sockets and clocks, and answers the exit status. Long work
/// shows on `errors` how far it has come, and the check of a file on the standard error of the
/// process. If `errors` is a terminal, `import`, `history` and `export` say there that they made a
/// file that was not there.
///
/// 0: what was asked was done, or help or the version was asked for, whose text is written to
/// `output`. 1: a check found something, or a fault, which one line `canary: WORD` on `errors`
/// names (`canary_programs::fault::Fault::line`); if `errors` is a terminal, or if people have to
/// do something first, a second line says what that is, and of which address or file. 2: the
/// command line is not one that the desk takes, and `errors` has the text that says why. The
/// client's programs end by `canary_client::outcome::ClientExit`, with 0 to 8. `check` also writes
/// on `errors` what it warns of, unless that is among the findings. A fault of `errors` is ignored.
pub fn perform<R: Read, W: Write, F: Write>(
    rt: &HostRuntime,
    words: &[String],
    input: &mut R,
    output: &mut W,
    errors: &mut F,
    terminals: Terminals,
) -> u8
    ensures piped { (at step : ℕ) (cache : Option ℕ) → faults_of (map string_bytes words.now) ≡ []
        → program_of (map string_bytes words.now) ≡ Some (Program.Pipe at step None cache)
        → IsPipedTo (R.remaining input.old) (R.remaining input.new)
        (W.contents output.old) (W.contents output.new) at step result }
    ensures checked { (file request : Option (List ℕ)) (strict : Bool)
        → faults_of (map string_bytes words.now) ≡ []
        → program_of (map string_bytes words.now) ≡ Some (Program.Check file request strict)
        → result ≡ DONE
        → Appends (W.contents output.old) (W.contents output.new) (codes "ok\n") }
    ensures unclear { (program : AnyProgram) (what : WhatIsUnclear)
        → faults_of (map string_bytes words.now) ≡ []
        → program_of (map string_bytes words.now) ≡ Some program
        → unclear_of program ≡ Some what
        → (result ≡ USAGE ⊎ result ≡ FAULT)
        × (input.new ≡ input.old) × (W.contents output.new ≡ W.contents output.old) }
    ensures turned_away { (faults_of (map string_bytes words.now) ≡ [] → ⊥)
        → IsTurnedAway (faults_of (map string_bytes words.now))
        (W.contents output.old) (W.contents output.new) result }
    ensures unread { (faults_of (map string_bytes words.now) ≡ [] → ⊥) → input.new ≡ input.old }
    ensures quiet { result ≡ DONE
        → (AsksForOneThatTells (map string_bytes words.now) → ⊥) → errors.new ≡ errors.old }
{
    match read_words(rt.alloc(), words) {
        Ok(program) => run_placed(rt, program, input, output, errors, terminals),
        Err(fault) => turn_away(&fault, output, errors),
    }
}

// Says why the words of the command line give no program, or gives the help that they ask for.
fn turn_away<W: Write, F: Write>(fault: &WordsFault, output: &mut W, errors: &mut F) -> u8
    ensures told { IsTold fault.now (W.contents output.old) (W.contents output.new) result }
    ensures quiet { result ≡ DONE → errors.new ≡ errors.old }
{
    match fault {
        WordsFault::Help(text) => match show(text.as_str(), output) {
            Ok(()) => DONE,
            Err(fault) => fail(fault, errors),
        },
        WordsFault::Usage(text) => {
            let _ = errors.write_all(text.as_bytes());
            USAGE
        }
        WordsFault::Memory => fail(Fault::Memory, errors),
    }
}

/// The exit status if the words of the command line could not be had: 2 if one of them is
/// not UTF-8, else 1 since memory ran out. `errors` has the text that says so.
pub fn refuse<F: Write>(error: &io::Error, errors: &mut F) -> u8
    ensures usage { (result ≡ USAGE) ↔ (error_kind error.now ≡ ErrorKind.InvalidData) }
    ensures fault { (error_kind error.now ≡ ErrorKind.InvalidData → ⊥) → result ≡ FAULT }
{
    if error.kind() == ErrorKind::InvalidData {
        let _ = errors.write_all(NOT_UTF8.as_bytes());
        return USAGE;
    }
    fail(Fault::Memory, errors)
}

/// Ends a command line of a process that has a standard stream closed, and in whose place nothing
/// could be opened: a file that is opened would become that stream, so none is. Help and mistakes
/// are answered as by `perform`. Else the exit status is 5 of a client of a desk, and otherwise 1,
/// with a line on `errors` that says so. A fault of `errors` itself is ignored.
pub fn give_up<W: Write, F: Write>(
    alloc: Global,
    words: &[String],
    output: &mut W,
    errors: &mut F,
) -> u8
    ensures turned_away { (faults_of (map string_bytes words.now) ≡ [] → ⊥)
        → IsTurnedAway (faults_of (map string_bytes words.now))
        (W.contents output.old) (W.contents output.new) result }
    ensures given_up { faults_of (map string_bytes words.now) ≡ []
        → IsGivenUp (program_of (map string_bytes words.now)) result }
    ensures unshown { faults_of (map string_bytes words.now) ≡ []
        → W.contents output.new ≡ W.contents output.old }
{
    let asked = read_words(alloc, words);
    end_unasked(&asked, output, errors)
}

// Says that nothing was opened for a program, or why the words give none.
fn end_unasked<W: Write, F: Write>(
    asked: &Result<Program, WordsFault>,
    output: &mut W,
    errors: &mut F,
) -> u8
    ensures unopened { IfOk asked.now (λ program. (result ≡ unopened_status program)
        × (W.contents output.new ≡ W.contents output.old)) }
    ensures told { IfErr asked.now (λ fault.
        IsTold fault (W.contents output.old) (W.contents output.new) result) }
{
    match asked {
        Ok(program) => end_unopened(program, errors),
        Err(why) => turn_away(why, output, errors),
    }
}

// Says that nothing was opened for a program, and answers its exit status.
fn end_unopened<F: Write>(program: &Program, errors: &mut F) -> u8
    ensures { result ≡ unopened_status program.now }
{
    match program {
        Program::Ask(_) => {
            client::say(errors, UNOPENED);
            client::ClientExit::Local.status()
        }
        _ => fail(Fault::File, errors),
    }
}

// Runs a program, and answers its exit status. If it fails, it also reports of which address or
// file: on a terminal, or if people have to do something first.
fn run_placed<R: Read, W: Write, F: Write>(
    rt: &HostRuntime,
    program: Program,
    input: &mut R,
    output: &mut W,
    errors: &mut F,
    terminals: Terminals,
) -> u8
    ensures ran { IsRunTo (R.remaining input.old) (R.remaining input.new)
        (W.contents output.old) (W.contents output.new) program result }
    ensures unclear { (what : WhatIsUnclear) → unclear_of program ≡ Some what
        → (result ≡ USAGE) × (input.new ≡ input.old) × (output.new ≡ output.old) }
    ensures quiet { result ≡ DONE → (MayTell program → ⊥) → errors.new ≡ errors.old }
{
    let place = FaultPlace::of(rt.alloc(), &program, terminals.errors);
    let done = run(rt, program, input, output, errors, terminals);
    finish(rt, done, &place, errors)
}

// Runs a program, unless its words leave unclear what is asked.
fn run<R: Read, W: Write, F: Write>(
    rt: &HostRuntime,
    program: Program,
    input: &mut R,
    output: &mut W,
    errors: &mut F,
    terminals: Terminals,
) -> Result<ProgramExit, Fault>
    ensures ran { IsRun (R.remaining input.old) (R.remaining input.new)
        (W.contents output.old) (W.contents output.new) program result }
    ensures unclear { (what : WhatIsUnclear) → unclear_of program ≡ Some what
        → (result ≡ Ok (ProgramExit.Unclear what))
        × (input.new ≡ input.old) × (output.new ≡ output.old) }
    ensures quiet { (MayTell program → ⊥) → errors.new ≡ errors.old }
{
    match unclear_of(&program) {
        Some(what) => Ok(ProgramExit::Unclear(what)),
        None => run_clear(rt, program, input, output, errors, terminals),
    }
}

// Runs a program whose words are clear.
fn run_clear<R: Read, W: Write, F: Write>(
    rt: &HostRuntime,
    program: Program,
    input: &mut R,
    output: &mut W,
    errors: &mut F,
    terminals: Terminals,
) -> Result<ProgramExit, Fault>
    ensures ran { IsRun (R.remaining input.old) (R.remaining input.new)
        (W.contents output.old) (W.contents output.new) program result }
    ensures quiet { (MayTell program → ⊥) → errors.new ≡ errors.old }
{
    match program {
        Program::Ask(asked) => {
            let outcome = ask_desk(rt, asked, input, output, errors, terminals.output);
            Ok(ProgramExit::Asked(outcome))
        }
        program => run_unasked(rt, &program, input, output, errors, terminals),
    }
}

// Runs a program that asks no desk.
fn run_unasked<R: Read, W: Write, F: Write>(
    rt: &HostRuntime,
    program: &Program,
    input: &mut R,
    output: &mut W,
    errors: &mut F,
    terminals: Terminals,
) -> Result<ProgramExit, Fault>
    requires { AsksNoDesk program.now }
    ensures ran { IsRun (R.remaining input.old) (R.remaining input.new)
        (W.contents output.old) (W.contents output.new) program.now result }
    ensures quiet { (MayTell program.now → ⊥) → errors.new ≡ errors.old }
{
    match program {
        Program::Check {
            file,
            request,
            strict,
        } => run_check(rt, file, request, *strict, output, errors),
        Program::Argo { files, out, json } => {
            found(argo(rt, files, out, *json, input, output, errors))
        }
        program => done(desk::run(rt, program, input, output, errors, terminals)),
    }
}

// Checks the manifests in the file of the name `file`, or the request's body in that of the name
// `request`, whichever was given.
fn run_check<W: Write, F: Write>(
    rt: &HostRuntime,
    file: &Option<Text>,
    request: &Option<Text>,
    strict: bool,
    output: &mut W,
    errors: &mut F,
) -> Result<ProgramExit, Fault>
    ensures checked { IsChecked (W.contents output.old) (W.contents output.new) result }
    ensures client { IsNoClient result }
{
    let checked = match (file, request) {
        (Some(file), _) => Checked::Manifest(file.as_str()),
        (None, Some(body)) => Checked::Body(body.as_str()),
        (None, None) => return Ok(ProgramExit::Unclear(Unclear::Checked)),
    };
    found(check(rt, checked, strict, output, errors))
}

// What comes of a program of the desk.
fn done(ended: Result<(), Fault>) -> Result<ProgramExit, Fault>
    ensures { result ≡ outcome_of ended }
{
    match ended {
        Ok(()) => Ok(ProgramExit::Done),
        Err(fault) => Err(fault),
    }
}

// What comes of a program that reads manifests.
fn found(ended: Result<ManifestExit, Fault>) -> Result<ProgramExit, Fault>
    ensures { result ≡ checked_of ended }
{
    match ended {
        Ok(ManifestExit::Done) => Ok(ProgramExit::Done),
        Ok(ManifestExit::Findings) => Ok(ProgramExit::Findings),
        Err(fault) => Err(fault),
    }
}

// The status of what was done, with the line of a fault on `errors`, and what it is about.
fn finish<F: Write>(
    rt: &HostRuntime,
    done: Result<ProgramExit, Fault>,
    place: &FaultPlace,
    errors: &mut F,
) -> u8
    ensures status { result ≡ status_of done }
    ensures quiet { result ≡ DONE → errors.new ≡ errors.old }
{
    match done {
        Ok(ProgramExit::Done) => DONE,
        Ok(ProgramExit::Findings) => FAULT,
        Ok(ProgramExit::Asked(outcome)) => outcome.status(),
        Ok(ProgramExit::Unclear(what)) => {
            let _ = errors.write_all(what.text().as_bytes());
            USAGE
        }
        Err(fault) => {
            let status = fail(fault, errors);
            place.tell(rt, fault, errors);
            status
        }
    }
}

// The status of a fault, whose line it writes on `errors`.
fn fail<F: Write>(fault: Fault, errors: &mut F) -> u8
    ensures { result ≡ FAULT }
{
    let _ = errors.write_all(fault.line().as_bytes());
    FAULT
}
