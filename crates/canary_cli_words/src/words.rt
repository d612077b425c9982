//! The words of a command line.
ghost use Rattle.std.specs.Prelude.{◌≡◌, Some, [], map, IfOk, IfErr, IsSome, string_bytes};
ghost use Rattle.std.specs.Prelude.{option_and_then, codes};
ghost use Rattle.clap.specs.Words.{found_of, rows_of, subcommand_rows_of, HasKind, Kinds};
ghost use Rattle.canary_cli_words.specs.CommandLine.{faults_of, program_of, program_in, limits_of};
ghost use Rattle.canary_cli_words.specs.CommandLine.{pipe_of, serve_of, import_of, history_of};
ghost use Rattle.canary_cli_words.specs.CommandLine.{export_of, status_of, page_of, backup_of};
ghost use Rattle.canary_cli_words.specs.CommandLine.{migrate_of, check_of, HasPage, HasMigrate, IsFor};
ghost use Rattle.canary_cli_words.specs.CommandLine.{HasProgram, HasPipe, HasListener, HasLimits};
ghost use Rattle.canary_cli_words.specs.CommandLine.{HasTexts, HasExport, HasStatus, HasImport};
ghost use Rattle.canary_cli_words.specs.CommandLine.{HasCheck, HasArgo, HasBackup, argo_of};
ghost use Rattle.canary_cli_words.specs.CommandLine.{HasFurtherProgram, succeed_of};

use crate::client::client_program_of;
use crate::commands::desk_command;
use crate::values::{
    flag_given, moment_given, number_given, optional_text, text_given, texts_given, two_given,
    two_optional,
};
use canary_base::error::Memory;
use canary_base::lists::{Listed, Text};
use canary_base::moments::Moment;
use canary_shown::text::{TextKind, shown};
use clap::error::ErrorKind;
use clap::{ArgMatches, Error};
use std::alloc::{AllocError, Global};
use std::fmt;

/// The limits for the clients of a listener that a command line gives; none if it has no such
/// option.
#[derive(Clone, Copy, Debug, PartialEq, Eq)]
pub struct AskedLimits {
    /// The most seconds from a message's first byte to its last.
    pub read_timeout: Option<u64>,
    /// The most seconds for which a client may be idle.
    pub idle_timeout: Option<u64>,
    /// The most clients at a time.
    pub max_clients: Option<u64>,
    /// While at least so many bytes are unsent to a client, none of its messages is answered.
    pub max_unsent: Option<u64>,
    /// While at least so many bytes are unsent to all clients together, no query is answered.
    pub max_unsent_total: Option<u64>,
}

/// Where a desk is, and how patiently it is asked, as a command line says; none if it has no
/// such option.
#[derive(Debug, Drop)]
pub struct AskedDesk {
    /// The address that `--desk` spells.
    pub desk: Option<Text>,
    /// How often a message is sent, at most.
    pub tries: Option<u64>,
    /// The most seconds: for each reply; of `watch` and of `due` with `--wait`, for the whole call.
    pub timeout: Option<u64>,
}

/// A command for a desk, word by word.
#[derive(Drop)]
pub struct AskedCommand {
    /// Its kind, as `promote`.
    pub kind: Text,
    /// The words that follow it, as far as there are any.
    pub first: Option<Text>,
    pub second: Option<Text>,
    pub third: Option<Text>,
    pub fourth: Option<Text>,
    /// The words after these four.
    pub more: Listed<Text>,
    /// Why a measurement failed.
    pub failure: Option<Text>,
}

/// A command for a desk, in whose name, and how.
#[derive(Drop)]
pub struct Call {
    /// The desk.
    pub desk: AskedDesk,
    /// The caller.
    pub caller: Option<Text>,
    /// The file of the caller's journal.
    pub journal: Option<Text>,
    /// The key under which the command is asked once.
    pub key: Option<Text>,
    /// Whether the command takes the place of the one that is pending.
    pub is_instead: bool,
    /// Whether the files that the command names are Argo's manifests, each of which is translated,
    /// and makes a command for each template, or for each service.
    pub is_argo: bool,
    /// The command.
    pub command: AskedCommand,
}

/// What a call of the agent asks for.
#[derive(Drop)]
pub struct AgentCall {
    /// The desk. The most seconds are those of each exchange with it; a message is sent once in
    /// each look, however often is asked for.
    pub desk: AskedDesk,
    /// The folder of the journals, one for each service.
    pub journals: Option<Text>,
    /// What each caller's name begins with, before `-SERVICE`.
    pub caller: Option<Text>,
    /// Whether each service is looked at once, and the call ends then.
    pub is_once: bool,
    /// Whether nothing is reported: the lines say what would be asked and reported. Each service is
    /// looked at once then, too.
    pub is_dry_run: bool,
    /// The file with lines `SERVICE METRIC VALUE`, of what another program measures; `-` for
    /// standard input.
    pub values: Option<Text>,
    /// If it is given, a service is aborted of which a measurement is late by more than so many
    /// seconds.
    pub abort_late: Option<u64>,
    /// The file that is touched each round.
    pub health: Option<Text>,
    /// The files and folders of Argo's manifests.
    pub files: Listed<Text>,
}

/// What a client asks of a desk.
#[derive(Drop)]
pub enum ClientCall {
    /// A command, once.
    Do(Call),
    /// The service that `service` names, if it is a name, as the desk has it; or the `part` of it:
    /// what happened to it, or the run of that number.
    Get {
        desk: AskedDesk,
        service: Text,
        part: Option<Text>,
    },
    /// How that service stands, each time that it stands otherwise, until it stands as `until`
    /// lists, or with `forever` without end; with `json` each line is a JSON value.
    Watch {
        desk: AskedDesk,
        until: Option<Text>,
        json: bool,
        forever: bool,
        service: Text,
    },
    /// The rows of the CSV file of this name, or of standard input if it is `-`, each sent to the
    /// desk.
    Send {
        desk: AskedDesk,
        csv: Text,
    },
    /// The measurements of these services that are due; with `late` those that have been due for
    /// longer than so many seconds; with `wait` as soon as there is one.
    Due {
        desk: AskedDesk,
        wait: bool,
        late: Option<u64>,
        services: Listed<Text>,
    },
    /// What the services of these manifests wait for, measured by the agent and reported.
    Agent(AgentCall),
}

/// What a command line asks for. If it has a `db`, that is the name of the file with the desk's
/// records; without one they are in memory. A `cache` is the room in bytes for what the desk keeps
/// in memory of that file.
#[derive(Drop)]
pub enum Program {
    /// HTTP from standard input to standard output. The first message is at the moment `at`, and
    /// each later one `step` seconds after the one before it.
    Pipe {
        at: Moment,
        step: Moment,
        db: Option<Text>,
        cache: Option<u64>,
    },
    /// HTTP on the address that `listen` spells, within these limits for its clients; and its end
    /// after so many connections, or never.
    Serve {
        listen: Text,
        db: Option<Text>,
        cache: Option<u64>,
        connections: Option<u64>,
        limits: AskedLimits,
    },
    /// The measurements of the CSV file of this name, or of standard input if it is `-`.
    Import {
        db: Text,
        cache: Option<u64>,
        csv: Text,
    },
    /// What happened to the service that `service` names, if it is a name.
    History {
        db: Text,
        service: Text,
    },
    /// The measurements of that service as CSV, whose rows are requests of the caller that `caller`
    /// names, if it is a name.
    Export {
        db: Text,
        caller: Text,
        service: Text,
    },
    /// How the services stand, once, or again each time after so many seconds: a table, or with
    /// `json` one JSON value for each service, or with `prometheus` the text format of Prometheus;
    /// not both, or the words are no status's.
    Status {
        db: Text,
        watch: Option<u64>,
        json: bool,
        prometheus: bool,
    },
    /// How the services stand, as a page in the file of the name `out`, or on standard output if
    /// it is `-`: once, or again each time after so many seconds. With `json`, each service also
    /// has a JSON file in the folder of that name.
    Page {
        db: Text,
        out: Text,
        watch: Option<u64>,
        json: Option<Text>,
    },
    /// A copy of the records in the file of the name `copy`; or with `every` a copy in the folder
    /// of that name, and a further one each time after so many seconds, of which with `keep` only
    /// so many are kept. `keep` comes with `every`, or the words are no backup's.
    Backup {
        db: Text,
        copy: Text,
        every: Option<u64>,
        keep: Option<u64>,
    },
    /// The records as this version keeps them; with `dry_run` it changes nothing, and says what it
    /// would do.
    Migrate {
        db: Text,
        dry_run: bool,
    },
    /// A new desk, in the file of the name `new`, of what the records have come to.
    Succeed {
        db: Text,
        new: Text,
    },
    /// What the desk would refuse of the manifest in the file of the name `file`, or of the
    /// request's body in that of the name `request`: one of them, or the words are no check's. With
    /// `strict` also what it may mean otherwise than it is written.
    Check {
        file: Option<Text>,
        request: Option<Text>,
        strict: bool,
    },
    /// What the manifests of Argo Rollouts in the files of these names are for a desk, with `-` for
    /// standard input, written to the folder of the name `out`; or what of them is not translated.
    /// With `json` it is said as one JSON value.
    Argo {
        files: Listed<Text>,
        out: Option<Text>,
        json: bool,
    },
    /// What a client asks of a desk.
    Ask(ClientCall),
}

/// Why a command line gives no program.
#[derive(Debug, Drop)]
pub enum WordsFault {
    /// It asks for help or for the version, which is this text.
    Help(String),
    /// It is not one that the desk takes. The text says why, and what is taken.
    Usage(String),
    /// An allocation was refused.
    Memory,
}

/// Reads a command line: the words after the program's name.
///
/// # Errors
/// `Help` if they ask for help or for the version, and `Usage` if they have a mistake, each
/// with the text for the user; `Memory` if an allocation was refused.
pub fn read_words(alloc: Global, words: &[String]) -> Result<Program, WordsFault>
    ensures program { IfOk result (λ p. program_of (map string_bytes words.now) ≡ Some p) }
    ensures taken { IfOk result (λ _. faults_of (map string_bytes words.now) ≡ []) }
    ensures fault { IfErr result (IsFor (faults_of (map string_bytes words.now))) }
    ensures spelled { faults_of (map string_bytes words.now) ≡ []
        → IsSome (program_of (map string_bytes words.now)) }
{
    let Ok(command) = desk_command(alloc) else {
        return Err(WordsFault::Memory);
    };
    match command.try_get_matches_from(words) {
        Ok(matches) => match program_of(alloc, &matches) {
            Ok(program) => Ok(program),
            Err(_) => Err(WordsFault::Memory),
        },
        Err(error) => Err(fault_of(alloc, &error)),
    }
}

// The program that the matches name.
fn program_of(alloc: Global, matches: &ArgMatches<'_>) -> Result<Program, AllocError>
    requires { HasProgram (subcommand_rows_of matches.now) }
    ensures { IfOk result (λ p.
        option_and_then program_in (subcommand_rows_of matches.now) ≡ Some p) }
{
    if let Some(pipe) = matches.subcommand_matches("pipe") {
        return pipe_of(alloc, pipe);
    }
    if let Some(serve) = matches.subcommand_matches("serve") {
        return serve_of(alloc, serve);
    }
    if let Some(import) = matches.subcommand_matches("import") {
        return import_of(alloc, import);
    }
    if let Some(history) = matches.subcommand_matches("history") {
        return history_of(alloc, history);
    }
    if let Some(export) = matches.subcommand_matches("export") {
        return export_of(alloc, export);
    }
    if let Some(status) = matches.subcommand_matches("status") {
        return status_of(alloc, status);
    }
    if let Some(page) = matches.subcommand_matches("page") {
        return page_of(alloc, page);
    }
    if let Some(backup) = matches.subcommand_matches("backup") {
        return backup_of(alloc, backup);
    }
    if let Some(migrate) = matches.subcommand_matches("migrate") {
        return migrate_of(alloc, migrate);
    }
    if let Some(succeed) = matches.subcommand_matches("succeed") {
        return succeed_of(alloc, succeed);
    }
    further_program_of(alloc, matches)
}

// The program of a command that reads manifests or asks a desk, which the matches name.
fn further_program_of(alloc: Global, matches: &ArgMatches<'_>) -> Result<Program, AllocError>
    requires { HasFurtherProgram (subcommand_rows_of matches.now) }
    ensures { IfOk result (λ p.
        option_and_then program_in (subcommand_rows_of matches.now) ≡ Some p) }
{
    if let Some(check) = matches.subcommand_matches("check") {
        return check_of(alloc, check);
    }
    if let Some(argo) = matches.subcommand_matches("argo") {
        return argo_of(alloc, argo);
    }
    client_program_of(alloc, matches)
}

// The program of `pipe` with these matches.
fn pipe_of(alloc: Global, pipe: &ArgMatches<'_>) -> Result<Program, AllocError>
    requires { HasPipe (rows_of (found_of pipe.now)) }
    ensures { IfOk result (λ p. pipe_of (rows_of (found_of pipe.now)) ≡ Some p) }
{
    Ok(Program::Pipe {
        at: moment_given(pipe, "at"),
        step: moment_given(pipe, "step"),
        db: optional_text(alloc, pipe, "db")?,
        cache: number_given(pipe, "cache"),
    })
}

// The program of `serve` with these matches.
fn serve_of(alloc: Global, serve: &ArgMatches<'_>) -> Result<Program, AllocError>
    requires { HasListener (rows_of (found_of serve.now)) }
    ensures { IfOk result (λ p. serve_of (rows_of (found_of serve.now)) ≡ Some p) }
{
    Ok(Program::Serve {
        listen: text_given(alloc, serve, "listen")?,
        db: optional_text(alloc, serve, "db")?,
        cache: number_given(serve, "cache"),
        connections: number_given(serve, "connections"),
        limits: limits_of(serve),
    })
}

// The program of `import` with these matches.
fn import_of(alloc: Global, import: &ArgMatches<'_>) -> Result<Program, AllocError>
    requires { HasImport (rows_of (found_of import.now)) }
    ensures { IfOk result (λ p. import_of (rows_of (found_of import.now)) ≡ Some p) }
{
    let (db, csv) = two_given(alloc, import, "db", "csv")?;
    Ok(Program::Import {
        db,
        cache: number_given(import, "cache"),
        csv,
    })
}

// The program of `history` with these matches.
fn history_of(alloc: Global, history: &ArgMatches<'_>) -> Result<Program, AllocError>
    requires { HasTexts (codes "service") (rows_of (found_of history.now)) }
    ensures { IfOk result (λ p. history_of (rows_of (found_of history.now)) ≡ Some p) }
{
    let (db, service) = two_given(alloc, history, "db", "service")?;
    Ok(Program::History { db, service })
}

// The program of `export` with these matches.
fn export_of(alloc: Global, export: &ArgMatches<'_>) -> Result<Program, AllocError>
    requires { HasExport (rows_of (found_of export.now)) }
    ensures { IfOk result (λ p. export_of (rows_of (found_of export.now)) ≡ Some p) }
{
    let records = two_given(alloc, export, "db", "caller")?;
    let service = text_given(alloc, export, "service")?;
    let (db, caller) = records;
    Ok(Program::Export {
        db,
        caller,
        service,
    })
}

// The program of `status` with these matches.
fn status_of(alloc: Global, status: &ArgMatches<'_>) -> Result<Program, AllocError>
    requires { HasStatus (rows_of (found_of status.now)) }
    ensures { IfOk result (λ p. status_of (rows_of (found_of status.now)) ≡ Some p) }
{
    Ok(Program::Status {
        db: text_given(alloc, status, "db")?,
        watch: number_given(status, "watch"),
        json: flag_given(status, "json"),
        prometheus: flag_given(status, "prometheus"),
    })
}

// The program of `page` with these matches.
fn page_of(alloc: Global, page: &ArgMatches<'_>) -> Result<Program, AllocError>
    requires { HasPage (rows_of (found_of page.now)) }
    ensures { IfOk result (λ p. page_of (rows_of (found_of page.now)) ≡ Some p) }
{
    let (db, out) = two_given(alloc, page, "db", "out")?;
    Ok(Program::Page {
        db,
        out,
        watch: number_given(page, "watch"),
        json: optional_text(alloc, page, "json")?,
    })
}

// The program of `backup` with these matches.
fn backup_of(alloc: Global, backup: &ArgMatches<'_>) -> Result<Program, AllocError>
    requires { HasBackup (rows_of (found_of backup.now)) }
    ensures { IfOk result (λ p. backup_of (rows_of (found_of backup.now)) ≡ Some p) }
{
    let (db, copy) = two_given(alloc, backup, "db", "copy")?;
    Ok(Program::Backup {
        db,
        copy,
        every: number_given(backup, "every"),
        keep: number_given(backup, "keep"),
    })
}

// The program of `migrate` with these matches.
fn migrate_of(alloc: Global, migrate: &ArgMatches<'_>) -> Result<Program, AllocError>
    requires { HasMigrate (rows_of (found_of migrate.now)) }
    ensures { IfOk result (λ p. migrate_of (rows_of (found_of migrate.now)) ≡ Some p) }
{
    Ok(Program::Migrate {
        db: text_given(alloc, migrate, "db")?,
        dry_run: flag_given(migrate, "dry-run"),
    })
}

// The program of `succeed` with these matches.
fn succeed_of(alloc: Global, succeed: &ArgMatches<'_>) -> Result<Program, AllocError>
    requires { HasTexts (codes "new") (rows_of (found_of succeed.now)) }
    ensures { IfOk result (λ p. succeed_of (rows_of (found_of succeed.now)) ≡ Some p) }
{
    let (db, new) = two_given(alloc, succeed, "db", "new")?;
    Ok(Program::Succeed { db, new })
}

// The program of `check` with these matches.
fn check_of(alloc: Global, check: &ArgMatches<'_>) -> Result<Program, AllocError>
    requires { HasCheck (rows_of (found_of check.now)) }
    ensures { IfOk result (λ p. check_of (rows_of (found_of check.now)) ≡ Some p) }
{
    let (file, request) = two_optional(alloc, check, "file", "request")?;
    Ok(Program::Check {
        file,
        request,
        strict: flag_given(check, "strict"),
    })
}

// The program of `argo` with these matches.
fn argo_of(alloc: Global, argo: &ArgMatches<'_>) -> Result<Program, AllocError>
    requires { HasArgo (rows_of (found_of argo.now)) }
    ensures { IfOk result (λ p. argo_of (rows_of (found_of argo.now)) ≡ Some p) }
{
    let files = texts_given(alloc, argo, "file")?;
    Ok(Program::Argo {
        files,
        out: optional_text(alloc, argo, "out")?,
        json: flag_given(argo, "json"),
    })
}

// The limits that were given.
fn limits_of(serve: &ArgMatches<'_>) -> AskedLimits
    requires { HasLimits (rows_of (found_of serve.now)) }
    ensures { result ≡ limits_of (rows_of (found_of serve.now)) }
{
    AskedLimits {
        read_timeout: number_given(serve, "read-timeout"),
        idle_timeout: number_given(serve, "idle-timeout"),
        max_clients: number_given(serve, "max-clients"),
        max_unsent: number_given(serve, "max-unsent"),
        max_unsent_total: number_given(serve, "max-unsent-total"),
    }
}

impl fmt::Display for WordsFault {
    // Writes the text of help or of a mistake as it is, or that memory was refused.
    fn fmt<W: fmt::Write>(&self, f: &mut fmt::Formatter<W>) -> fmt::Result {
        match self {
            WordsFault::Help(text) | WordsFault::Usage(text) => f.write_str(text.as_str()),
            WordsFault::Memory => f.write_str("out of memory"),
        }
    }
}

impl std::error::Error for WordsFault {}

// What an error of clap's says to the user.
fn fault_of(alloc: Global, error: &Error) -> WordsFault
    ensures { (kinds : Kinds) → HasKind kinds error.now → IsFor kinds result }
{
    let Ok(text) = text_of(alloc, error) else {
        return WordsFault::Memory;
    };
    match error.kind() {
        ErrorKind::OutOfMemory => WordsFault::Memory,
        ErrorKind::DisplayHelp | ErrorKind::DisplayVersion => WordsFault::Help(text),
        _ => WordsFault::Usage(text),
    }
}

// The text of an error of clap's, line after line. It has words of the user, whose marks are
// escaped.
fn text_of(alloc: Global, error: &Error) -> Result<String, Memory> {
    let told = format!(in alloc; "{error}")?;
    let mut text = String::new(alloc);
    for line in told.as_str().lines() {
        put_line(alloc, &mut text, line)?;
    }
    Ok(text)
}

// Appends a line as a terminal may show it, and its end.
fn put_line(alloc: Global, text: &mut String, line: &str) -> Result<(), Memory> {
    text.push_str(shown(alloc, line, TextKind::Line)?.as_str())?;
    text.push('\n')?;
    Ok(())
}
