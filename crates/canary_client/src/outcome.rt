//! How a call of the client ends, and what it says then.
ghost use Rattle.std.specs.Prelude.{◌≡◌, [], ◌∷◌, ◌++◌, OnOk};
ghost use Rattle.std.specs.Io.KnownBytes.{Appends};
ghost use Rattle.canary_client.specs.Outcomes.{status_of, outcome_of};

use canary_base::error::Memory;
use canary_base::lists::Text;
use canary_client_journal::entry::EntryRefusal;
use canary_client_journal::kept::KeepFault;
use canary_client_journal::settle::Unsettled;
use canary_shown::text::{TextKind, shown};
use std::alloc::{AllocError, AllocFailed, Global};
use std::io::Write;

// What is said if no answer came.
const UNANSWERED: &str =
    "pending: no answer came, so it may have acted or not; the same call again finds out";

const UNREAD: &str = "the file cannot be read";

/// How a call ends.
#[derive(Clone, Copy, Debug, PartialEq, Eq)]
pub enum ClientExit {
    /// It is done, or what was asked for was found.
    Done,
    /// The desk refused it; or there is no such thing, or nothing to do.
    Refused,
    /// The words are not what the client takes.
    Words,
    /// There is no answer: it may have acted or not. The same call again finds out.
    Pending,
    /// The desk and the journal contradict each other: a person has to look.
    Contradiction,
    /// The journal, another file, memory or the output failed here.
    Local,
    /// Another command took its place, or came too late to.
    Late,
    /// An analysis is Inconclusive: somebody has to decide.
    Held,
    /// The desk refused a row of a measurement file, or did not look at it.
    RowsRefused,
}

impl ClientExit {
    /// The exit status.
    pub fn status(self) -> u8
        ensures { result ≡ status_of self }
    {
        match self {
            ClientExit::Done => 0,
            ClientExit::Refused => 1,
            ClientExit::Words => 2,
            ClientExit::Pending => 3,
            ClientExit::Contradiction => 4,
            ClientExit::Local => 5,
            ClientExit::Late => 6,
            ClientExit::Held => 7,
            ClientExit::RowsRefused => 8,
        }
    }
}

/// Why a call ended before it was done.
#[derive(Clone, Copy, PartialEq, Eq)]
pub enum Stop {
    /// The desk's address is not a host and a port.
    Address,
    /// No caller is given.
    NoCaller,
    /// The caller is an invalid name.
    BadCaller,
    /// No journal is given.
    NoJournal,
    /// CANARY_DESK is not UTF-8.
    DeskNotUtf8,
    /// CANARY_AS is not UTF-8.
    CallerNotUtf8,
    /// CANARY_JOURNAL is not UTF-8.
    JournalNotUtf8,
    /// CANARY_JOURNALS is not UTF-8.
    JournalsNotUtf8,
    /// The words are no command.
    Command,
    /// The version is missing.
    NoVersion,
    /// The version is an invalid label.
    BadVersion,
    /// The metric is an invalid label.
    BadMetric,
    /// The result is neither a whole number nor a list of them.
    Result,
    /// Why a measurement failed is not a text that the desk takes.
    Failure,
    /// The run is an invalid number.
    Run,
    /// The service is an invalid name.
    BadService,
    /// What is asked for of a service is neither `history` nor the number of a run.
    Part,
    /// A word of `--until` is unknown.
    Status,
    /// What never ends has no word at which it ends.
    ForeverUntil,
    /// The desk would not take the manifest.
    Manifest,
    /// Something was found in manifests of Argo Rollouts.
    Argo,
    /// What is translated is neither a template nor a service, or no file is given.
    ArgoCommand,
    /// The files have nothing of what is asked for.
    ArgoNothing,
    /// The first record of a measurement file is another.
    Header,
    /// The journal is another caller's.
    OtherCaller,
    /// A report cannot be asked in the place of another command.
    ReportInstead,
    /// A command that takes the place of another one has no key of its own.
    KeyInstead,
    /// The key is empty.
    KeyEmpty,
    /// There is no such service.
    NoService,
    /// There is no such run.
    NoRun,
    /// The run has no such metric.
    NoMetric,
    /// The desk refused a query for another reason.
    Query,
    /// The desk answered a query, and its reply cannot be read.
    ReplyUnread,
    /// No desk said which number comes next.
    NotBegun,
    /// The desk's name has no address.
    DeskName,
    /// No desk answered a query.
    NoDesk,
    /// No desk settled what is pending.
    Unanswered,
    /// A row of a measurement file was not answered.
    RowUnanswered,
    /// The desk settled another command under the number of a row.
    RowReused,
    /// The desk has not settled what comes before a row.
    RowAhead,
    /// The desk cannot read a row.
    RowUnread,
    /// What is waited for did not come in time.
    TimeOut,
    /// The desk settled another command under the number.
    Reused,
    /// The desk has settled fewer commands than the journal.
    Ahead,
    /// The desk cannot read the command.
    Unread,
    /// The key stands for another command.
    KeyUsed,
    /// Another command was asked in its place already.
    Replaced,
    /// The caller has no number left.
    Spent,
    /// The journal does not take the entry.
    Refused,
    /// Another client has the journal open.
    InUse,
    /// The journal cannot be opened, read or written.
    Journal,
    /// The journal's file has no room left.
    JournalFull,
    /// The journal's file is no whole journal.
    JournalBroken,
    /// The journal is no regular file.
    JournalNoFile,
    /// The journal's file was there and has no byte, and the desk has settled requests of the
    /// caller.
    JournalEmptied,
    /// A file cannot be read.
    File,
    /// A file of Argo's manifests cannot be read.
    ArgoFile,
    /// A measurement file has too many rows or bytes.
    RowsSpent,
    /// The output failed.
    Output,
    /// The clock failed.
    Clock,
    /// The clock is past the last moment that a desk takes.
    LateClock,
    /// An allocation was refused.
    Memory,
}

impl Stop {
    /// How the call ends.
    pub fn outcome(self) -> ClientExit
        ensures { result ≡ outcome_of self }
    {
        match self {
            Stop::Address | Stop::NoCaller | Stop::BadCaller | Stop::NoJournal => ClientExit::Words,
            Stop::DeskNotUtf8 | Stop::CallerNotUtf8 => ClientExit::Words,
            Stop::JournalNotUtf8 | Stop::JournalsNotUtf8 => ClientExit::Words,
            Stop::Command | Stop::Result | Stop::Failure | Stop::Run => ClientExit::Words,
            Stop::NoVersion | Stop::BadVersion | Stop::BadMetric => ClientExit::Words,
            Stop::BadService | Stop::Part | Stop::ForeverUntil => ClientExit::Words,
            Stop::Status | Stop::Manifest | Stop::Header => ClientExit::Words,
            Stop::Argo | Stop::ArgoCommand | Stop::ArgoNothing => ClientExit::Words,
            Stop::OtherCaller | Stop::ReportInstead => ClientExit::Words,
            Stop::KeyInstead | Stop::KeyEmpty => ClientExit::Words,
            Stop::NoService | Stop::NoRun | Stop::NoMetric | Stop::Query => ClientExit::Refused,
            Stop::NotBegun | Stop::DeskName | Stop::NoDesk => ClientExit::Pending,
            Stop::Unanswered | Stop::RowUnanswered | Stop::TimeOut => ClientExit::Pending,
            Stop::Reused | Stop::Ahead | Stop::Unread | Stop::KeyUsed => ClientExit::Contradiction,
            Stop::Replaced | Stop::Spent | Stop::Refused => ClientExit::Contradiction,
            Stop::RowReused | Stop::RowAhead | Stop::RowUnread => ClientExit::Contradiction,
            Stop::ReplyUnread => ClientExit::Contradiction,
            Stop::InUse | Stop::Journal | Stop::JournalFull => ClientExit::Local,
            Stop::JournalBroken | Stop::JournalNoFile | Stop::JournalEmptied => ClientExit::Local,
            Stop::File | Stop::ArgoFile | Stop::RowsSpent => ClientExit::Local,
            Stop::Output | Stop::Clock | Stop::LateClock | Stop::Memory => ClientExit::Local,
        }
    }

    /// Whether it is of the journal's file.
    pub fn is_of_journal(self) -> bool {
        match self {
            Stop::InUse | Stop::Journal | Stop::JournalFull | Stop::JournalBroken => true,
            Stop::JournalNoFile | Stop::JournalEmptied => true,
            _ => false,
        }
    }

    /// The sentence that says so.
    pub fn sentence(self) -> &'static str {
        match self.outcome() {
            ClientExit::Words => self.of_words(),
            ClientExit::Contradiction => self.of_contradiction(),
            ClientExit::Local => self.of_this_machine(),
            _ => self.of_desk(),
        }
    }

    // The sentence of a stop that ends as `Words`; that of `Command` lists the commands.
    fn of_words(self) -> &'static str {
        match self {
            Stop::Address => "the desk's address is not HOST:PORT (--desk or CANARY_DESK)",
            Stop::NoCaller => "a caller has to be given: --as NAME or CANARY_AS",
            Stop::BadCaller => {
                "the caller has an invalid name: 1 to 63 of a-z, 0-9 and '-', no '-' at an end"
            }
            Stop::NoJournal => "a journal has to be given: --journal FILE or CANARY_JOURNAL",
            Stop::DeskNotUtf8 => "the variable CANARY_DESK is not UTF-8: nothing was asked",
            Stop::CallerNotUtf8 => "the variable CANARY_AS is not UTF-8: nothing was asked",
            Stop::JournalNotUtf8 => "the variable CANARY_JOURNAL is not UTF-8: nothing was asked",
            Stop::JournalsNotUtf8 => "the variable CANARY_JOURNALS is not UTF-8: nothing was asked",
            Stop::Result => "the result is neither a whole number nor a list of them, as [1,2]",
            Stop::Failure => "why a measurement failed is a text of 1 to 200 bytes",
            Stop::Run => "the number of a run is 1 to 1000000000",
            Stop::NoVersion => {
                "the VERSION is missing: a version is 1 to 63 of A-Z, a-z, 0-9, '.', '_' and '-'"
            }
            Stop::BadVersion => {
                "the VERSION is invalid: a version is 1 to 63 of A-Z, a-z, 0-9, '.', '_' and '-'"
            }
            Stop::BadMetric => {
                "the METRIC has an invalid name: 1 to 63 of A-Z, a-z, 0-9, '.', '_' and '-'"
            }
            Stop::BadService => {
                "the service has an invalid name: 1 to 63 of a-z, 0-9 and '-', no '-' at an end"
            }
            Stop::Part => "of a service, 'history' or the number of a run can be asked for",
            Stop::Status => {
                "--until takes Healthy, Degraded, Paused, Progressing, Held and Waiting"
            }
            Stop::ForeverUntil => "--forever and --until cannot both be given",
            Stop::Manifest => {
                "the desk would not take this manifest: 'canary check' says why, and Argo's \
                manifests need --argo"
            }
            Stop::Argo => "nothing was sent: these manifests are not translated",
            Stop::ArgoCommand => "--argo takes template FILE.. or service FILE.. VERSION",
            Stop::ArgoNothing => "nothing was sent: no such manifest is in these files",
            Stop::Header => "the first record of the file is not the header of a measurement file",
            Stop::OtherCaller => "this journal is another caller's",
            Stop::ReportInstead => "a report cannot be asked in the place of another command",
            Stop::KeyInstead => "--once and --instead cannot both be given",
            Stop::KeyEmpty => "the KEY of --once is empty",
            _ => {
                "a command is promote, promote-full, abort, retry or tick SERVICE; start SERVICE \
                 VERSION; template FILE; service FILE VERSION; report SERVICE RUN METRIC RESULT, \
                 or with --failure TEXT in place of RESULT"
            }
        }
    }

    // The sentence of a stop that ends as `Refused` or `Pending`.
    fn of_desk(self) -> &'static str {
        match self {
            Stop::NoService => "there is no such service",
            Stop::NoRun => "there is no such run",
            Stop::NoMetric => "the run has no such metric",
            Stop::Query => "the desk refused the query",
            Stop::NotBegun => {
                "no desk said which number of this caller comes next: nothing was asked"
            }
            Stop::DeskName => {
                "the system knows no address of the desk's name: nothing was asked"
            }
            Stop::Unanswered => UNANSWERED,
            Stop::RowUnanswered => {
                "pending: no answer came to the next row; the same call again goes on from there"
            }
            Stop::TimeOut => "what is waited for did not come in time",
            _ => "no desk answered",
        }
    }

    // The sentence of a stop that ends as `Contradiction`.
    fn of_contradiction(self) -> &'static str {
        match self {
            Stop::Reused => {
                "reused: the desk settled another command under this number. Somebody else sends \
                 under this name, or the journal is an old copy; nothing was sent after that"
            }
            Stop::Ahead => {
                "ahead: the desk has settled fewer commands of this caller than the journal has. \
                 The desk was restored from an older copy, or it is another desk"
            }
            Stop::Unread => {
                "the desk cannot read this command, so it will never be settled; another one can \
                 take its place (--instead)"
            }
            Stop::KeyUsed => "this key stands for another command in this journal",
            Stop::Replaced => {
                "another command was asked in its place already, and is not answered yet"
            }
            Stop::RowReused => {
                "reused: the desk settled another command under the number of this row. The file \
                 was changed, or somebody else sends under this name"
            }
            Stop::RowAhead => {
                "ahead: the desk has not settled what comes before this row. A row is missing, or \
                 the desk was restored from an older copy"
            }
            Stop::RowUnread => {
                "the desk cannot read this row, so it will never be settled; nothing was sent \
                 after that"
            }
            Stop::ReplyUnread => {
                "the desk's reply cannot be read: the desk is of another version, or something \
                 changed the reply on its way"
            }
            Stop::Spent => "this caller has no number left: go on under another name",
            _ => "the journal does not take this",
        }
    }

    // The sentence of a stop that ends as `Local`.
    fn of_this_machine(self) -> &'static str {
        match self {
            Stop::InUse => "another client has this journal open",
            Stop::Journal => "the journal cannot be opened, read or written",
            Stop::JournalFull => "the journal's file has no room left",
            Stop::JournalBroken => {
                "this file is no whole journal: it is another file, or was cut short or changed. \
                 It is left as it is. Restore it, or move it away"
            }
            Stop::JournalNoFile => {
                "the journal has to be a regular file: this is a folder, a FIFO, a device or a \
                 socket"
            }
            Stop::JournalEmptied => {
                "this journal is empty, and the desk has settled commands of this caller. It is \
                 left as it is. Restore it, or remove it to begin a new one"
            }
            Stop::File => UNREAD,
            Stop::ArgoFile => "nothing was sent: a file cannot be read",
            Stop::RowsSpent => "the file has more than 1,000,000 rows, or 1,000,000,000 bytes",
            Stop::Output => "the output failed or was closed",
            Stop::Clock => "the clock cannot be read",
            Stop::LateClock => {
                "the clock is past the last moment that a desk takes, the end of the year 9998: \
                 nothing was asked"
            }
            _ => "out of memory",
        }
    }
}

/// Says why a call stopped, on `errors`, and answers how it ends. A fault of `errors` is ignored.
pub fn tell<F: Write>(stop: Stop, errors: &mut F) -> ClientExit {
    say(errors, stop.sentence());
    stop.outcome()
}

/// Writes a sentence on `errors`, after `canary: `. A fault of `errors` is ignored.
pub fn say<F: Write>(errors: &mut F, sentence: &str) {
    let _ = errors.write_all(b"canary: ");
    let _ = errors.write_all(sentence.as_bytes());
    let _ = errors.write_all(b"\n");
}

/// Writes each of these lines on `errors`, as `say` does.
pub fn say_lines<F: Write>(errors: &mut F, lines: &str) {
    say_each(errors, "canary: ", lines);
}

/// Writes each of these lines on `errors` as a warning, after `canary: warning: `. A fault of
/// `errors` is ignored.
pub fn say_warnings<F: Write>(errors: &mut F, lines: &str) {
    say_each(errors, "canary: warning: ", lines);
}

// Writes each of these lines after these words.
fn say_each<F: Write>(errors: &mut F, before: &str, lines: &str) {
    for line in lines.lines() {
        let _ = errors.write_all(before.as_bytes());
        let _ = errors.write_all(line.as_bytes());
        let _ = errors.write_all(b"\n");
    }
}

/// Writes a sentence on `errors`, as `say` does, and the path of the file that it speaks of.
/// Characters of the path that would command a terminal are escaped; if memory for that is refused,
/// the path is left out. A fault of `errors` is ignored.
pub fn say_of<F: Write>(alloc: Global, errors: &mut F, sentence: &str, path: &str) {
    match shown(alloc, path, TextKind::Line) {
        Ok(path) => {
            let _ = errors.write_all(b"canary: ");
            let _ = errors.write_all(sentence.as_bytes());
            let _ = errors.write_all(b": ");
            let _ = errors.write_all(path.as_bytes());
            let _ = errors.write_all(b"\n");
        }
        Err(_) => say(errors, sentence),
    }
}

/// Says that the file at this index of the names cannot be read.
pub fn say_unread<F: Write>(alloc: Global, errors: &mut F, names: &[Text], index: usize) {
    match names.get(index) {
        Some(name) => say_of(alloc, errors, UNREAD, name.as_str()),
        None => say(errors, UNREAD),
    }
}

/// Writes a line on `output`.
///
/// # Errors
/// `Output` if the output failed.
pub fn show<W: Write>(output: &mut W, line: &str) -> Result<(), Stop>
    ensures { OnOk result
        (Appends (W.contents output.old) (W.contents output.new) (line.now ++ 10 ∷ [])) }
{
    match output.write_all(line.as_bytes()) {
        Ok(()) => {}
        Err(_) => return Err(Stop::Output),
    }
    match output.write_all(b"\n") {
        Ok(()) => Ok(()),
        Err(_) => Err(Stop::Output),
    }
}

impl From<Memory> for Stop {
    // A refused allocation is `Stop::Memory`.
    fn from(_: Memory) -> Stop {
        Stop::Memory
    }
}

impl<T: Drop> From<AllocFailed<T>> for Stop {
    // The same if a value found no room, which is dropped.
    fn from(_: AllocFailed<T>) -> Stop {
        Stop::Memory
    }
}

impl From<AllocError> for Stop {
    // The same of an allocation of the standard library.
    fn from(_: AllocError) -> Stop {
        Stop::Memory
    }
}

impl From<KeepFault> for Stop {
    // A fault of the journal. A refusal without a stop of its own is `Refused`.
    fn from(fault: KeepFault) -> Stop {
        match fault {
            KeepFault::Memory => Stop::Memory,
            KeepFault::Failed => Stop::Journal,
            KeepFault::Full => Stop::JournalFull,
            KeepFault::Broken => Stop::JournalBroken,
            KeepFault::Refused(EntryRefusal::Replaced) => Stop::Replaced,
            KeepFault::Refused(EntryRefusal::Spent) => Stop::Spent,
            KeepFault::Refused(EntryRefusal::KeyUsed) => Stop::KeyUsed,
            KeepFault::Refused(_) => Stop::Refused,
        }
    }
}

impl From<Unsettled> for Stop {
    // Why a request is not settled. A fault of the journal has its own stop.
    fn from(unsettled: Unsettled) -> Stop {
        match unsettled {
            Unsettled::Pending => Stop::Unanswered,
            Unsettled::Reused => Stop::Reused,
            Unsettled::Ahead(_) => Stop::Ahead,
            Unsettled::Unread => Stop::Unread,
            Unsettled::Kept(fault) => fault.into(),
            Unsettled::Memory => Stop::Memory,
        }
    }
}
