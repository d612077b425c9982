//! The file of a desk before it is opened.
ghost use Rattle.std.specs.Prelude.{◌≡◌, IfErr};
ghost use Rattle.canary_cli_desk.specs.Opened.{IsOfLook, of_tables};
ghost use Rattle.canary_programs.specs.declared.fault.Fault.TheVariants as fault;

use crate::checking::CheckDisplay;
use crate::named::{bytes_of, log_of, look_at_names, look_for_log};
use canary_programs::fault::Fault;
use canary_tables::book::DEFAULT_ROOM;
use canary_tables::fault::TableFault;
use canary_tables_file::connect::connect;
use canary_tables_schema::first::is_first;
use canary_tables_schema::recognize::is_desk;
use sqlite::{Alter, Connection, Error, ErrorCode, Unknown};
use std::fs::{self, Files};
use std::io::{self, ErrorKind, Read};

/// The file of a desk, and the room in bytes for what is kept of it in memory; if none is given,
/// that of canary_tables.
#[derive(Clone, Copy)]
pub struct DeskFile<'a> {
    /// Its name.
    pub name: &'a str,
    /// The room.
    pub cache: Option<u64>,
}

impl<'a> DeskFile<'a> {
    /// The file of this name, with the room that canary_tables gives.
    pub fn named(name: &'a str) -> DeskFile<'a> {
        DeskFile { name, cache: None }
    }

    // The room for what is kept of it.
    pub(crate) fn room(&self) -> u64 {
        self.cache.unwrap_or(DEFAULT_ROOM)
    }
}

// The first bytes of each database of SQLite.
const FIRST_BYTES: &[u8] = b"SQLite format 3\0";

/// Looks at what stands under the names of a file and of its log, before the file is opened as a
/// desk's or made, and finds how many bytes both have.
///
/// # Errors
/// `Storage` if either is something else than a file, or if the file does not begin as a database;
/// `LogAlone` if it is missing or has no bytes, and its log has a frame; `Memory` if an allocation
/// was refused. Nothing is opened or made then.
pub(crate) fn bytes_to_open<P: Files + AllocGlobal>(rt: &P, file: &str) -> Result<u64, Fault>
    ensures { IfErr result IsOfLook }
{
    look_for_log(rt, file)?;
    if has_other_bytes(rt, file)? {
        return Err(Fault::Storage);
    }
    Ok(bytes_of(rt, file))
}

/// Finds whether there is a file of this name, as far as the system says so.
///
/// # Errors
/// `File` if there is none.
pub(crate) fn find<P: Files>(files: &P, file: &str) -> Result<(), Fault>
    ensures { IfErr result (λ f. f ≡ fault.File) }
{
    if is_missing(files, file) {
        return Err(Fault::File);
    }
    Ok(())
}

/// Whether there is no file of this name, where all links lead.
pub(crate) fn is_missing<P: Files>(files: &P, file: &str) -> bool {
    matches!(fs::exists(files, file), Ok(false))
}

/// Whether the file of this name has bytes, does not begin as a database of SQLite does, and has no
/// log beside it, as far as the system says so. A desk that failed as it made its file may leave
/// one that begins otherwise; the log has its pages then.
///
/// # Errors
/// What `look_at_names` answers, and `Memory` if an allocation was refused.
pub(crate) fn has_other_bytes<P: Files + AllocGlobal>(rt: &P, file: &str) -> Result<bool, Fault>
    ensures { IfErr result IsOfLook }
{
    look_at_names(rt, file)?;
    if_read(is_other(rt, file))
}

/// Whether the file of this name has no bytes, and no log beside it, as far as the system says so.
/// To open it would write to it.
///
/// # Errors
/// `Memory` if an allocation was refused.
pub(crate) fn is_blank<P: Files + AllocGlobal>(rt: &P, file: &str) -> Result<bool, Fault>
    ensures { IfErr result (λ f. f ≡ fault.Memory) }
{
    if_read(is_unwritten(rt, file))
}

// What was read of a file: false if it cannot be read.
fn if_read(read: io::Result<bool>) -> Result<bool, Fault>
    ensures { IfErr result (λ f. f ≡ fault.Memory) }
{
    match read {
        Ok(is_so) => Ok(is_so),
        Err(error) if error.kind() == ErrorKind::OutOfMemory => Err(Fault::Memory),
        Err(_) => Ok(false),
    }
}

// Whether the file has bytes that begin no database, and no log; an error if it is unreadable.
fn is_other<P: Files + AllocGlobal>(rt: &P, file: &str) -> io::Result<bool> {
    Ok(begins_otherwise(rt, file)? && lacks_log(rt, file)?)
}

// Whether the file has no bytes, and no log; an error if it is unreadable.
fn is_unwritten<P: Files + AllocGlobal>(rt: &P, file: &str) -> io::Result<bool> {
    Ok(first_bytes(rt, file)?.is_empty() && lacks_log(rt, file)?)
}

// Whether the file of this name has bytes, and not the first ones of a database.
fn begins_otherwise<P: Files + AllocGlobal>(rt: &P, file: &str) -> io::Result<bool> {
    let bytes = first_bytes(rt, file)?;
    Ok(!bytes.is_empty() && bytes.as_slice() != FIRST_BYTES)
}

// Whether no log stands beside the file, where all links lead.
fn lacks_log<P: Files + AllocGlobal>(rt: &P, file: &str) -> io::Result<bool> {
    let log = log_of(rt, file)?;
    Ok(is_missing(rt, log.as_str()))
}

// The first bytes of the file of this name, as many as a database begins with.
fn first_bytes<P: Files + AllocGlobal>(rt: &P, file: &str) -> io::Result<Vec<u8>> {
    let mut bytes = Vec::new(rt.alloc());
    let mut first = fs::File::open(rt, file)?.take(FIRST_BYTES.len() as u64);
    first.read_to_end(&mut bytes)?;
    Ok(bytes)
}

/// The fault of the tables, under the name that it has on the command line.
pub(crate) fn fault_of(fault: TableFault) -> Fault
    ensures { result ≡ of_tables fault }
{
    match fault {
        TableFault::Memory => Fault::Memory,
        TableFault::Storage => Fault::Storage,
        TableFault::InUse => Fault::InUse,
        TableFault::OtherSchema => Fault::OtherSchema,
        TableFault::BrokenRow => Fault::BrokenRow,
    }
}

/// Of which version a database's tables are.
#[derive(Clone, Copy, Debug, PartialEq, Eq)]
pub(crate) enum TablesVersion {
    /// A desk's of this version.
    Desk,
    /// A desk's of the first version.
    First,
    /// Others.
    Other,
}

/// Of which version the tables in the file of this name are. Its rows are not judged.
///
/// # Errors
/// `OtherSchema` if the file is not a database of SQLite; `Memory` if an allocation was refused;
/// `Storage` if it cannot be opened otherwise.
pub(crate) fn tables_version(rt: &HostRuntime, file: &str) -> Result<TablesVersion, Fault> {
    let opened = connect(rt, file, CheckDisplay::silent(rt), Unknown);
    version_of(&opened)
}

// Of which version the tables are to which a connection was opened, over any store.
fn version_of<S: Alter + Drop>(
    opened: &Result<Connection<S>, Error>,
) -> Result<TablesVersion, Fault> {
    match opened {
        Ok(conn) if is_desk(conn.schema()) => Ok(TablesVersion::Desk),
        Ok(conn) if is_first(conn.schema()) => Ok(TablesVersion::First),
        Ok(_) => Ok(TablesVersion::Other),
        Err(error) => Err(unopened(*error)),
    }
}

// Why a file could not be opened: that no database has its bytes is one cause.
fn unopened(error: Error) -> Fault {
    match error {
        Error::SqliteFailure(ErrorCode::NotADatabase) => Fault::OtherSchema,
        Error::SqliteFailure(ErrorCode::OutOfMemory) => Fault::Memory,
        _ => Fault::Storage,
    }
}
