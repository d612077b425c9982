//! Opening the file at a path as a database of SQLite.
ghost use Rattle.std.specs.Prelude.{codes, ◌≡◌, ◌==◌, true, false, IsTrue, IfOk, IfErr};
ghost use Rattle.std.specs.List.{starts_with};
ghost use Rattle.sqlite.specs.Files.{file_state, IsEmpty, IsOpened, Finds};
ghost use Rattle.sqlite.specs.Held.{IsNew};
ghost use Rattle.sqlite.specs.Opening.{is_open_error};
ghost use Rattle.sqlite.specs.Start.{FindsIn};
ghost use Rattle.sqlite.specs.State.{HasCleanDisk};
ghost use Rattle.sqlite_std_file.specs.File.{file_is_usable, IsFresh};
ghost use Rattle.sqlite_wal.specs.Files.{image_at, seen_image};
ghost use Rattle.sqlite_wal.specs.Reads.{AreClean};
ghost use Rattle.canary_tables_file.specs.Found.{HaveNoDatabase, HoldNothing};

use crate::fault::{CANNOT_OPEN, NO_MEMORY};
use crate::make::make;
use crate::options::options;
use crate::pages::{is_blank, page_size};
use crate::reading::{ReadingProgress, ReportingDisk, with_reports};
use sqlite::{Connection, Error, ErrorCode, FileFrom, FileStore, Files, Options, Start};
use sqlite_disk::Disk;
use sqlite_std_file::OpenError;
use std::alloc::Global;
use std::hash::{BuildHasher, RandomState};
use std::io::ErrorKind;

/// Opens the file of SQLite at a path, or makes it with pages of 512 bytes. One that is there keeps
/// the pages that it has. Each page, row and index of it is read and checked, and what is read of
/// the file then, and later on, is reported to `reading`. A log stands beside the file, which
/// belongs to it. `start` stands for what both held.
///
/// # Errors
///
/// `DatabaseBusy` if another program has the file open; `OutOfMemory` if an allocation was refused;
/// `NotADatabase` if it is no database; `CannotOpen` if the system does not open it, if a rollback
/// journal stands beside it, or if the path is `:memory:` or begins as a URI; `DiskFull` if there
/// is no room; `SystemIoFailure` or `DatabaseCorrupt` if the disk failed otherwise.
pub fn connect<S: Start, P: ReadingProgress>(
    rt: &HostRuntime,
    path: &str,
    reading: P,
    start: S,
) -> Result<Connection<FileStore<ReportingDisk<FileFrom<S>, P>>>, Error>
    ensures memory { path.now ≡ codes ":memory:"
        → result ≡ Err (Error.SqliteFailure ErrorCode.CannotOpen) }
    ensures uri { IsTrue (starts_with (λ a b. a == b) path.now (codes "file:"))
        → result ≡ Err (Error.SqliteFailure ErrorCode.CannotOpen) }
    ensures named { IfErr result (λ e. IsTrue (is_open_error e)) }
    ensures opened { IfOk result (λ c. HasCleanDisk (file_state c) → IsOpened c) }
    ensures fresh { IfOk result IsNew }
    ensures guarded { IfOk result
        (λ c. HasCleanDisk (file_state c) → (file_state c).IsShielded) }
    ensures found { IfOk result (λ c. HasCleanDisk (file_state c)
        → ¬ HaveNoDatabase (image_at S.Start) → FindsIn (image_at S.Start) (file_state c)) }
    ensures made { IfOk result (λ c. HasCleanDisk (file_state c)
        → HaveNoDatabase (image_at S.Start) → IsEmpty (file_state c).committed.trees) }
{
    let seed = seed(rt)?;
    let files = whole_files(rt, path, seed, start)?;
    connection(rt.alloc(), with_reports(files, reading), seed)
}

// The connection to files.
fn connection<D: Disk + Drop>(
    alloc: Global,
    mut files: Files<D>,
    seed: u64,
) -> Result<Connection<FileStore<D>>, Error>
    requires log { IsTrue (D.Disk.is_usable files.log) }
    requires db { IsTrue (D.Disk.is_usable files.db) }
    ensures named { IfErr result (λ e. IsTrue (is_open_error e)) }
    ensures opened { IfOk result (λ c. HasCleanDisk (file_state c) → IsOpened c) }
    ensures fresh { IfOk result IsNew }
    ensures guarded { IfOk result
        (λ c. HasCleanDisk (file_state c) → (file_state c).IsShielded) }
    ensures found { IfOk result (λ c. HasCleanDisk (file_state c) → Finds files c) }
{
    match page_size(&mut files) {
        Ok(size) => connection_by(alloc, files, options(size, seed)),
        Err(error) => Err(error),
    }
}

// The same with these options.
fn connection_by<D: Disk + Drop>(
    alloc: Global,
    files: Files<D>,
    options: Options,
) -> Result<Connection<FileStore<D>>, Error>
    requires log { IsTrue (D.Disk.is_usable files.log) }
    requires db { IsTrue (D.Disk.is_usable files.db) }
    ensures named { IfErr result (λ e. IsTrue (is_open_error e)) }
    ensures opened { IfOk result (λ c. HasCleanDisk (file_state c) → IsOpened c) }
    ensures fresh { IfOk result IsNew }
    ensures guarded { IfOk result
        (λ c. HasCleanDisk (file_state c) → (file_state c).IsShielded) }
    ensures found { IfOk result (λ c. HasCleanDisk (file_state c) → Finds files c) }
{
    match Connection::open_files(alloc, files, options) {
        Ok(conn) => Ok(conn),
        Err((error, _)) => Err(error),
    }
}

// The file at a path and its log, which nobody else opens as a database meanwhile. If they have no
// database, an empty one is made in them.
fn whole_files<S: Start>(
    rt: &HostRuntime,
    path: &str,
    seed: u64,
    start: S,
) -> Result<Files<FileFrom<S>>, Error>
    ensures memory { path.now ≡ codes ":memory:"
        → result ≡ Err (Error.SqliteFailure ErrorCode.CannotOpen) }
    ensures uri { IsTrue (starts_with (λ a b. a == b) path.now (codes "file:"))
        → result ≡ Err (Error.SqliteFailure ErrorCode.CannotOpen) }
    ensures named { IfErr result (λ e. IsTrue (is_open_error e)) }
    ensures usable { IfOk result (λ files. IsTrue (file_is_usable S.Start files.log)
        × IsTrue (file_is_usable S.Start files.db)) }
    ensures found { IfOk result (λ files. AreClean ⟦<FileFrom<S> as Disk>⟧ files.log files.db
        → ¬ HaveNoDatabase (image_at S.Start)
        → seen_image ⟦<FileFrom<S> as Disk>⟧ files.log files.db ≡ image_at S.Start) }
    ensures made { IfOk result (λ files. AreClean ⟦<FileFrom<S> as Disk>⟧ files.log files.db
        → HaveNoDatabase (image_at S.Start)
        → ∥ HoldNothing (seen_image ⟦<FileFrom<S> as Disk>⟧ files.log files.db) ∥₁) }
{
    let mut files = open_pair(rt, path, start)?;
    match is_blank(rt.alloc(), &mut files) {
        Ok(true) => make(rt.alloc(), files, seed),
        Ok(false) => Ok(files),
        Err(error) => Err(error),
    }
}

// The file at a path and its log, which nobody else opens as a database meanwhile.
pub(crate) fn open_pair<S: Start>(
    rt: &HostRuntime,
    path: &str,
    start: S,
) -> Result<Files<FileFrom<S>>, Error>
    ensures memory { path.now ≡ codes ":memory:"
        → result ≡ Err (Error.SqliteFailure ErrorCode.CannotOpen) }
    ensures uri { IsTrue (starts_with (λ a b. a == b) path.now (codes "file:"))
        → result ≡ Err (Error.SqliteFailure ErrorCode.CannotOpen) }
    ensures named { IfErr result (λ e. IsTrue (is_open_error e)) }
    ensures usable { IfOk result (λ files. IsTrue (file_is_usable S.Start files.log)
        × IsTrue (file_is_usable S.Start files.db)) }
    ensures fresh { IfOk result (λ files. IsFresh true files.log × IsFresh false files.db) }
{
    if path == ":memory:" || path.as_bytes().starts_with(b"file:") {
        return Err(CANNOT_OPEN);
    }
    match sqlite_std_file::open(rt, path, start) {
        Ok(files) => Ok(files),
        Err(OpenError::Busy) => Err(Error::SqliteFailure(ErrorCode::DatabaseBusy)),
        Err(OpenError::OutOfMemory) => Err(NO_MEMORY),
        Err(OpenError::Io(error)) if error.kind() == ErrorKind::OutOfMemory => Err(NO_MEMORY),
        Err(_) => Err(CANNOT_OPEN),
    }
}

// A random number, for the salts of the log.
pub(crate) fn seed(rt: &HostRuntime) -> Result<u64, Error>
    ensures { IfErr result (λ e. e ≡ Error.SqliteFailure ErrorCode.CannotOpen) }
{
    let random = RandomState::new(rt).map_err(|_| CANNOT_OPEN)?;
    Ok(random.hash_one(&0u8))
}
