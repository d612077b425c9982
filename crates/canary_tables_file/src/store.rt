//! Opening the file at a path as a store, over which there is no connection yet.
ghost use Rattle.std.specs.Prelude.{codes, ◌≡◌, ◌==◌, IsTrue, IfOk, IfErr, IfSome, OnOk};
ghost use Rattle.std.specs.List.{starts_with};
ghost use Rattle.sqlite.specs.Files.{AreFoundIn};
ghost use Rattle.sqlite.specs.Opening.{is_open_error};
ghost use Rattle.sqlite.specs.Steps.{IsFresh};
ghost use Rattle.sqlite_store.specs.FileStore.{view, is_shielded};
ghost use Rattle.sqlite_store.specs.Unopened.{image, AreUsable};
ghost use Rattle.sqlite_trees.specs.View.{IsClean};
ghost use Rattle.sqlite_wal.specs.Files.{image_at};
ghost use Rattle.canary_tables_file.specs.Found.{HasPagesOf, HasPagesSeen, ReadsItsPages};
ghost use Rattle.canary_tables_file.specs.Found.{IsOpenedFrom};

use crate::connect::{open_pair, seed};
use crate::fault::error_of;
use crate::listing::list;
use crate::make::unopened;
use crate::options::options;
use crate::pages::plain_size;
use crate::reading::{ReadingProgress, ReportingDisk, with_reports};
use sqlite::{Error, ErrorCode, FileFrom, FileStore, Files, Start};
use sqlite_disk::Disk;
use sqlite_store::{OpenError, Unopened};
use std::alloc::Global;

/// Opens the store of the file of SQLite at a path. Each page of it is read and checked, but its
/// rows are not held against a schema yet. What is read of the file is reported to `reading`, as
/// `connect` does it. `None`, with the file closed, if it is not a database of tables and indexes
/// alone, without sums, whose indexes ascend: then `connect` opens it, or says why it cannot. A
/// file that is not there is made, with no byte in it. `start` stands for what the file and its log
/// held.
///
/// # Errors
///
/// As `connect`.
pub fn open_store<S: Start, P: ReadingProgress>(
    rt: &HostRuntime,
    path: &str,
    reading: P,
    start: S,
) -> Result<Option<FileStore<ReportingDisk<FileFrom<S>, P>>>, Error>
    ensures memory { path.now ≡ codes ":memory:"
        → result ≡ Err (Error.SqliteFailure ErrorCode.CannotOpen) }
    ensures uri { IsTrue (starts_with (λ a b. a == b) path.now (codes "file:"))
        → result ≡ Err (Error.SqliteFailure ErrorCode.CannotOpen) }
    ensures named { IfErr result (λ e. IsTrue (is_open_error e)) }
    ensures fresh { IfOk result (λ found. IfSome found
        (λ store. IsClean (view store) → IsFresh (view store))) }
    ensures found { IfOk result (λ found. IfSome found
        (λ store. IsTrue (view store).is_clean → HasPagesOf (image_at S.Start) store)) }
    ensures trees { IfOk result (λ found. IfSome found (λ store. IsTrue (view store).is_clean
        → AreFoundIn (image_at S.Start) (view store).trees)) }
    ensures guarded { IfOk result (λ found. IfSome found
        (λ store. IsTrue (view store).is_clean → is_shielded store)) }
{
    let seed = seed(rt)?;
    let files = open_pair(rt, path, start)?;
    store_of(rt.alloc(), with_reports(files, reading), seed)
}

// The same of files.
fn store_of<D: Disk + Drop>(
    alloc: Global,
    mut files: Files<D>,
    seed: u64,
) -> Result<Option<FileStore<D>>, Error>
    requires log { IsTrue (D.Disk.is_usable files.log) }
    requires db { IsTrue (D.Disk.is_usable files.db) }
    ensures named { IfErr result (λ e. IsTrue (is_open_error e)) }
    ensures fresh { IfOk result (λ found. IfSome found
        (λ store. IsClean (view store) → IsFresh (view store))) }
    ensures found { IfOk result (λ found. IfSome found
        (λ store. IsTrue (view store).is_clean → HasPagesSeen files.log files.db store)) }
    ensures reads { IfOk result (λ found. IfSome found
        (λ store. IsTrue (view store).is_clean → ReadsItsPages store)) }
    ensures guarded { IfOk result (λ found. IfSome found
        (λ store. IsTrue (view store).is_clean → is_shielded store)) }
{
    match plain_size(alloc, &mut files) {
        Ok(Some(size)) => {
            let unopened = unopened(alloc, files, size, options(size, seed))?;
            store_over(alloc, unopened)
        }
        Ok(None) => Ok(None),
        Err(error) => Err(error),
    }
}

// The same of files of which nothing is read yet.
fn store_over<D: Disk + Drop>(
    alloc: Global,
    mut unopened: Unopened<D>,
) -> Result<Option<FileStore<D>>, Error>
    requires { AreUsable unopened }
    ensures named { IfErr result (λ e. IsTrue (is_open_error e)) }
    ensures fresh { IfOk result (λ found. IfSome found
        (λ store. IsClean (view store) → IsFresh (view store))) }
    ensures found { IfOk result (λ found. IfSome found
        (λ store. IsTrue (view store).is_clean → HasPagesOf (image unopened) store)) }
    ensures reads { IfOk result (λ found. IfSome found
        (λ store. IsTrue (view store).is_clean → ReadsItsPages store)) }
    ensures guarded { IfOk result (λ found. IfSome found
        (λ store. IsTrue (view store).is_clean → is_shielded store)) }
{
    match list(alloc, &mut unopened) {
        Ok(()) => opened(unopened),
        Err(error) => unless_refused(error),
    }
}

// The store of files that are given the schema which they list, unless it is refused.
fn opened<D: Disk + Drop>(unopened: Unopened<D>) -> Result<Option<FileStore<D>>, Error>
    requires { AreUsable unopened }
    ensures named { IfErr result (λ e. IsTrue (is_open_error e)) }
    ensures fresh { IfOk result (λ found. IfSome found
        (λ store. IsClean (view store) → IsFresh (view store))) }
    ensures found { IfOk result (λ found. IfSome found
        (λ store. IsTrue (view store).is_clean → IsOpenedFrom unopened store)) }
    ensures reads { IfOk result (λ found. IfSome found
        (λ store. IsTrue (view store).is_clean → ReadsItsPages store)) }
    ensures guarded { IfOk result (λ found. IfSome found
        (λ store. IsTrue (view store).is_clean → is_shielded store)) }
{
    match unopened.open_numbered() {
        Ok(store) => Ok(Some(store)),
        Err((error, _)) => unless_refused(error),
    }
}

// `None` if the files were refused, and else why they could not be read.
fn unless_refused<T>(error: OpenError) -> Result<Option<T>, Error>
    ensures named { IfErr result (λ e. IsTrue (is_open_error e)) }
    ensures none { IfOk result (λ found. IfSome found (λ _. ⊥)) }
{
    match error {
        OpenError::Refused => Ok(None),
        error => Err(error_of(error)),
    }
}
