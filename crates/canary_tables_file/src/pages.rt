//! What the pages of a file are, before it is opened.
ghost use Rattle.std.specs.Prelude.{◌≡◌, ◌↔◌, IsTrue, IfOk, IfErr};
ghost use Rattle.sqlite.specs.Opening.{is_open_error};
ghost use Rattle.sqlite_wal.specs.Files.{seen_image};
ghost use Rattle.sqlite_wal.specs.PageSize.{bytes_of};
ghost use Rattle.sqlite_wal.specs.Reads.{AreClean};
ghost use Rattle.canary_tables_file.specs.Found.{HaveNoDatabase};

use crate::fault::{IO, NO_MEMORY};
use sqlite::{Error, ErrorCode, Files};
use sqlite_disk::Disk;
use sqlite_pool::probe_blank;
use sqlite_wal::{PageSize, probe_first_page, probe_page_size};
use std::alloc::Global;

// The bytes of a page of a file that is made, the fewest that SQLite takes. A commit writes each
// page that it changes whole, with a digest and a checksum of it, and a settled request changes a
// row or two of each page.
const NEW_PAGE: usize = 512;

// The bytes of a page of a file whose size of pages is not known: those that SQLite gives a file.
const OTHER_PAGE: usize = 4096;

// The first byte of a database of SQLite.
const FIRST: u8 = b'S';

// Bytes 20 to 23 of a database whose pages end in sums.
const WITH_SUMS: u32 = 0x0840_2020;

// The page size of a file that is made. `NEW_PAGE` is a valid one.
pub(crate) fn new_size() -> PageSize
    ensures { bytes_of result ≡ NEW_PAGE }
{
    PageSize::new(NEW_PAGE).unwrap()
}

// Whether the files have no database yet, or one that was not made to its end.
pub(crate) fn is_blank<D: Disk>(alloc: Global, files: &mut Files<D>) -> Result<bool, Error>
    requires log { IsTrue (D.Disk.is_usable files.old.log) }
    requires db { IsTrue (D.Disk.is_usable files.old.db) }
    ensures log { IsTrue (D.Disk.is_usable files.new.log) }
    ensures db { IsTrue (D.Disk.is_usable files.new.db) }
    ensures same_log { D.Disk.seen files.new.log ≡ D.Disk.seen files.old.log }
    ensures same_db { D.Disk.seen files.new.db ≡ D.Disk.seen files.old.db }
    ensures clean { AreClean D.Disk files.new.log files.new.db
        → AreClean D.Disk files.old.log files.old.db }
    ensures blank { IfOk result (λ is_blank. AreClean D.Disk files.new.log files.new.db
        → (IsTrue is_blank ↔ HaveNoDatabase (seen_image D.Disk files.old.log files.old.db))) }
    ensures named { IfErr result (λ e. IsTrue (is_open_error e)) }
{
    match probe_blank(alloc, files, new_size(), false) {
        Ok(is_blank) => Ok(is_blank),
        Err(sqlite_wal::Error::OutOfMemory) => Err(NO_MEMORY),
        Err(sqlite_wal::Error::Full) => Err(Error::SqliteFailure(ErrorCode::DiskFull)),
        Err(_) => Err(IO),
    }
}

// The size of the pages of a file, or of those that one gets.
pub(crate) fn page_size<D: Disk>(files: &mut Files<D>) -> Result<PageSize, Error>
    requires log { IsTrue (D.Disk.is_usable files.old.log) }
    requires db { IsTrue (D.Disk.is_usable files.old.db) }
    ensures log { IsTrue (D.Disk.is_usable files.new.log) }
    ensures db { IsTrue (D.Disk.is_usable files.new.db) }
    ensures same_log { D.Disk.seen files.new.log ≡ D.Disk.seen files.old.log }
    ensures same_db { D.Disk.seen files.new.db ≡ D.Disk.seen files.old.db }
    ensures clean { AreClean D.Disk files.new.log files.new.db
        → AreClean D.Disk files.old.log files.old.db }
    ensures named { IfErr result (λ e. IsTrue (is_open_error e)) }
{
    match probe_page_size(files) {
        Ok(Some(size)) => Ok(size),
        Ok(None) => Ok(PageSize::new(OTHER_PAGE).unwrap()),
        Err(_) => Err(IO),
    }
}

// The size of the pages of files that have a database without sums, if they have one. Nothing is
// written to them.
pub(crate) fn plain_size<D: Disk>(
    alloc: Global,
    files: &mut Files<D>,
) -> Result<Option<PageSize>, Error>
    requires log { IsTrue (D.Disk.is_usable files.old.log) }
    requires db { IsTrue (D.Disk.is_usable files.old.db) }
    ensures log { IsTrue (D.Disk.is_usable files.new.log) }
    ensures db { IsTrue (D.Disk.is_usable files.new.db) }
    ensures same_log { D.Disk.seen files.new.log ≡ D.Disk.seen files.old.log }
    ensures same_db { D.Disk.seen files.new.db ≡ D.Disk.seen files.old.db }
    ensures named { IfErr result (λ e. IsTrue (is_open_error e)) }
{
    match probe_page_size(files) {
        Ok(Some(size)) => if_plain(alloc, files, size),
        Ok(None) => Ok(None),
        Err(_) => Err(IO),
    }
}

// This size, if the first page of that size begins a database without sums.
fn if_plain<D: Disk>(
    alloc: Global,
    files: &mut Files<D>,
    size: PageSize,
) -> Result<Option<PageSize>, Error>
    requires log { IsTrue (D.Disk.is_usable files.old.log) }
    requires db { IsTrue (D.Disk.is_usable files.old.db) }
    ensures log { IsTrue (D.Disk.is_usable files.new.log) }
    ensures db { IsTrue (D.Disk.is_usable files.new.db) }
    ensures same_log { D.Disk.seen files.new.log ≡ D.Disk.seen files.old.log }
    ensures same_db { D.Disk.seen files.new.db ≡ D.Disk.seen files.old.db }
    ensures named { IfErr result (λ e. IsTrue (is_open_error e)) }
{
    match probe_first_page(alloc, files, size) {
        Ok(head) if head.0 == FIRST && head.1 != WITH_SUMS => Ok(Some(size)),
        Err(sqlite_wal::Error::OutOfMemory) => Err(NO_MEMORY),
        Err(sqlite_wal::Error::Io(_)) => Err(IO),
        _ => Ok(None),
    }
}
