//! Making a database in files that have none.
ghost use Rattle.std.specs.Prelude.{◌≡◌, [], IsTrue, IfOk, IfErr};
ghost use Rattle.sqlite.specs.Opening.{is_open_error};
ghost use Rattle.sqlite_pager.specs.Pager.{files as files_below, state as state_below};
ghost use Rattle.sqlite_store.specs.Unopened.{files_of, state_of, wanted_by, AreUsable};
ghost use Rattle.sqlite_wal.specs.Files.{seen_image};
ghost use Rattle.sqlite_wal.specs.PageSize.{bytes_of};
ghost use Rattle.sqlite_wal.specs.Reads.{AreClean};
ghost use Rattle.canary_tables_file.specs.Found.{HoldNothing};

use crate::fault::{IO, NO_MEMORY, error_alone, error_of};
use crate::options::first_options;
use crate::pages::new_size;
use sqlite::{Error, Files, Options};
use sqlite_disk::Disk;
use sqlite_pager::Pager;
use sqlite_store::Unopened;
use sqlite_wal::PageSize;
use std::alloc::{AllocFailed, Global};

// Makes an empty database in files that have none, and gives them back.
pub(crate) fn make<D: Disk + Drop>(
    alloc: Global,
    files: Files<D>,
    seed: u64,
) -> Result<Files<D>, Error>
    requires log { IsTrue (D.Disk.is_usable files.log) }
    requires db { IsTrue (D.Disk.is_usable files.db) }
    ensures named { IfErr result (λ e. IsTrue (is_open_error e)) }
    ensures usable { IfOk result
        (λ files. IsTrue (D.Disk.is_usable files.log) × IsTrue (D.Disk.is_usable files.db)) }
    ensures clean { IfOk result
        (λ made. AreClean D.Disk made.log made.db → AreClean D.Disk files.log files.db) }
    ensures made { IfOk result (λ made. AreClean D.Disk made.log made.db
        → ∥ HoldNothing (seen_image D.Disk made.log made.db) ∥₁) }
{
    let unopened = unopened(alloc, files, new_size(), first_options(seed))?;
    match unopened.create().map_err(error_alone) {
        Ok(store) => usable(store.close()),
        Err(error) => Err(error_of(error)),
    }
}

// The files, if no sync of them has failed.
fn usable<D: Disk + Drop>(files: Files<D>) -> Result<Files<D>, Error>
    ensures named { IfErr result (λ e. IsTrue (is_open_error e)) }
    ensures usable { IfOk result
        (λ files. IsTrue (D.Disk.is_usable files.log) × IsTrue (D.Disk.is_usable files.db)) }
    ensures same { IfOk result (λ same. (same.log ≡ files.log) × (same.db ≡ files.db)) }
{
    if files.may_be_used() {
        Ok(files)
    } else {
        Err(IO)
    }
}

// Files of which nothing is read yet, with pages of this size.
pub(crate) fn unopened<D: Disk + Drop>(
    alloc: Global,
    files: Files<D>,
    size: PageSize,
    options: Options,
) -> Result<Unopened<D>, Error>
    requires log { IsTrue (D.Disk.is_usable files.log) }
    requires db { IsTrue (D.Disk.is_usable files.db) }
    ensures named { IfErr result (λ e. IsTrue (is_open_error e)) }
    ensures usable { IfOk result AreUsable }
    ensures files { IfOk result (λ it. files_of it ≡ (files.log, files.db)) }
    ensures size { IfOk result (λ it. (state_of it).page_size ≡ bytes_of size) }
    ensures none { IfOk result (λ it. wanted_by it ≡ []) }
{
    match Pager::new(alloc, files, size, options) {
        Ok(pager) => over_pager(alloc, pager),
        Err(AllocFailed { value: _ }) => Err(NO_MEMORY),
    }
}

// The same over a pager, with no schema.
fn over_pager<D: Disk + Drop>(alloc: Global, pager: Pager<D>) -> Result<Unopened<D>, Error>
    ensures named { IfErr result (λ e. IsTrue (is_open_error e)) }
    ensures files { IfOk result (λ it. files_of it ≡ files_below pager) }
    ensures size { IfOk result (λ it. (state_of it).page_size ≡ (state_below pager).page_size) }
    ensures none { IfOk result (λ it. wanted_by it ≡ []) }
{
    match Unopened::new(alloc, pager, &[]) {
        Ok(unopened) => Ok(unopened),
        Err(AllocFailed { value: _ }) => Err(NO_MEMORY),
    }
}
