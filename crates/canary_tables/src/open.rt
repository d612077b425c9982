//! A book over a file.
ghost use Rattle.std.specs.Prelude.{◌≡◌, ◌↔◌, false, IsTrue, IfOk, IfSome};
ghost use Rattle.sqlite.specs.Files.{file_state, AreFoundIn};
ghost use Rattle.sqlite.specs.Held.{state};
ghost use Rattle.sqlite.specs.Steps.{IsFresh};
ghost use Rattle.sqlite_trees.specs.View.{IsClean};
ghost use Rattle.sqlite_wal.specs.Files.{image_at};
ghost use Rattle.canary_once.specs.Contents.{no_contents};
ghost use Rattle.canary_tables_schema.specs.Formed.{IsRising, HasWholeTallies};
ghost use Rattle.canary_tables_schema.specs.Stores.{IsUsable};
ghost use Rattle.canary_tables.specs.Adopts.{IsAdopted, IsSoundDesk, IsBegun, IsMadeOf};
ghost use Rattle.canary_tables.specs.Desk.{contents_in};
ghost use Rattle.canary_tables.specs.Opened.{IsOpenedAt};

use crate::book::TableBook;
use crate::fault::TableFault;
use canary_tables_adopt::progress::JudgingProgress;
use canary_tables_file::connect::connect;
use canary_tables_file::reading::{ReadingProgress, ReportingDisk};
use canary_tables_file::store::open_store;
use canary_tables_schema::fault::fault_of;
use canary_tables_schema::laws as schema_laws;
use canary_tables_schema::recognize::is_empty;
use canary_tables_schema::reopen::open_desk;
use sqlite::{Alter, Connection, Error, ErrorCode, File, FileFrom, FileStore, Start, Unknown};
use std::alloc::Global;

impl<P: ReadingProgress> TableBook<FileStore<ReportingDisk<File, P>>> {
    /// Opens the file of SQLite at a path as a book, or makes it (`connect` of canary_tables_file).
    /// An empty database, as that of a new file, becomes a desk's (`create`). Any other is adopted
    /// (`adopt`): it is read through, which is reported to `progress`, and no row of it is changed.
    /// Before that it is checked by SQLite: what is read of the file then, and later on, is
    /// reported to `reading`. A log stands beside the file, which belongs to it. As long as the
    /// book is there, nobody else can open the file as a database; who copies both files is not
    /// kept from that.
    ///
    /// # Errors
    ///
    /// `InUse` if another program has the file open; `Memory` if an allocation was refused;
    /// `Storage` if the file cannot be opened, is no database, or fails; `OtherSchema` if it has
    /// tables, indexes or views, and not just a desk's, or its table meta lacks the row 1, 2;
    /// `BrokenRow` if the rows of a desk's tables are not those that a desk leaves, as with a
    /// second row in meta.
    pub fn open<G: JudgingProgress>(
        rt: &HostRuntime,
        path: &str,
        reading: &P,
        progress: &mut G,
    ) -> Result<TableBook<FileStore<ReportingDisk<File, P>>>, TableFault>
        ensures sound { IfOk result (λ book. IsUsable (file_state book)
            → IsSoundDesk (file_state book)) }
        ensures nothing { IfOk result (λ book. IsUsable (file_state book)
            → contents_in (file_state book) ≡ no_contents) }
    {
        match open_desk_file(rt, path, reading, progress, Unknown) {
            Ok(Some(book)) => Ok(book),
            Ok(None) => open_file(rt, path, reading, progress, Unknown),
            Err(fault) => Err(fault),
        }
    }
}

// Opens the file if it has a desk's tables, each row of which is held against the schema once.
// `start` stands for what the file and its log held.
fn open_desk_file<S: Start, P: ReadingProgress, G: JudgingProgress>(
    rt: &HostRuntime,
    path: &str,
    reading: &P,
    progress: &mut G,
    start: S,
) -> Result<Option<TableBook<FileStore<ReportingDisk<FileFrom<S>, P>>>>, TableFault>
    ensures sound { IfOk result (λ found. IfSome found (λ book. IsUsable (file_state book)
        → IsSoundDesk (file_state book))) }
    ensures found { IfOk result (λ found. IfSome found (λ book. IsUsable (file_state book)
        → AreFoundIn (image_at S.Start) (file_state book).now.trees)) }
{
    match open_store(rt, path, reading.again(), start) {
        Ok(Some(store)) => adopt_store(rt.alloc(), store, progress),
        Ok(None) => Ok(None),
        Err(error) => Err(open_fault(error)),
    }
}

// Makes the book of a store that was just opened, if it has a desk's tables.
fn adopt_store<S: Alter + Drop, G: JudgingProgress>(
    alloc: Global,
    store: S,
    progress: &mut G,
) -> Result<Option<TableBook<S>>, TableFault>
    requires { IsClean (S.Store.view store) → IsFresh (S.Store.view store) }
    ensures trees { IfOk result (λ found. IfSome found (λ book. IsUsable (state S.Store book)
        → (state S.Store book).now.trees ≡ (S.Store.view store).trees)) }
    ensures sound { IfOk result (λ found. IfSome found (λ book. IsUsable (state S.Store book)
        → IsSoundDesk (state S.Store book))) }
{
    schema_laws::one_reading();
    match open_desk(alloc, store) {
        Ok(Some((conn, is_whole))) => adopt_connection(alloc, conn, is_whole, progress),
        Ok(None) => Ok(None),
        Err(fault) => Err(fault.into()),
    }
}

// Makes the book of a connection to a database that has a desk's tables.
fn adopt_connection<S: Alter + Drop, G: JudgingProgress>(
    alloc: Global,
    conn: Connection<S>,
    is_whole: bool,
    progress: &mut G,
) -> Result<Option<TableBook<S>>, TableFault>
    requires autocommit { conn.in_transaction ≡ false }
    requires numbered { IsUsable (state S.Store conn) → IsRising (state S.Store conn).now }
    requires whole { IsUsable (state S.Store conn)
        → (IsTrue is_whole ↔ HasWholeTallies (state S.Store conn).now) }
    ensures adopted { IfOk result (λ found. IfSome found (λ book. IsUsable (state S.Store book)
        → IsAdopted (state S.Store conn) (state S.Store book))) }
{
    match TableBook::adopt_opened(alloc, conn, is_whole, progress) {
        Ok(book) => Ok(Some(book)),
        Err((fault, _)) => Err(fault),
    }
}

// Opens any file, or makes it. `start` stands for what the file and its log held.
fn open_file<S: Start, P: ReadingProgress, G: JudgingProgress>(
    rt: &HostRuntime,
    path: &str,
    reading: &P,
    progress: &mut G,
    start: S,
) -> Result<TableBook<FileStore<ReportingDisk<FileFrom<S>, P>>>, TableFault>
    ensures sound { IfOk result (λ book. IsUsable (file_state book)
        → IsSoundDesk (file_state book)) }
    ensures found { IfOk result (λ book. IsUsable (file_state book)
        → IsOpenedAt (image_at S.Start) (file_state book)) }
{
    match connect(rt, path, reading.again(), start) {
        Ok(conn) => book_of(rt.alloc(), conn, progress),
        Err(error) => Err(open_fault(error)),
    }
}

// The book of a database that was just opened: an empty one becomes a desk's, any other is adopted.
fn book_of<S: Alter + Drop, G: JudgingProgress>(
    alloc: Global,
    conn: Connection<S>,
    progress: &mut G,
) -> Result<TableBook<S>, TableFault>
    ensures made { IfOk result (λ book. IsUsable (state S.Store book)
        → IsMadeOf (state S.Store conn) (state S.Store book)) }
    ensures sound { IfOk result (λ book. IsUsable (state S.Store book)
        → IsSoundDesk (state S.Store book)) }
{
    if is_empty(conn.schema()) {
        begun(alloc, conn)
    } else {
        adopted(alloc, conn, progress)
    }
}

// The book of an empty database.
fn begun<S: Alter + Drop>(alloc: Global, conn: Connection<S>) -> Result<TableBook<S>, TableFault>
    ensures begun { IfOk result (λ book. IsUsable (state S.Store book)
        → IsBegun (state S.Store conn) (state S.Store book)) }
    ensures sound { IfOk result (λ book. IsUsable (state S.Store book)
        → IsSoundDesk (state S.Store book)) }
{
    match TableBook::create(alloc, conn) {
        Ok(book) => Ok(book),
        Err((fault, _)) => Err(fault),
    }
}

// The book of a database that has a desk's tables.
fn adopted<S: Alter + Drop, G: JudgingProgress>(
    alloc: Global,
    conn: Connection<S>,
    progress: &mut G,
) -> Result<TableBook<S>, TableFault>
    ensures adopted { IfOk result (λ book. IsUsable (state S.Store book)
        → IsAdopted (state S.Store conn) (state S.Store book)) }
    ensures sound { IfOk result (λ book. IsUsable (state S.Store book)
        → IsSoundDesk (state S.Store book)) }
{
    schema_laws::one_reading();
    match TableBook::adopt(alloc, conn, progress) {
        Ok(book) => Ok(book),
        Err((fault, _)) => Err(fault),
    }
}

// Why a file could not be opened.
fn open_fault(error: Error) -> TableFault {
    match error {
        Error::SqliteFailure(ErrorCode::DatabaseBusy) => TableFault::InUse,
        error => fault_of(error).into(),
    }
}
