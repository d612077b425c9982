//! A desk's file becomes one of the present schema.
use crate::migrate::migrate;
use canary_tables::fault::TableFault;
use canary_tables_adopt::progress::JudgingProgress;
use canary_tables_file::connect::connect;
use canary_tables_file::reading::{ReadingProgress, ReportingDisk};
use canary_tables_read::meta::{MetaRow, desk_row};
use canary_tables_schema::fault::fault_of;
use canary_tables_schema::recognize::is_desk;
use sqlite::{Alter, Connection, Error, ErrorCode, File, FileStore, Unknown};
use std::alloc::Global;

/// Makes the file of SQLite at a path, which is a desk's of the first schema, one of the present
/// schema (`migrate`), and answers true; false if it is one already, of which nothing is changed.
/// What is read of the file is reported to `reading`, and the rows that are judged to `progress`.
///
/// # Errors
///
/// `InUse` if another program has the file open; `OtherSchema` if it is of neither schema, as one
/// with no tables; `BrokenRow` if its rows are not what the first schema has of sound contents of
/// its time, as with `passAfter` in a template; `Memory` if an allocation was refused; `Storage` if
/// the file cannot be opened, is no database, or fails. The file is as it was then; but if it fails
/// as it is closed, it may be migrated.
pub fn upgrade<P: ReadingProgress, G: JudgingProgress>(
    rt: &HostRuntime,
    path: &str,
    reading: P,
    progress: &mut G,
) -> Result<bool, TableFault> {
    match connect(rt, path, reading, Unknown) {
        Ok(conn) => upgrade_file(rt.alloc(), conn, progress),
        Err(error) => Err(open_fault(error)),
    }
}

// The same of a file that is open, which is closed.
fn upgrade_file<P: ReadingProgress, G: JudgingProgress>(
    alloc: Global,
    conn: Connection<FileStore<ReportingDisk<File, P>>>,
    progress: &mut G,
) -> Result<bool, TableFault> {
    match migrate_unless_current(alloc, conn, progress) {
        Ok(Some(conn)) => closed(conn),
        Ok(None) => Ok(false),
        Err(fault) => Err(fault),
    }
}

// Migrates a database, unless it is of the present schema: then there is no connection.
fn migrate_unless_current<S: Alter + Drop, G: JudgingProgress>(
    alloc: Global,
    mut conn: Connection<S>,
    progress: &mut G,
) -> Result<Option<Connection<S>>, TableFault> {
    match is_current(&mut conn) {
        Ok(true) => Ok(None),
        Ok(false) => migrated(alloc, conn, progress),
        Err(fault) => Err(fault),
    }
}

// Migrates a database.
fn migrated<S: Alter + Drop, G: JudgingProgress>(
    alloc: Global,
    conn: Connection<S>,
    progress: &mut G,
) -> Result<Option<Connection<S>>, TableFault> {
    match migrate(alloc, conn, progress) {
        Ok(conn) => Ok(Some(conn)),
        Err((fault, _)) => Err(fault),
    }
}

// Whether the tables are a desk's of the present schema. Without its row of meta they are of no
// schema; with others beside it they are not those that a desk leaves.
fn is_current<S: Alter>(conn: &mut Connection<S>) -> Result<bool, TableFault> {
    if !conn.is_autocommit() || !is_desk(conn.schema()) {
        return Ok(false);
    }
    match desk_row(conn)? {
        MetaRow::Alone => Ok(true),
        MetaRow::WithOthers => Err(TableFault::BrokenRow),
        MetaRow::Missing => Err(TableFault::OtherSchema),
    }
}

// Closes a file that was migrated, and answers true, or why that failed.
fn closed<P: ReadingProgress>(
    conn: Connection<FileStore<ReportingDisk<File, P>>>,
) -> Result<bool, TableFault> {
    match conn.close() {
        Ok(()) => Ok(true),
        Err(error) => Err(fault_of(error).into()),
    }
}

// Why a file could not be opened.
fn open_fault(error: Error) -> TableFault {
    match error {
        Error::SqliteFailure(ErrorCode::DatabaseBusy) => TableFault::InUse,
        error => fault_of(error).into(),
    }
}
