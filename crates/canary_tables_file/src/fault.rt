//! Why a file could not be opened.
ghost use Rattle.std.specs.Prelude.{◌≡◌, IsTrue};
ghost use Rattle.sqlite.specs.Opening.{is_open_error};

use sqlite::{Error, ErrorCode};
use sqlite_store::OpenError;

// The system does not open it.
pub(crate) const CANNOT_OPEN: Error = Error::SqliteFailure(ErrorCode::CannotOpen);

// The disk failed.
pub(crate) const IO: Error = Error::SqliteFailure(ErrorCode::SystemIoFailure);

// An allocation was refused.
pub(crate) const NO_MEMORY: Error = Error::SqliteFailure(ErrorCode::OutOfMemory);

// Why a database could not be made or opened: memory, a full disk, or else `IO`.
pub(crate) fn error_of(error: OpenError) -> Error
    ensures named { IsTrue (is_open_error result) }
{
    match error {
        OpenError::OutOfMemory => NO_MEMORY,
        OpenError::Full => Error::SqliteFailure(ErrorCode::DiskFull),
        _ => IO,
    }
}

// Why a call failed, without what it hands back.
pub(crate) fn error_alone<E: Copy, L: Drop>(failed: (E, L)) -> E
    ensures { result ≡ failed.0 }
{
    failed.0
}
