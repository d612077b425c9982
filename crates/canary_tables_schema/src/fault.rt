//! Why the database did not do what it was asked.
ghost use Rattle.std.specs.Prelude.{◌≡◌};
ghost use Rattle.sqlite.specs.State.{store_error};
ghost use Rattle.canary_tables_schema.specs.Faults.{fault_of};

use canary_base::error::Memory;
use sqlite::{Error, ErrorCode};
use sqlite_trees::error::StoreError;
use thiserror::Error;

/// Why a database did not do what it was asked.
#[derive(Clone, Copy, Debug, PartialEq, Eq, Error)]
pub enum StoreFault {
    /// An allocation was refused.
    #[error("out of memory")]
    Memory,
    /// A statement of the store failed.
    #[error("the store failed")]
    Storage,
}

impl From<Memory> for StoreFault {
    ghost use Rattle.std.specs.Prelude.{◌≡◌};
    ghost use Rattle.canary_tables_schema.specs.declared.fault.StoreFault.TheVariants as fault;

    ghost from_gives = { λ _ made. made ≡ fault.Memory };

    // A refused allocation is `Memory`.
    fn from(_: Memory) -> StoreFault {
        StoreFault::Memory
    }
}

/// The fault that an error of SQLite comes to.
pub fn fault_of(error: Error) -> StoreFault
    ensures { result ≡ fault_of error }
{
    match error {
        Error::SqliteFailure(ErrorCode::OutOfMemory) => StoreFault::Memory,
        _ => StoreFault::Storage,
    }
}

// The fault that an error of the store itself comes to.
pub(crate) fn fault_below(error: StoreError) -> StoreFault
    ensures { result ≡ fault_of (store_error error) }
{
    match error {
        StoreError::OutOfMemory => StoreFault::Memory,
        _ => StoreFault::Storage,
    }
}
