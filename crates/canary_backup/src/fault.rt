//! Why a database was not copied.
ghost use Rattle.std.specs.Prelude.{◌≡◌};

use std::alloc::AllocError;
use thiserror::Error;

/// Why a database was not copied.
#[derive(Clone, Copy, Debug, PartialEq, Eq, Error)]
pub enum BackupFault {
    /// An allocation was refused.
    #[error("out of memory")]
    Memory,
    /// The database cannot be reached.
    #[error("the database cannot be reached")]
    Storage,
    /// The database is written faster than it can be copied.
    #[error("the database changes too fast to be copied")]
    InUse,
    /// A file is not there, cannot be read or written, or is there already.
    #[error("a file is missing, cannot be read or written, or exists already")]
    File,
}

impl From<AllocError> for BackupFault {
    ghost use Rattle.canary_backup.specs.declared.fault.BackupFault.TheVariants as fault;

    ghost from_gives = { λ _ made. made ≡ fault.Memory };

    // A refused allocation is `Memory`.
    fn from(_: AllocError) -> BackupFault {
        BackupFault::Memory
    }
}
