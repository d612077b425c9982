//! Why a read answered nothing.
use canary_base::error::Memory;
use canary_tables_schema::fault::StoreFault;

/// Why a read answered nothing.
#[derive(Clone, Copy, Debug, PartialEq, Eq)]
pub enum ReadFault {
    /// An allocation was refused.
    Memory,
    /// A statement of the store failed.
    Storage,
    /// A row holds a value that no desk writes.
    Broken,
}

impl From<Memory> for ReadFault {
    ghost use Rattle.std.specs.Prelude.{◌≡◌};
    ghost use Rattle.canary_tables_read.specs.declared.fault.ReadFault.TheVariants as fault;

    ghost from_gives = { λ _ made. made ≡ fault.Memory };

    // A refused allocation is `Memory`.
    fn from(_: Memory) -> ReadFault {
        ReadFault::Memory
    }
}

impl From<StoreFault> for ReadFault {
    ghost use Rattle.std.specs.Prelude.{◌≡◌, ◌≢◌};
    ghost use Rattle.canary_tables_read.specs.Faults.{read_fault};
    ghost use Rattle.canary_tables_read.specs.declared.fault.ReadFault.TheVariants as fault;

    ghost from_gives = { λ given made. (made ≡ read_fault given) × (made ≢ fault.Broken) };

    // A fault of the store under the same name, which is never `Broken`.
    fn from(fault: StoreFault) -> ReadFault {
        match fault {
            StoreFault::Memory => ReadFault::Memory,
            StoreFault::Storage => ReadFault::Storage,
        }
    }
}

impl From<ReadFault> for StoreFault {
    ghost use Rattle.std.specs.Prelude.{◌≡◌};
    ghost use Rattle.canary_tables_read.specs.Faults.{store_fault};

    ghost from_gives = { λ fault made. made ≡ store_fault fault };

    // The same as a fault of the store: `Broken` becomes `Storage`.
    fn from(fault: ReadFault) -> StoreFault {
        match fault {
            ReadFault::Memory => StoreFault::Memory,
            ReadFault::Storage | ReadFault::Broken => StoreFault::Storage,
        }
    }
}
