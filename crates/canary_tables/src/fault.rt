//! Why there is no book over a database, and what is left then.
use canary_tables_read::fault::ReadFault;
use canary_tables_schema::fault::StoreFault;
use sqlite::{Alter, Connection};
use thiserror::Error;

/// Why there is no book over a database.
#[derive(Clone, Copy, Debug, PartialEq, Eq, Error)]
pub enum TableFault {
    /// An allocation was refused.
    #[error("out of memory")]
    Memory,
    /// The store failed.
    #[error("the store failed")]
    Storage,
    /// Another program has the file open.
    #[error("the file is in use")]
    InUse,
    /// The database has other tables, indexes or views than a desk's, or lacks its row of meta.
    #[error("the database has another schema")]
    OtherSchema,
    /// The tables hold a row that no desk leaves in them, or lack one.
    #[error("a row is none of a desk's")]
    BrokenRow,
}

impl From<StoreFault> for TableFault {
    ghost use Rattle.std.specs.Prelude.{◌≡◌};
    ghost use Rattle.canary_tables.specs.Faults.{fault_of_store};

    ghost from_gives = { λ fault made. made ≡ fault_of_store fault };

    // A fault of the store, under the same name.
    fn from(fault: StoreFault) -> TableFault {
        match fault {
            StoreFault::Memory => TableFault::Memory,
            StoreFault::Storage => TableFault::Storage,
        }
    }
}

impl From<ReadFault> for TableFault {
    ghost use Rattle.std.specs.Prelude.{◌≡◌};
    ghost use Rattle.canary_tables.specs.Faults.{fault_of_read};

    ghost from_gives = { λ fault made. made ≡ fault_of_read fault };

    // A fault of a read, under the same name, but for `Broken`, which is `BrokenRow`.
    fn from(fault: ReadFault) -> TableFault {
        match fault {
            ReadFault::Memory => TableFault::Memory,
            ReadFault::Storage => TableFault::Storage,
            ReadFault::Broken => TableFault::BrokenRow,
        }
    }
}

/// What is left of a connection if there is no book over it.
#[derive(Drop)]
pub enum Unadopted<S: Alter> {
    /// A connection to the database.
    Connection(Connection<S>),
    /// The store alone, over which no connection could be opened again.
    Store(S),
}
