//! Why a program was not done to its end.
ghost use Rattle.std.specs.Prelude.{◌≡◌};
ghost use Rattle.canary_programs.specs.Faults.{done_of, line_of};

use canary_backup::fault::BackupFault;
use canary_base::error::Memory;
use canary_files::export::ExportFault;
use canary_files::import::ImportFault;
use canary_listen::listener::ListenFault;
use canary_once::book::BookFault;
use canary_page::fault::PageFault;
use canary_wire::serve::{Ended, ServeFault};
use std::alloc::AllocError;
use std::error::Error;
use std::fmt;

/// Why a program was not done to its end.
#[derive(Clone, Copy, Debug, PartialEq, Eq)]
pub enum Fault {
    /// An allocation was refused.
    Memory,
    /// The database cannot be opened or made, or fails.
    Storage,
    /// The file of the database is missing or has no bytes, and its log has records.
    LogAlone,
    /// The file of the database is not the one that was opened, or has another hard link.
    Replaced,
    /// The tables of the database are not a desk's.
    OtherSchema,
    /// The database has a row that no desk writes.
    BrokenRow,
    /// Another program has the database open, or writes it faster than it can be copied.
    InUse,
    /// The input failed.
    Read,
    /// The output failed, or was closed.
    Write,
    /// The input ended in the midst of a message.
    Truncated,
    /// The input went on after the most reads.
    TurnsSpent,
    /// The first record of a measurement file is not its header.
    Header,
    /// A measurement file has more than 1,000,000 rows, or 1,000,000,000 bytes or more.
    RowsSpent,
    /// A service has more than 1,000,000,000 measurements.
    TooMany,
    /// There is no such service.
    UnknownService,
    /// A release is going on.
    InProgress,
    /// A word is not a valid name.
    BadName,
    /// The address is invalid, or the desk cannot listen on it.
    Listen,
    /// Waiting for clients failed.
    Accept,
    /// A file is not there, cannot be read or written, is too long, or is there already.
    File,
}

impl fmt::Display for Fault {
    // What went wrong, in words for people. `line` has a word for programs.
    fn fmt<W: fmt::Write>(&self, f: &mut fmt::Formatter<W>) -> fmt::Result {
        f.write_str(match self {
            Fault::Memory => "out of memory",
            Fault::Storage => "cannot open, make, read or write the database",
            Fault::LogAlone => "the file is missing or empty, and its log has records",
            Fault::Replaced => "the file is not the one that was opened, or has another hard link",
            Fault::OtherSchema => "the tables of the database are not a desk's",
            Fault::BrokenRow => "the database has a row that no desk writes",
            Fault::InUse => "another program has the database open",
            Fault::Read => "reading the input failed",
            Fault::Write => "the output failed or was closed",
            Fault::Truncated => "the input ended in the middle of a message",
            Fault::TurnsSpent => "the input went on after 1,000,000,000 reads",
            Fault::Header => "the first record is not the header of a measurement file",
            Fault::RowsSpent => "the file has more than 1,000,000 rows, or too many bytes",
            Fault::TooMany => "the service has more than 1,000,000,000 measurements",
            Fault::UnknownService => "there is no such service",
            Fault::InProgress => "a release of a service is in progress",
            Fault::BadName => "not a valid name",
            Fault::Listen => "the address is invalid, or the desk cannot listen on it",
            Fault::Accept => "waiting for clients failed",
            Fault::File =>
                "a file is missing, cannot be read or written, is too long, or exists already",
        })
    }
}

impl Error for Fault {}

impl Fault {
    /// The line that names it on the error stream: `canary: WORD` and a line end.
    pub fn line(self) -> &'static str
        ensures { result.now ≡ line_of self }
    {
        match self {
            Fault::Memory => "canary: memory\n",
            Fault::Storage | Fault::LogAlone | Fault::Replaced => "canary: storage\n",
            Fault::OtherSchema => "canary: other-schema\n",
            Fault::BrokenRow => "canary: broken-row\n",
            Fault::InUse => "canary: in-use\n",
            Fault::Read => "canary: read\n",
            Fault::Write => "canary: write\n",
            Fault::Truncated => "canary: truncated\n",
            Fault::TurnsSpent => "canary: turns-spent\n",
            Fault::Header => "canary: header\n",
            Fault::RowsSpent => "canary: rows-spent\n",
            Fault::TooMany => "canary: too-many\n",
            Fault::UnknownService => "canary: unknown-service\n",
            Fault::InProgress => "canary: in-progress\n",
            Fault::BadName => "canary: bad-name\n",
            Fault::Listen => "canary: listen\n",
            Fault::Accept => "canary: accept\n",
            Fault::File => "canary: file\n",
        }
    }
}

impl From<Memory> for Fault {
    ghost use Rattle.canary_programs.specs.declared.fault.Fault.TheVariants as fault;

    ghost from_gives = { λ _ made. made ≡ fault.Memory };

    // A refused allocation is `Memory`.
    fn from(_: Memory) -> Fault {
        Fault::Memory
    }
}

impl From<AllocError> for Fault {
    ghost use Rattle.canary_programs.specs.declared.fault.Fault.TheVariants as fault;

    ghost from_gives = { λ _ made. made ≡ fault.Memory };

    // A refused allocation is `Memory`.
    fn from(_: AllocError) -> Fault {
        Fault::Memory
    }
}

impl From<BookFault> for Fault {
    ghost use Rattle.canary_programs.specs.Faults.{of_book};

    ghost from_gives = { λ fault made. made ≡ of_book fault };

    // A fault of a book, under the same name.
    fn from(fault: BookFault) -> Fault {
        match fault {
            BookFault::Memory => Fault::Memory,
            BookFault::Storage => Fault::Storage,
        }
    }
}

impl From<BackupFault> for Fault {
    ghost use Rattle.canary_programs.specs.Faults.{of_backup};

    ghost from_gives = { λ fault made. made ≡ of_backup fault };

    // A fault of a copy, under the same name.
    fn from(fault: BackupFault) -> Fault {
        match fault {
            BackupFault::Memory => Fault::Memory,
            BackupFault::Storage => Fault::Storage,
            BackupFault::InUse => Fault::InUse,
            BackupFault::File => Fault::File,
        }
    }
}

impl From<ImportFault> for Fault {
    ghost use Rattle.canary_programs.specs.Faults.{of_import};

    ghost from_gives = { λ fault made. made ≡ of_import fault };

    // A fault of an import, under the same name.
    fn from(fault: ImportFault) -> Fault {
        match fault {
            ImportFault::Read => Fault::Read,
            ImportFault::Write => Fault::Write,
            ImportFault::Memory => Fault::Memory,
            ImportFault::Header => Fault::Header,
            ImportFault::RowsSpent => Fault::RowsSpent,
        }
    }
}

impl From<ExportFault> for Fault {
    ghost use Rattle.canary_programs.specs.Faults.{of_export};

    ghost from_gives = { λ fault made. made ≡ of_export fault };

    // A fault of an export, under the same name.
    fn from(fault: ExportFault) -> Fault {
        match fault {
            ExportFault::Memory => Fault::Memory,
            ExportFault::Storage => Fault::Storage,
            ExportFault::Write => Fault::Write,
            ExportFault::TooMany => Fault::TooMany,
            ExportFault::UnknownService => Fault::UnknownService,
        }
    }
}

impl From<ListenFault> for Fault {
    ghost use Rattle.canary_programs.specs.Faults.{of_listen};

    ghost from_gives = { λ fault made. made ≡ of_listen fault };

    // A fault of the listener, under the same name, but for `Lost`, which is `Replaced`.
    fn from(fault: ListenFault) -> Fault {
        match fault {
            ListenFault::Memory => Fault::Memory,
            ListenFault::Listen => Fault::Listen,
            ListenFault::Accept => Fault::Accept,
            ListenFault::Lost => Fault::Replaced,
        }
    }
}

impl From<PageFault> for Fault {
    ghost use Rattle.canary_programs.specs.Faults.{of_page};

    ghost from_gives = { λ fault made. made ≡ of_page fault };

    // A fault of a page, under the same name.
    fn from(fault: PageFault) -> Fault {
        match fault {
            PageFault::Memory => Fault::Memory,
            PageFault::Storage => Fault::Storage,
            PageFault::Write => Fault::Write,
        }
    }
}

/// Whether a stream that was served so was served to its end.
///
/// # Errors
/// `Truncated` and `TurnsSpent` if it ended so; `Read`, `Write` and `Memory` for the same
/// faults.
pub fn done_of(served: Result<Ended, ServeFault>) -> Result<(), Fault>
    ensures { result ≡ done_of served }
{
    match served {
        Ok(Ended::EndOfInput | Ended::Closed) => Ok(()),
        Ok(Ended::Truncated) => Err(Fault::Truncated),
        Ok(Ended::TurnsSpent) => Err(Fault::TurnsSpent),
        Err(ServeFault::Read) => Err(Fault::Read),
        Err(ServeFault::Write) => Err(Fault::Write),
        Err(ServeFault::Memory) => Err(Fault::Memory),
    }
}
