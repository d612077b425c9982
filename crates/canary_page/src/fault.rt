//! Why a page was not drawn to its end.
use canary_base::error::Memory;
use canary_once::book::BookFault;
use std::alloc::AllocError;
use thiserror::Error;

/// Why a page was not drawn to its end.
#[derive(Clone, Copy, Debug, PartialEq, Eq, Error)]
pub enum PageFault {
    /// An allocation was refused.
    #[error("out of memory")]
    Memory,
    /// The store failed.
    #[error("the store failed")]
    Storage,
    /// The writer failed, or took no byte.
    #[error("the output could not be written")]
    Write,
}

impl From<Memory> for PageFault {
    ghost use Rattle.std.specs.Prelude.{◌≡◌};
    ghost use Rattle.canary_page.specs.declared.fault.PageFault.TheVariants as fault;

    ghost from_gives = { λ _ made. made ≡ fault.Memory };

    // A refused allocation, as this project's crates report it.
    fn from(_: Memory) -> PageFault {
        PageFault::Memory
    }
}

impl From<AllocError> for PageFault {
    ghost use Rattle.std.specs.Prelude.{◌≡◌};
    ghost use Rattle.canary_page.specs.declared.fault.PageFault.TheVariants as fault;

    ghost from_gives = { λ _ made. made ≡ fault.Memory };

    // A refused allocation, as the standard library reports it.
    fn from(_: AllocError) -> PageFault {
        PageFault::Memory
    }
}

impl From<BookFault> for PageFault {
    ghost use Rattle.std.specs.Prelude.{◌≡◌};
    ghost use Rattle.canary_page.specs.Drawn.{of_book};

    ghost from_gives = { λ fault made. made ≡ of_book fault };

    // A fault of the book: refused memory, or a store that failed.
    fn from(fault: BookFault) -> PageFault {
        match fault {
            BookFault::Memory => PageFault::Memory,
            BookFault::Storage => PageFault::Storage,
        }
    }
}
