//! Why a plan is not read to its end.

use crate::refusal::ProviderRefusal;
use canary_base::error::Memory;
use std::alloc::{AllocError, AllocFailed};

/// Why a plan is not read to its end.
#[derive(Clone, Copy)]
pub(crate) enum PlanFault {
    /// An allocation was refused.
    Memory,
    /// The provider is not asked.
    Refused(ProviderRefusal),
}

impl From<Memory> for PlanFault {
    ghost use Rattle.canary_provider.specs.declared.stop.PlanFault.TheVariants.{Memory as refused};
    ghost use Rattle.std.specs.Prelude.{◌≡◌};

    ghost from_gives = { λ _ stop. stop ≡ refused };

    // A refused allocation is `PlanFault::Memory`.
    fn from(_: Memory) -> PlanFault {
        PlanFault::Memory
    }
}

impl From<AllocError> for PlanFault {
    ghost use Rattle.canary_provider.specs.declared.stop.PlanFault.TheVariants.{Memory as refused};
    ghost use Rattle.std.specs.Prelude.{◌≡◌};

    ghost from_gives = { λ _ stop. stop ≡ refused };

    // The same, as calls of the standard library report it.
    fn from(_: AllocError) -> PlanFault {
        PlanFault::Memory
    }
}

impl<T: Drop> From<AllocFailed<T>> for PlanFault {
    ghost use Rattle.canary_provider.specs.declared.stop.PlanFault.TheVariants.{Memory as refused};
    ghost use Rattle.std.specs.Prelude.{◌≡◌};

    ghost from_gives = { λ _ stop. stop ≡ refused };

    // The same, as calls report it that return the value for which there was no room.
    fn from(_: AllocFailed<T>) -> PlanFault {
        PlanFault::Memory
    }
}

impl From<ProviderRefusal> for PlanFault {
    ghost use Rattle.canary_provider.specs.declared.stop.PlanFault.TheVariants.{Refused};
    ghost use Rattle.std.specs.Prelude.{◌≡◌};

    ghost from_gives = { λ refusal stop. stop ≡ Refused refusal };

    // A refusal is `PlanFault::Refused`.
    fn from(refusal: ProviderRefusal) -> PlanFault {
        PlanFault::Refused(refusal)
    }
}
