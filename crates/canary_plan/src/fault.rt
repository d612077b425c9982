//! Why a template was not bound, or a strategy not checked or not bound.
ghost use Rattle.std.specs.Prelude.{◌≡◌};

use crate::refusal::Refusal;
use canary_base::error::Memory;
use std::error::Error;
use std::fmt;

/// Why a template was not bound.
#[derive(Clone, Copy, Debug, PartialEq, Eq)]
pub enum BindFault {
    /// It is refused.
    Refused(Refusal),
    /// An allocation was refused.
    Memory,
}

impl From<Memory> for BindFault {
    ghost use Rattle.canary_plan.specs.declared.fault.BindFault.TheVariants.{Memory as NoMemory};

    ghost from_gives = { λ _ fault. fault ≡ NoMemory };

    // A refused allocation, as the fault of binding a template.
    fn from(_: Memory) -> BindFault {
        BindFault::Memory
    }
}

impl fmt::Display for BindFault {
    // Writes that the template is refused, with the refusal's code, or that no memory is left.
    fn fmt<W: fmt::Write>(&self, f: &mut fmt::Formatter<W>) -> fmt::Result {
        match self {
            BindFault::Refused(refusal) => write!(f, "the template is refused: {refusal}"),
            BindFault::Memory => f.write_str("out of memory"),
        }
    }
}

impl Error for BindFault {}

/// Why a strategy was not checked, or not bound.
#[derive(Clone, Copy, Debug, PartialEq, Eq)]
pub enum CheckFault {
    /// It is refused.
    Refused(Refusal),
    /// An allocation was refused.
    Memory,
}

impl From<Memory> for CheckFault {
    ghost use Rattle.canary_plan.specs.declared.fault.CheckFault.TheVariants.{Memory as NoMemory};

    ghost from_gives = { λ _ fault. fault ≡ NoMemory };

    // A refused allocation, as the fault of checking or binding a strategy.
    fn from(_: Memory) -> CheckFault {
        CheckFault::Memory
    }
}

impl fmt::Display for CheckFault {
    // Writes that the strategy is refused, with the refusal's code, or that no memory is left.
    fn fmt<W: fmt::Write>(&self, f: &mut fmt::Formatter<W>) -> fmt::Result {
        match self {
            CheckFault::Refused(refusal) => write!(f, "the strategy is refused: {refusal}"),
            CheckFault::Memory => f.write_str("out of memory"),
        }
    }
}

impl Error for CheckFault {}
