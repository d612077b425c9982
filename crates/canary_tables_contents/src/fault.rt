//! Why a row is not read.
use canary_base::error::Memory;
use canary_canonical::form::FormFault;

/// Why a row stands for no value that a desk keeps.
#[derive(Clone, Copy, Debug, PartialEq, Eq)]
pub enum RowFault {
    /// Its texts or its numbers are of no such value.
    Broken,
    /// An allocation was refused.
    Memory,
}

impl From<Memory> for RowFault {
    ghost use Rattle.std.specs.Prelude.{◌≡◌};
    ghost use Rattle.canary_tables_contents.specs.declared.fault.RowFault.TheVariants as fault;

    ghost from_gives = { λ _ made. made ≡ fault.Memory };

    // A refused allocation is `Memory`.
    fn from(_: Memory) -> RowFault {
        RowFault::Memory
    }
}

impl From<FormFault> for RowFault {
    ghost use Rattle.std.specs.Prelude.{◌≡◌};
    ghost use Rattle.canary_canonical.specs.declared.form.FormFault.TheVariants as form;
    ghost use Rattle.canary_tables_contents.specs.declared.fault.RowFault.TheVariants as fault;
    ghost use Rattle.canary_tables_contents.specs.Reads.{fault_of};

    ghost from_gives = { λ form made. made ≡ fault_of form };

    // A row is `Broken` if its text is `Unreadable`.
    fn from(form: FormFault) -> RowFault {
        match form {
            FormFault::Unreadable => RowFault::Broken,
            FormFault::Memory => RowFault::Memory,
        }
    }
}
