//! Why a row is not believed.
ghost use Rattle.std.specs.Prelude.{◌≡◌};
ghost use Rattle.canary_tables_adopt.specs.OfService.{read_fault};

use canary_tables_contents::fault::RowFault;
use canary_tables_read::fault::ReadFault;

/// What a row that is not read shows of the tables.
pub(crate) fn read_fault(fault: RowFault) -> ReadFault
    ensures { result ≡ read_fault fault }
{
    match fault {
        RowFault::Broken => ReadFault::Broken,
        RowFault::Memory => ReadFault::Memory,
    }
}
