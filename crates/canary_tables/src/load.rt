//! What is kept of callers, as the tables give it.
ghost use Rattle.std.specs.Prelude.{◌≡◌, false, Some, None, Err, option_map, IfOk};
ghost use Rattle.sqlite.specs.Held.{state};
ghost use Rattle.canary_once.specs.Contents.{count_of, receipt_at};
ghost use Rattle.canary_tables_schema.specs.Stores.{IsUsable};
ghost use Rattle.canary_tables_contents.specs.Values.{receipt_of_row};
ghost use Rattle.canary_tables.specs.Desk.{HasDesk, Looks, contents_in};
ghost use Rattle.canary_tables.specs.Faults.{fault_of_row};

use canary_base::names::Name;
use canary_base::numbers::Number;
use canary_once::book::Receipt;
use canary_tables_contents::fault::RowFault;
use canary_tables_contents::{laws, reading};
use canary_tables_read::callers;
use canary_tables_rows::rows::KeptRow;
use canary_tables_schema::fault::StoreFault;
use sqlite::{Alter, Connection};
use std::alloc::Global;

/// The fault that a row which is not read comes to: one that stands for no value is a fault of the
/// storage.
pub(crate) fn store_fault(fault: RowFault) -> StoreFault
    ensures { result ≡ fault_of_row fault }
{
    match fault {
        RowFault::Broken => StoreFault::Storage,
        RowFault::Memory => StoreFault::Memory,
    }
}

/// The number of settled requests of a caller.
///
/// # Errors
/// `Memory` if an allocation was refused, `Storage` if the database fails or holds what no desk
/// writes.
pub(crate) fn count<S: Alter>(conn: &mut Connection<S>, caller: &Name) -> Result<u32, StoreFault>
    requires ready { HasDesk conn.old.in_transaction (state S.Store conn.old) }
    ensures reads { Looks conn.new.in_transaction
        (state S.Store conn.old) (state S.Store conn.new) }
    ensures found { IsUsable (state S.Store conn.new) → IfOk result
        (λ count. count ≡ count_of (contents_in (state S.Store conn.old)) caller.now) }
{
    laws::counts_found();
    let settled = callers::settled(conn, caller)?;
    Ok(settled.unwrap_or(0))
}

/// The receipt under a caller's number; none if no request of that number is settled.
///
/// # Errors
/// `Memory` if an allocation was refused, `Storage` if the database fails or holds what no desk
/// writes.
pub(crate) fn receipt<S: Alter>(
    conn: &mut Connection<S>,
    alloc: Global,
    caller: &Name,
    number: Number,
) -> Result<Option<Receipt>, StoreFault>
    requires ready { HasDesk conn.old.in_transaction (state S.Store conn.old) }
    ensures reads { Looks conn.new.in_transaction
        (state S.Store conn.old) (state S.Store conn.new) }
    ensures found { IsUsable (state S.Store conn.new) → IfOk result
        (λ found. found ≡ receipt_at (contents_in (state S.Store conn.old)) caller.now number) }
{
    laws::receipts_found();
    let row = callers::kept(conn, caller, number.get())?;
    receipt_of(alloc, row)
}

// The receipt of a row, if there is one. `Storage` only if the row stands for none.
fn receipt_of(alloc: Global, row: Option<KeptRow>) -> Result<Option<Receipt>, StoreFault>
    ensures found { IfOk result
        (λ found. option_map receipt_of_row row ≡ option_map Some found) }
    ensures storage { result ≡ Err StoreFault.Storage → option_map receipt_of_row row ≡ Some None }
{
    let Some(row) = row else {
        return Ok(None);
    };
    let receipt = reading::receipt(alloc, row).map_err(store_fault)?;
    Ok(Some(receipt))
}
