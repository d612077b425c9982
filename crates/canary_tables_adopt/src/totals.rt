//! Whether rows that were found one by one are all.
ghost use Rattle.std.specs.Prelude.{◌≡◌, ◌≢◌, ◌+◌, ◌^◌, ◌<◌, ◌≤◌, ℕ, min, Err, IfOk, IfErr, OnOk};
ghost use Rattle.canary_tables_read.specs.declared.fault.ReadFault.TheVariants.{Broken, Memory, Storage};

use canary_tables_read::fault::ReadFault;

// As many rows as SQLite counts at most.
const MAX_ROWS: u64 = 9_223_372_036_854_775_807;

/// How many runs, rows of binding, tallies, measurements and lines of histories were found.
#[derive(Clone, Copy)]
pub(crate) struct Totals {
    pub runs: u64,
    pub bindings: u64,
    pub tallies: u64,
    pub measurements: u64,
    pub lines: u64,
}

impl Totals {
    /// Nothing was found.
    pub(crate) fn none() -> Totals
        ensures { result
            ≡ record { runs = 0; bindings = 0; tallies = 0; measurements = 0; lines = 0 } }
    {
        Totals {
            runs: 0,
            bindings: 0,
            tallies: 0,
            measurements: 0,
            lines: 0,
        }
    }

    /// These and more. `Storage` if a sum is beyond what is counted.
    pub(crate) fn with(self, more: Totals) -> Result<Totals, ReadFault>
        ensures sum { IfOk result (λ sum. sum ≡ record {
          runs = self.runs + more.runs;
          bindings = self.bindings + more.bindings;
          tallies = self.tallies + more.tallies;
          measurements = self.measurements + more.measurements;
          lines = self.lines + more.lines;
        }) }
        ensures full { IfErr result (λ fault. (fault ≡ Storage) × ¬ (
            (self.runs + more.runs < 2 ^ 64)
            × (self.bindings + more.bindings < 2 ^ 64)
            × (self.tallies + more.tallies < 2 ^ 64)
            × (self.measurements + more.measurements < 2 ^ 64)
            × (self.lines + more.lines < 2 ^ 64))) }
        ensures whole { result ≢ Err Broken }
    {
        Ok(Totals {
            runs: sum(self.runs, more.runs)?,
            bindings: sum(self.bindings, more.bindings)?,
            tallies: sum(self.tallies, more.tallies)?,
            measurements: sum(self.measurements, more.measurements)?,
            lines: sum(self.lines, more.lines)?,
        })
    }

    /// How many rows these are.
    pub(crate) fn rows(self) -> u64 {
        self.runs
            .saturating_add(self.bindings)
            .saturating_add(self.tallies)
            .saturating_add(self.measurements)
            .saturating_add(self.lines)
    }
}

/// That so many rows are all that the table has, by its count. `Broken` if they are not, `Storage`
/// if there are more than can be counted.
pub(crate) fn are_all(found: u64, count: u64) -> Result<(), ReadFault>
    ensures all { OnOk result
        ((rows : ℕ) → count ≡ min rows 9223372036854775807 → found ≡ rows) }
    ensures broken { result ≡ Err Broken
        → (rows : ℕ) → count ≡ min rows 9223372036854775807 → found ≢ rows }
    ensures full { result ≡ Err Storage → 9223372036854775807 ≤ count }
    ensures compared { result ≢ Err Memory }
{
    if count >= MAX_ROWS {
        return Err(ReadFault::Storage);
    }
    if found != count {
        return Err(ReadFault::Broken);
    }
    Ok(())
}

/// One number more. `Storage` if the sum is beyond what is counted.
pub(crate) fn sum(so_far: u64, more: u64) -> Result<u64, ReadFault>
    ensures sum { IfOk result (λ sum. sum ≡ so_far + more) }
    ensures full { IfErr result (λ fault. (fault ≡ Storage) × (2 ^ 64 ≤ so_far + more)) }
    ensures whole { result ≢ Err Broken }
{
    so_far.checked_add(more).ok_or(ReadFault::Storage)
}
