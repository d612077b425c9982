//! Reports of measurements.
ghost use Rattle.std.specs.Prelude.{◌≡◌, IsTrue, length, IfOk};
ghost use Rattle.canary_plan.specs.Limits.{is_ordinal, are_report_limits};

use canary_base::error::Memory;
use canary_base::lists::Listed;
use canary_base::moments::Moment;
use canary_base::names::{Label, Name};
use canary_condition::outcome::Outcome;
use std::alloc::Global;

/// A measurement that a report brings: that of its metric with this ordinal, from 1 to
/// 1,000,000,000.
#[derive(Drop)]
pub struct Entry {
    pub metric: Label,
    pub ordinal: u32,
    pub taken: Moment,
    pub outcome: Outcome,
    ghost within: { IsTrue (is_ordinal ordinal) },
}

impl Entry {
    /// A copy of it, or `Memory`.
    pub fn copy(&self, alloc: Global) -> Result<Entry, Memory>
        ensures { IfOk result (λ copy. copy ≡ self.now) }
    {
        Ok(Entry {
            metric: self.metric,
            ordinal: self.ordinal,
            taken: self.taken,
            outcome: self.outcome.copy(alloc)?,
        })
    }
}

/// 1 to 32 measurements of one run, whose number is 1 to 1,000,000,000.
#[derive(Drop)]
pub struct Report {
    pub service: Name,
    pub run: u32,
    pub entries: Listed<Entry>,
    ghost within: { IsTrue (are_report_limits run (length entries)) },
}

impl Report {
    /// A copy of it, or `Memory`.
    pub fn copy(&self, alloc: Global) -> Result<Report, Memory>
        ensures { IfOk result (λ copy. copy ≡ self.now) }
    {
        Ok(Report {
            service: self.service,
            run: self.run,
            entries: copy_entries(alloc, self.entries.as_slice())?,
        })
    }
}

// A copy of the entries, in order, or `Memory`.
fn copy_entries(alloc: Global, entries: &[Entry]) -> Result<Listed<Entry>, Memory>
    ensures { IfOk result (λ copies. copies ≡ entries.now) }
{
    let mut copies = Listed::of(Vec::new(alloc));
    for entry in entries {
        copies.push(entry.copy(alloc)?)?;
    }
    Ok(copies)
}
