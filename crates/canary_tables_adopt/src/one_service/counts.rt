//! The tallies and the rows of binding of a service's runs, counted.
ghost use Rattle.std.specs.Prelude.{◌≡◌, ◌≢◌, ◌+◌, ◌^◌, ◌≤◌, IfOk, IfErr, Err, length};
ghost use Rattle.std.specs.List.{sum_by};
ghost use Rattle.canary_plan.specs.Plans.{all_revisions, distinct};
ghost use Rattle.canary_once.specs.declared.record.RunRecord.{RunRecord};
ghost use Rattle.canary_tables_read.specs.declared.fault.ReadFault.TheVariants as fault;

use crate::totals::sum;
use canary_base::error::Memory;
use canary_once::record::RunRecord;
use canary_plan::analysis_parts::distinct;
use canary_plan::bound::Bound;
use canary_tables_read::fault::ReadFault;
use std::alloc::Global;

/// How many tallies the runs have.
///
/// # Errors
/// `Storage` if there are 2^64 or more.
#[tactic(auto, using(crate::proofs::CountLemmas::tallies_left))]
pub(crate) fn tally_count(runs: &[RunRecord]) -> Result<u64, ReadFault>
    ensures value { IfOk result (λ count. count
        ≡ sum_by (λ (r : RunRecord). length r.tallies) runs.now) }
    ensures full { IfErr result (λ told. (told ≡ fault.Storage)
        × (2 ^ 64 ≤ sum_by (λ (r : RunRecord). length r.tallies) runs.now)) }
    ensures whole { result ≢ Err fault.Broken }
{
    let mut count = 0_u64;
    for run in runs {
        let Some(more) = count.checked_add(run.tallies.as_slice().len() as u64) else {
            return Err(ReadFault::Storage);
        };
        count = more;
    }
    Ok(count)
}

/// How many rows of binding a service has that is bound so, and its runs.
///
/// # Errors
/// `Memory`; `Storage` if there are 2^64 or more.
pub(crate) fn binding_count(
    alloc: Global,
    bound: &Bound,
    runs: &[RunRecord],
) -> Result<u64, ReadFault>
    ensures value { IfOk result (λ count. count ≡ length (distinct (all_revisions bound.now))
        + sum_by (λ (r : RunRecord). length (distinct r.analysis.revisions)) runs.now) }
    ensures full { result ≡ Err fault.Storage
        → 2 ^ 64 ≤ length (distinct (all_revisions bound.now))
        + sum_by (λ (r : RunRecord). length (distinct r.analysis.revisions)) runs.now }
    ensures whole { result ≢ Err fault.Broken }
{
    let revisions = bound.revisions(alloc)?;
    let attempt = distinct(alloc, revisions.as_slice())?.as_slice().len() as u64;
    let of_runs = bindings_of_runs(alloc, runs)?;
    sum(attempt, of_runs)
}

// How many rows of binding all the runs have; `Storage` at 2^64 or more, or `Memory`.
#[tactic(auto, using(crate::proofs::CountLemmas::bindings_left))]
fn bindings_of_runs(alloc: Global, runs: &[RunRecord]) -> Result<u64, ReadFault>
    ensures value { IfOk result (λ count. count
        ≡ sum_by (λ (r : RunRecord). length (distinct r.analysis.revisions)) runs.now) }
    ensures full { result ≡ Err fault.Storage
        → 2 ^ 64 ≤ sum_by (λ (r : RunRecord). length (distinct r.analysis.revisions)) runs.now }
    ensures whole { result ≢ Err fault.Broken }
{
    let mut count = 0_u64;
    for run in runs {
        count = sum(count, bindings_of(alloc, run)?)?;
    }
    Ok(count)
}

// A row for each of the templates of its analysis.
fn bindings_of(alloc: Global, run: &RunRecord) -> Result<u64, Memory>
    ensures { IfOk result (λ count. count ≡ length (distinct run.now.analysis.revisions)) }
{
    let templates = distinct(alloc, run.analysis.revisions())?;
    Ok(templates.as_slice().len() as u64)
}
