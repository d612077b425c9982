//! Labels that stand twice.
ghost use Rattle.std.specs.Prelude.{◌≡◌, IfOk};
ghost use Rattle.canary_plan.specs.PlanRefusals.{has_duplicate};

use canary_base::error::Memory;
use canary_base::names::Label;
use std::alloc::Global;
use std::collections::BTreeSet;

/// Whether some name stands twice.
pub(crate) fn has_duplicate(alloc: Global, names: &[Label]) -> Result<bool, Memory>
    ensures { IfOk result (λ found. found ≡ has_duplicate names.now) }
{
    let mut seen = BTreeSet::new(alloc);
    for name in names {
        if !seen.insert(*name)? {
            return Ok(true);
        }
    }
    Ok(false)
}
