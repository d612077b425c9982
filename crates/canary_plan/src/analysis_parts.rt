//! What an analysis is bound to.
ghost use Rattle.std.specs.Prelude.{◌≡◌, IfOk};
ghost use Rattle.canary_plan.specs.Plans.{distinct};

use canary_base::error::Memory;
use canary_base::lists::Listed;
use canary_base::names::Name;
use canary_metric::metric::Metric;
use std::alloc::Global;
use std::collections::BTreeSet;

/// A template, and the number of its revision, from 1.
#[derive(Clone, Copy)]
pub struct Revision {
    pub template: Name,
    pub number: u32,
}

/// The revisions of an analysis's templates, and their metrics together, in order.
#[derive(Drop)]
pub struct AnalysisParts {
    pub revisions: Listed<Revision>,
    pub metrics: Listed<Metric>,
}

/// Of each template the first of these revisions, in order; or `Memory`.
pub fn distinct(alloc: Global, revisions: &[Revision]) -> Result<Listed<Revision>, Memory>
    ensures { IfOk result (λ found. found ≡ distinct revisions.now) }
{
    let mut found = Listed::of(Vec::new(alloc));
    let mut seen = BTreeSet::new(alloc);
    for revision in revisions {
        let is_first = seen.insert(revision.template)?;
        if is_first {
            found.push(*revision)?;
        }
    }
    Ok(found)
}
