//! What is found in manifests, and what is noted of them.
use canary_base::error::Memory;
use std::alloc::Global;

const MAX_FINDINGS: usize = 100;

/// What is found at a place.
#[derive(Drop)]
pub struct Finding {
    /// The index of the source.
    pub source: u32,
    /// The keys and indices that lead to the place, as `spec.metrics[0].successCondition`; empty
    /// for a whole document.
    pub path: String,
    /// What it is, and what to write: one line without control characters.
    pub text: String,
    /// The byte of the condition at the place of which the finding speaks.
    pub at: Option<usize>,
}

/// Findings, each once, and 100 at most.
#[derive(Drop)]
pub(crate) struct Findings {
    pub(crate) list: Vec<Finding>,
    /// How many came after these.
    pub(crate) more: u64,
}

impl Findings {
    /// No findings.
    pub(crate) fn new(alloc: Global) -> Findings {
        Findings {
            list: Vec::new(alloc),
            more: 0,
        }
    }

    /// Adds a finding, unless the same is there already; or `Memory`. From the 101st on it is
    /// counted only.
    pub(crate) fn add(&mut self, finding: Finding) -> Result<(), Memory> {
        if self.has(&finding) {
            return Ok(());
        }
        if self.is_full() {
            self.count();
            return Ok(());
        }
        self.list.push(finding)?;
        Ok(())
    }

    /// Whether one more is counted only.
    pub(crate) fn is_full(&self) -> bool {
        self.list.len() >= MAX_FINDINGS
    }

    /// Counts one more.
    pub(crate) fn count(&mut self) {
        self.more = self.more.saturating_add(1);
    }

    // Whether the same finding is there already, at the same place.
    fn has(&self, finding: &Finding) -> bool {
        for known in &self.list {
            if known.is_same(finding) {
                return true;
            }
        }
        false
    }
}

impl Finding {
    // Whether both say the same of one place; the byte does not count.
    fn is_same(&self, other: &Finding) -> bool {
        self.source == other.source
            && self.path.as_str() == other.path.as_str()
            && self.text.as_str() == other.text.as_str()
    }
}
