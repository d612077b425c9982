//! How a program ends that reads manifests.

/// How a check or a translation of manifests ended.
#[derive(Clone, Copy, Debug, PartialEq, Eq)]
pub enum ManifestExit {
    /// Nothing was found.
    Done,
    /// Something was found.
    Findings,
}
