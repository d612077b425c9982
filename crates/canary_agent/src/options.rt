//! How services are attended.

/// How services are attended.
#[derive(Clone, Copy)]
pub(crate) struct AgentOptions<'a> {
    /// The folder of their journals.
    pub(crate) folder: &'a str,
    /// Whether each is looked at once.
    pub(crate) is_once: bool,
    /// Whether nothing is reported.
    pub(crate) is_dry_run: bool,
    /// Whether the lines are for people.
    pub(crate) is_terminal: bool,
    /// If it is given, a measurement that is late by more than so many seconds ends its release.
    pub(crate) abort_late: Option<u64>,
}
