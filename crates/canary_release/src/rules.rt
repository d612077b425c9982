//! The rules of releases: what a command does, what entering a step brings, how time passes, and
//! what a report leads to.

pub(crate) mod commands;
pub(crate) mod entering;
pub(crate) mod passing;
pub(crate) mod report;
