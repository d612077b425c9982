//! What is reported of what was measured, by the label of the metric alone.
//!
//! Callers may rest on this: a result that `reported::outcome_of` gives is what is reported under
//! the label of what was measured; it gives a failure only if there is no such result; and a label
//! has one form at most (`laws::one_form`).
//!
//! In use (canary_agent, src/reporting.rt):
//!
//!     Came::Measured(measured) => reported::outcome_of(alloc, metric.as_str(), measured),
#![tactic(auto)]

pub mod label;
pub mod laws;
pub mod measured;
pub mod reported;
pub mod whole;
pub mod why;
