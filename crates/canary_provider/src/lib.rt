//! What a provider of measurements is asked, and what its reply says: Prometheus, and any service
//! that answers in JSON.
//!
//! Callers may rest on this: what is measured is what the body of the reply says at the place that
//! the plan names, and if nothing is measured, it says nothing there; a message has the lines that
//! the plan asks for and no others; and no text that reports a failure has a character that a
//! terminal takes for more than one.
//!
//! In use (canary_agent, src/taken.rt):
//!
//!     match measured_of(alloc, answer, status, body)? {
//!         Ok(measured) => Ok(Came::Measured(measured)),
//!         Err(text) => Ok(Came::Failed(text)),
//!     }
#![tactic(auto)]

mod body;
mod failure;
mod fields;
pub mod laws;
pub mod line;
pub mod message;
pub mod path;
pub mod plan;
mod prometheus;
pub mod refusal;
pub mod reply;
mod stop;
mod target;
mod values;
