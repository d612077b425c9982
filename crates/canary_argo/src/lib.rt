//! Argo Rollouts' conditions, translated to a desk's.
//!
//! Callers may rest on this: what `translate` answers is a condition of the desk; on each result
//! that is reported in the form, it says what Argo's condition says of what was measured.
//!
//! In use (canary_convert, src/metric.rt):
//!
//!     let condition = translate(alloc, text, form)?;
//!     Ok(quoted(alloc, condition.as_str())?)
#![tactic(auto)]

pub mod condition;
pub mod fault;
pub mod form;
mod items;
pub mod laws;
mod lexer;
mod naming;
mod printing;
pub mod reporting;
mod translating;
pub mod translation;
