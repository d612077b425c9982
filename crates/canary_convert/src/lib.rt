//! Manifests of Argo Rollouts as they are, converted to a desk's, with a plan for an agent that
//! measures.
//!
//! Callers may rest on this: if anything is found, nothing is made.
//!
//! In use (canary_argo_files, src/translated.rt):
//!
//!     let made = convert(alloc, sources_of(manifests))?;
#![tactic(auto)]

mod arguments;
pub mod conversion;
mod documents;
mod draft;
mod filling;
pub mod finding;
mod json;
mod manifest_place;
mod metric;
mod rollout;
pub mod source;
mod template;
mod unknown;
pub mod work;
