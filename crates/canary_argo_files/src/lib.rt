//! Files of Argo Rollouts' manifests, read and translated: what a desk takes in their place, what
//! an agent has to measure, and what is not translated, with file, line and column.
//!
//! Callers may rest on this: nothing is translated if anything is found; and of each manifest that
//! is made canary_check finds nothing, so a desk takes it, and starts attempts of each service once
//! it has the templates that are made.
//!
//! In use (canary_cli_client, src/argo.rt):
//!
//!     let manifests = manifests_of(rt, files, input, errors)?;
//!     let Ok(translated) = translate(rt.alloc(), &manifests) else {
//!         return Err(Fault::Memory);
//!     };
#![tactic(auto)]

pub mod found;
mod placing;
pub mod reading;
mod report;
pub mod shown;
pub mod translated;
