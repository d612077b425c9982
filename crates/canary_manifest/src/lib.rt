//! Commands as they are asked for, in JSON: AnalysisTemplate and Rollout manifests of Argo
//! Rollouts, as `kubectl get -o json` prints them, and the commands that name a service.
//!
//! Callers may rest on this: a command is read from the bytes of a body exactly as its definition
//! reads it, and what the desk does not do is reported before what cannot be read (`Memory` aside).
//!
//! In use (canary_check, src/check.rt):
//!
//!     match command_from_json(alloc, body.as_slice()) {
//!         Ok(command) => is_command_taken(alloc, &command),
//!         Err(WireFault::Unreadable) => Ok(false),
//!         Err(WireFault::Unsupported) => Ok(false),
//!         Err(WireFault::Memory) => Err(Memory),
//!     }
#![tactic(auto)]

pub mod command;
pub mod member;
pub mod rollout;
pub mod template;
