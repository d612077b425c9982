//! What keeps the desk from taking a manifest or the body of a request, reported without a desk:
//! for each member that it would not read, or would refuse, where the member stands and what is
//! expected there.
//!
//! Callers may rest on this: a `CheckReport` is ok, and its text is `ok`, exactly if the desk
//! reads the manifest, as the body of a command, or the body itself, and refuses nothing that it
//! holds itself (`Memory` aside). If nothing is warned of, no service is registered that time alone
//! brings to 100 percent. No contract says which other warnings a `CheckReport` has.
//!
//! In use (canary_cli_client, src/check.rt):
//!
//!     let Ok(findings) = canary_check::check::check(alloc, manifest) else {
//!         return Err(Fault::Memory);
//!     };
//!     show_findings(alloc, findings, strict, output, errors)
#![tactic(auto)]

mod alone;
pub mod attempt;
mod binding;
mod body;
pub mod check;
mod condition;
mod decimal;
mod excerpt;
mod forms;
mod ignored;
mod instead;
mod json_place;
mod lines;
mod members;
mod metric;
mod report;
pub mod request;
mod rollout;
mod step;
mod template;
mod text;
mod trial;
mod waiting;
mod warning;
