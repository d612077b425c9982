//! What the client's programs do: those that ask a desk, and `check` and `argo`, which read
//! manifests. None of them opens a desk's file.
//!
//! Callers may rest on this: `check` ends with nothing found only if it wrote `ok`; of the programs
//! that ask a desk `send` and `agent` alone may read the input. What they show is in the contracts
//! of canary_check, canary_argo_files, canary_client and canary_agent.
//!
//! In use (canary_cli, src/perform.rt):
//!
//!     Program::Ask(asked) => {
//!         let outcome = ask_desk(rt, asked, input, output, errors, terminals.output);
//!         Ok(ProgramExit::Asked(outcome))
//!     }
#![tactic(auto)]

pub mod argo;
pub mod call;
pub mod check;
pub mod exit;
mod yaml;
