//! Manifests as kubectl and people write them, in YAML, read as JSON.
//!
//! What is read is the part of YAML 1.2 that has a meaning in JSON, with its core schema: block and
//! flow mappings and sequences, plain, quoted, literal and folded scalars, comments, and more than
//! one document. The rest is refused by name, with its line and column: anchors, aliases, tags,
//! merge keys, complex keys and directives. So is what is mostly a mistake: a key twice, a tab in
//! an indentation, and a plain scalar that YAML 1.1, by which kubectl reads, takes for another
//! value.
//!
//! Callers may rest on this: what is read nests at most 127 deep, so the JSON that is written of it
//! reads back as the same value; and what is JSON is read as serde_json reads it.
//!
//! In use (canary_client, src/wish.rt):
//!
//!     match json_of(alloc, text.as_bytes()) {
//!         Ok(None) => Ok(text),
//!         Ok(Some(json)) => Ok(json),
//!         Err(yaml::YamlFault::Memory) => Err(Stop::Memory),
//!         Err(_) => Err(Stop::Manifest),
//!     }
#![tactic(auto)]

mod block;
mod cursor;
pub mod fault;
mod flow;
mod folded;
mod key;
mod literal;
mod number;
pub mod places;
mod plain;
mod quoted;
pub mod read;
mod schema;
mod text;
