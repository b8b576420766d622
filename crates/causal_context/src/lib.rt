//! Causal contexts: finite sets of dots, each stored as one sorted list of its runs.
//!
//! A context holds the dots that a replica knows, so that a removed dot needs no tombstone (the optimized
//! observed-remove set of RR-8083), and that changes may arrive in any order. Contracts see only the set, and the
//! number of runs for which there is room.
#![tactic(auto)]

mod context;
mod context_fault;
mod cover;
mod few;
pub mod laws;
mod merge;
mod run;
mod run_list;
mod search;
mod splice;

pub use context::Context;
pub use context_fault::ContextFault;
pub use dots::Memory;
pub use run::Run;
