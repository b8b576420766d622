//! The rows of a store in words, a line for each.
//!
//! [`write_steps`] writes each row's position and what it says: the base, a start, or a step with its pass. With frames it writes
//! the bytes of each step's frame too (docs/audit.md).
#![tactic(auto)]

mod bases;
mod commands;
mod frames;
pub mod laws;
mod lines;
mod listing_fault;
mod texts;
mod writing;

pub use listing_fault::ListingFault;
pub use writing::write_steps;
