//! A list of events as a script, which the sites of a script run.
//!
//! [`write_events`] writes a line for each event. The law of [`laws`] says what the script shows where the events are one run of
//! journals: each step's stored answer.
#![tactic(auto)]

mod events_fault;
pub mod laws;
mod lines;
mod plain;
mod writing;

pub use events_fault::EventsFault;
pub use writing::write_events;
