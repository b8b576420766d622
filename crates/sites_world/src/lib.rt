//! All sites in one process, without threads: events at the sites, and the pool of the frames that they made.
//!
//! A world says what each site knows after every list of events, whatever frames are lost, repeated and reordered: each site's
//! answer is the reading of the operations that it knows.
#![tactic(auto)]

mod event;
pub mod laws;
mod outcome;
mod run;
mod world;
mod world_fault;

pub use dots::Memory;
pub use event::Event;
pub use outcome::Outcome;
pub use world::World;
pub use world_fault::WorldFault;
