//! Cells in raw memory, each under an id that never means another cell.
//!
//! Contracts see an arena as a finite map from ids to values, with the set of spent ids and the room that is
//! left. An id that was taken gives no value from then on. Growth adds a chunk and moves nothing.
#![tactic(auto)]

mod arena;
mod arena_fault;
mod cell_id;
mod chunk;
mod chunks;
mod places;
mod slot;

pub use arena::Arena;
pub use arena_fault::ArenaFault;
pub use cell_id::CellId;
