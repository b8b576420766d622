//! The optimized observed-remove set of queue members (RR-8083): the live dots, each with its member and a register
//! for each field, and a causal context of all known dots. Of a dead dot the set keeps only that it is known.
#![tactic(auto)]

mod agreement;
mod dead;
mod edits;
mod gathered;
mod given_dots;
mod join_fault;
mod joining;
mod known_runs;
pub mod laws;
mod member_set;
mod piece;
mod sameness;
mod seen;
mod set_builder;
mod site_walk;

pub use dots::Memory;
pub use join_fault::JoinFault;
pub use live_cells::{Cell, Cells, Dots, Rows};
pub use member_set::MemberSet;
pub use op_arena::CellId;
pub use operations::Row;
pub use set_builder::SetBuilder;
