//! The live dots of a member set, each with its member and a register for each field, in cells of an arena. Two lists of
//! ids index them: by dot, and by member and then by dot. A spent id never means another dot.
#![tactic(auto)]

mod cell;
mod cells_builder;
mod cells_lent;
mod cursor;
mod dots_lent;
mod freeing;
mod latest;
mod live_cells;
mod live_dot;
mod live_runs;
mod member_ids;
mod member_index;
mod member_rows;
mod moving;
mod placed;
mod placed_cells;
mod placed_dots;
mod placed_lists;
mod places;
mod rows_lent;
mod taken_cells;

pub use cell::Cell;
pub use cells_builder::CellsBuilder;
pub use cells_lent::Cells;
pub use cursor::Cursor;
pub use dots::Memory;
pub use dots_lent::Dots;
pub use live_cells::LiveCells;
pub use live_dot::LiveDot;
pub use live_runs::live_run_end;
pub use op_arena::{ArenaFault, CellId};
pub use operations::Row;
pub use placed::Placed;
pub use placed_dots::PlacedDots;
pub use places::LAST_GENERATION;
pub use rows_lent::Rows;
pub use taken_cells::TakenCells;
