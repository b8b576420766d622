//! The store of a site, in an SQLite database: its base, the rows of its steps since, and if it keeps them the rows from before.
#![tactic(auto)]

mod creating;
mod group;
mod history;
mod keeping;
pub mod laws;
mod open_fault;
mod opening;
mod reading;
mod replacing;
mod restoring;
mod shape;
mod tables;
mod writing;

pub use creating::create;
pub use group::append_all;
pub use history::read_history;
pub use keeping::keep_rows;
pub use open_fault::OpenFault;
pub use opening::{close, open, open_blank, open_new};
pub use reading::{Listed, read_all};
pub use replacing::replace_base;
pub use restoring::{LAST_POSITION, RestoredStore, add_start, restore_site};
pub use shape::{is_blank_schema, is_step_schema, is_store_schema, keeps_rows};
pub use writing::append;
