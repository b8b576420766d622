//! The rows that a store keeps of a site: which steps have a row, what a row says, and which step it stands for; the base before the steps;
//! and the site that is built again of both.
#![tactic(auto)]

mod base;
mod base_fault;
mod base_reading;
mod base_writing;
pub mod laws;
mod limits;
mod restored_site;
mod restoring;
mod row_fault;
mod row_kind;
mod step_rows;
mod store_fault;
mod stored_row;
mod words;

pub use base::StoredBase;
pub use base_fault::BaseFault;
pub use base_reading::{base_heading, base_of_row};
pub use base_writing::row_of_base;
pub use dots::Memory;
pub use limits::{BASE_VERSION, NAME_BYTES};
pub use restored_site::RestoredSite;
pub use restoring::restore;
pub use row_fault::RowFault;
pub use row_kind::RowKind;
pub use step_rows::{row_of_step, step_of_row};
pub use store_fault::StoreFault;
pub use stored_row::StoredRow;
