//! Reads the rows of a site's store from a copy of its files in memory, and changes nothing on the disk.
//!
//! [`read_bytes`] reads the file of a store and its log. [`rows_of_bytes`] gives the rows of the store that these bytes hold.
#![tactic(auto)]

mod copy_fault;
mod disks;
mod reading;
mod store_bytes;

pub use copy_fault::CopyFault;
pub use reading::rows_of_bytes;
pub use site_store::Listed;
pub use store_bytes::{StoreBytes, read_bytes};
