//! Serves sites as the command line asks for: the sites of a server, and one site that is linked to others, over stores that are files or
//! without stores.
//!
//! [`serve_site_files`] opens a store for each site of a server, and [`serve_new_sites`] serves sites that store nothing.
//! [`serve_linked_file`] opens the store of one linked site, and [`serve_volatile`] serves a linked site that stores nothing. A program
//! names the type of the stores.
#![tactic(auto)]

mod addresses;
mod linking;
mod links;
mod opening;
mod service_fault;
mod serving;
mod starting;
mod store_path;

pub use addresses::Listeners;
pub use linked_site::EndReason;
pub use linking::{serve_linked_file, serve_volatile};
pub use links::LinkedRequest;
pub use service_fault::ServiceFault;
pub use serving::{serve_new_sites, serve_site_files};
pub use store_path::StorePath;
