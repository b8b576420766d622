//! The store of a site in a file: opens the file at a path, or makes a new one, and restores its site, which then goes on over it.
//!
//! [`StoreInFile`] is a store that can be opened so, for code that needs no more of it. A [`SiteFile`] has the site and its store as one
//! value, so that nothing serves the site without its store.
#![tactic(auto)]

mod opening;
mod site_database;
mod site_file;
mod site_file_fault;
mod store_in_file;

pub use opening::{file_of_site, open_site_file, restore_site_file};
pub use site_database::SiteDatabase;
pub use site_file::{RestoredFile, SiteFile};
pub use site_file_fault::SiteFileFault;
pub use site_store::OpenFault;
pub use store_in_file::StoreInFile;
