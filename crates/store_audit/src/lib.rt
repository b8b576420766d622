//! The stores of all sites, and the one list of events that explains them.
//!
//! [`journal_of_rows`] makes the journal of a site from all rows of its store: it does each step again, which must be the very same.
//! [`audit_stores`] writes the events that explain the journals of all stores, as a script of this program.
#![tactic(auto)]

mod audit_end;
mod auditing;
mod checking;
mod heading;
mod journal_fault;
pub mod laws;
mod reading;
mod splitting;
mod store_audit_fault;
mod store_journal;
mod walk;

pub use audit_end::AuditEnd;
pub use auditing::audit_stores;
pub use journal_fault::JournalFault;
pub use reading::journal_of_rows;
pub use store_audit_fault::StoreAuditFault;
pub use store_journal::StoreJournal;
