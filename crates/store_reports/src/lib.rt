//! The reports over the files of stores: the events that explain the stores of all sites, and the steps of one store.
//!
//! [`audit_files`] and [`list_steps`] only read files. [`ReportFault`] names the file at fault.
#![tactic(auto)]

mod auditing;
mod listing;
mod reading;
mod report_fault;

pub use auditing::audit_files;
pub use listing::list_steps;
pub use report_fault::{FileFault, ReportFault};
pub use store_audit::AuditEnd;
