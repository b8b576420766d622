//! Running totals of completed and abandoned calls for each site and queue (RR-7506's grow-only
//! counter): a merge takes the greater of both, and a queue's total is the sum over the sites.
#![tactic(auto)]

mod few;
mod iter;
mod joining;
pub mod laws;
mod raising;
mod rows;
mod total_fault;
mod total_key;
mod totals;

pub use dots::{CallTotals, Calls, Memory};
pub use iter::Iter;
pub use total_fault::TotalFault;
pub use total_key::TotalKey;
pub use totals::Totals;

/// The kind of the calls that a total counts: another name of [`Calls`], which stands in `dots`.
pub type Kind = Calls;
