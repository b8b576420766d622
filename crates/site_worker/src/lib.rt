//! Sites as threads: each asks, sends its frames and takes those of the others, all concurrently.
//!
//! A site has a thread that asks, a thread that cuts and sends, and for each other site a thread that
//! takes the frames of that site. They call the site's desk, each by a pass of its own. [`run_sites`]
//! returns each site's journal, and the receipts of each of its threads.
#![tactic(auto)]

mod asking;
mod each_ring;
mod ends;
mod pumping;
mod run_fault;
mod running;
mod tasks;
mod work;

pub use dots::Memory;
pub use each_ring::EachRing;
pub use run_fault::RunFault;
pub use running::{MOST_RUN_SITES, run_sites};
pub use site_audit::{AuditFault, audit};
pub use site_desk::{CloseFault, DeskPort, Gate, Pass, SiteBell, SiteDesk, SiteLedger, close};
pub use site_journal::{
    Bell, DeskFault, Journaled, Port, Receipt, SettleFault, Step, StepDeed, settle,
};
pub use site_links::{Link, LinkReceiver, LinkSender, compare};
pub use site_pumps::{
    Deed, Inlet, LinkPlan, NoReceipts, PumpedIn, PumpedOut, ReceiptSink, pump_in, pump_out,
};
pub use work::{SiteEnd, SiteWork};
