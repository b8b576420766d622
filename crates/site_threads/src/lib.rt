//! Runs sites: each in a thread of its own, with one further thread for each of its tasks.
//!
//! [`run_sites`] first starts all threads of all sites. If all start, each does its task, and the
//! caller gets each site's journal and what its tasks gave. If a thread can't start, no task begins.
//! [`launch_sites`] runs sites of another form in the same way, such as sites whose desk has a store.
#![tactic(auto)]

mod site;
mod site_tasks;
mod sites;
mod task;

pub use launcher::{Launch, LaunchFault, SiteFault, Start, Workplace, launch_sites};
pub use site::{close_site, run_threads};
pub use site_desk::{MOST_PASSES, Pass, SiteDesk, SiteLedger};
pub use site_journal::Journaled;
pub use site_tasks::{SiteOutput, SiteTasks};
pub use sites::run_sites;
pub use task::{Task, TaskEnd, TaskOutput, TaskResults};
