//! Runs sites: each in a thread of its own, with one further thread for each of its tasks.
//!
//! [`launch_sites`] runs whatever is launched as a site, and [`run_threads`] does the tasks of one site. Both share a [`Start`], so that
//! all threads of all sites run before a task begins. If a thread can't start, no task begins.
#![tactic(auto)]

mod launch;
mod launch_fault;
mod site_fault;
mod sites;
mod start;
mod tasks;
mod tasks_with_passes;
mod threads;
mod workplace;

pub use launch::Launch;
pub use launch_fault::LaunchFault;
pub use site_fault::SiteFault;
pub use sites::launch_sites;
pub use start::Start;
pub use tasks::TaskResults;
pub use threads::run_threads;
pub use workplace::Workplace;
