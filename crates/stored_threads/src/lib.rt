//! Runs sites with a store: each in a thread of its own, with one further thread for each of its tasks.
//!
//! A [`ResumedSite`] is a site with its store, of which neither is given out alone. [`run_stored_sites`] first starts all threads of all
//! sites. If all start, each does its task at the site's desk, from which nothing leaves before it is durable. Each site then saves all its
//! steps, and gives its journal, what its tasks gave, and its store.
#![tactic(auto)]

mod resumed_site;
mod stored_site;
mod stored_site_tasks;
mod stored_sites;
mod stored_task;

pub use resumed_site::ResumedSite;
pub use site_threads::{Journaled, LaunchFault, MOST_PASSES, Pass, TaskEnd, TaskOutput};
pub use stored_desk::{CommitFault, StepStore, StoredDesk, StoredLedger};
pub use stored_site_tasks::{StoredSiteOutput, StoredSiteTasks};
pub use stored_sites::run_stored_sites;
pub use stored_task::StoredTask;
