ghost use Rattle.std.specs.Prelude.{◌≤◌, vec_len};
ghost use Rattle.site_desk.specs.declared.desk.TheConstants.{MOST_PASSES};

use crate::ResumedSite;
use site_journal::Journaled;
use stored_desk::{CommitFault, StepStore};

/// What one site with a store is launched with (this project's own).
#[derive(Drop)]
pub struct StoredSiteTasks<D: StepStore, S: Drop, T: Drop> {
    /// The site, which goes on over its store.
    pub resumed: ResumedSite<D>,
    /// What the site's threads share.
    pub shared: S,
    /// The site's tasks, 1 to 256. Each is done by a thread of its own, with the pass of its place.
    pub tasks: Vec<T>,
    pub ghost some: { 1 ≤ vec_len tasks },
    pub ghost few: { vec_len tasks ≤ MOST_PASSES },
}

/// What one site with a store ends with (this project's own).
#[derive(Drop)]
pub struct StoredSiteOutput<D: Drop, O: Drop> {
    /// The journal of the site's steps.
    pub journal: Journaled,
    /// What the site's tasks gave, in the order of the tasks.
    pub outputs: Vec<O>,
    /// The store, unless a thread was cut off in a commit.
    pub store: Option<D>,
    /// Why the journal may have steps that the store hasn't, if it may: a commit of the store has failed, or (`Other`) a step isn't saved
    /// for another cause, or the store hasn't come back.
    pub fault: Option<CommitFault>,
}
