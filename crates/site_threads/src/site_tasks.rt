ghost use Rattle.std.specs.Prelude.{◌≤◌, vec_len};
ghost use Rattle.site_desk.specs.declared.desk.TheConstants.{MOST_PASSES};

use replica::Replica;
use site_journal::Journaled;

/// What one site is launched with: its replica, its tasks, and what they share (this project's own).
#[derive(Drop)]
pub struct SiteTasks<S: Drop, T: Drop> {
    /// The site before its first step. It has no store.
    pub replica: Replica,
    /// What the site's threads share.
    pub shared: S,
    /// The site's tasks, 1 to 256. Each is done by a thread of its own, with the pass of its place.
    pub tasks: Vec<T>,
    pub ghost some: { 1 ≤ vec_len tasks },
    pub ghost few: { vec_len tasks ≤ MOST_PASSES },
}

/// What one site ends with (this project's own).
#[derive(Drop)]
pub struct SiteOutput<O: Drop> {
    /// The journal of the site's steps.
    pub journal: Journaled,
    /// What the site's tasks gave, in the order of the tasks.
    pub outputs: Vec<O>,
}
