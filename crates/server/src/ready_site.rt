ghost use Rattle.std.specs.Prelude.{◌<◌, ◌≤◌, vec_len};
ghost use Rattle.site_desk.specs.declared.desk.TheConstants.{MOST_PASSES};

use crate::site::Site;
use crate::working::SiteTask;

// What a site of a server has before it is launched, beside its replica and its store.
#[derive(Drop)]
pub(crate) struct ReadySite {
    // What its threads share.
    pub shared: Site,
    // Its tasks, but the one that saves.
    pub tasks: Vec<SiteTask>,
    pub ghost some: { 1 ≤ vec_len tasks },
    pub ghost few: { vec_len tasks < MOST_PASSES },
}
