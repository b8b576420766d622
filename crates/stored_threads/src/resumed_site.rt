ghost use Rattle.std.specs.Prelude.{◌≡◌, []};
ghost use Rattle.replica.specs.Queues.{AreQueues};
ghost use Rattle.replica.specs.Site.{IsSameSite};
ghost use Rattle.stored_threads.specs.ResumedSites.{IsNewStore};

use dots::SiteId;
use replica::{QueueList, Replica};
use std::marker::Model;
use stored_desk::StepStore;

/// A site that goes on over its store, and has done no step since this start. Neither is given out alone: the site runs by
/// `run_stored_sites`, and its tasks reach it by its desk (this project's own).
#[derive(Drop)]
pub struct ResumedSite<D: StepStore> {
    replica: Replica,
    store: D,
}

impl<D: StepStore> Model for ResumedSite<D> {
    ghost use Rattle.stored_threads.specs.ResumedSites.{IsNewStore, ResumedState, resumed_code};

    ghost Value = { ResumedState D };

    ghost coded = { resumed_code D.code };

    ghost view = { λ s. record { replica = s.replica; store = s.store } };

    ghost invariant = { λ s. IsNewStore D.holds D.keeps D.begun s.replica s.store };
}

impl<D: StepStore> ResumedSite<D> {
    /// A site over a store, which has no step yet, and begins as the site.
    pub fn new(replica: Replica, store: D) -> ResumedSite<D>
        requires holds { D.holds store [] }
        requires keeps { D.keeps store [] [] }
        requires begun { IsSameSite (D.begun store) replica }
        ensures replica { result.replica ≡ replica }
        ensures store { result.store ≡ store }
    {
        ResumedSite { replica, store }
    }

    /// The number of the site.
    pub fn site(&self) -> SiteId
        ensures { result ≡ self.now.replica.site }
    {
        self.replica.site()
    }

    /// The queues of the site: 1 to 256 distinct names.
    pub fn list(&self) -> &QueueList
        ensures value { result.now ≡ self.now.replica.names }
        ensures queues { AreQueues self.now.replica.names }
    {
        self.replica.list()
    }

    // The site and its store.
    pub(crate) fn into_parts(self) -> (Replica, D)
        ensures replica { result.0 ≡ self.replica }
        ensures store { result.1 ≡ self.store }
        ensures new { IsNewStore D.holds D.keeps D.begun result.0 result.1 }
    {
        let ResumedSite { replica, store } = self;
        (replica, store)
    }
}
