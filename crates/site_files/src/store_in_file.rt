ghost use Rattle.std.specs.Prelude.{◌≡◌, ◌↔◌, ◌≤◌, IfOk, IsTrue};
ghost use Rattle.site_journal.specs.declared.journaled.TheConstants.{MOST_STEPS};
ghost use Rattle.stored_threads.specs.ResumedSites.{IsNewStore};
ghost use Rattle.site_files.specs.Opened.{IsFirstStart};

use crate::{OpenFault, SiteFile, SiteFileFault};
use dots::SiteId;
use replica::QueueList;
use stored_desk::StepStore;

/// A store of a site that lies in a file (this project's own).
pub trait StoreInFile: StepStore {
    ghost use Rattle.std.specs.Prelude.{ℕ, Bool, List};
    ghost use Rattle.replica.specs.Site.{SiteState};

    /// A file that is open, and whose site is restored, before a start of it.
    type Restored: Drop;

    /// What the site of a restored file says.
    ghost restored_site: { Self.Restored → SiteState };

    /// A file holds the rows from which its site was restored.
    ghost is_restored: { Self.Restored → Type 0 };

    /// The bytes that name the store for ever.
    ghost name: { Self → List ℕ };

    /// How often the site was started over the store, with the last start.
    ghost starts: { Self → ℕ };

    /// The store keeps the rows in whose place a base is put.
    ghost keeps_rows: { Self → Type 0 };

    /// A start of a restored file has led to a store: its row was added, and the store keeps rows if it is to, else as before.
    ghost adds_start: { Bool → Self.Restored → Self → Type 0 };

    /// The file at a path, with its site of this number and these queues, as `open_site_file` has it: a new site where neither the file nor
    /// its log is there. While the store's steps are done again at most `limit` of them are in memory, 1 to 1,000,000. Errors are those of
    /// `open_site_file`.
    fn open_site(
        rt: &HostRuntime,
        path: &str,
        site: SiteId,
        list: &QueueList,
        limit: u32,
    ) -> Result<Self::Restored, SiteFileFault>
        requires some { 1 ≤ limit }
        requires most { limit ≤ MOST_STEPS }
        ensures site { IfOk result (λ it. (Self.restored_site it).site ≡ site) }
        ensures names { IfOk result (λ it. (Self.restored_site it).names ≡ list.now) }
        ensures restored { IfOk result (λ it. Self.is_restored it) };

    /// A start of the restored site of a file: the site and its store, as one value. The row of the start is added, in a commit of its own.
    /// If `keeps`, the store keeps from then on the rows in whose place a base is put, by another commit; a store that has begun to keep
    /// rows goes on. Errors are those of `resume` of `StepDatabase`. After each the row of the start may stand; the other rows stay.
    fn resume_site(restored: Self::Restored, keeps: bool) -> Result<SiteFile<Self>, OpenFault>
        requires restored { Self.is_restored restored }
        ensures replica { IfOk result (λ it. it.resumed.replica ≡ Self.restored_site restored) }
        ensures name { IfOk result (λ it. it.name ≡ Self.name it.resumed.store) }
        ensures starts { IfOk result (λ it. it.starts ≡ Self.starts it.resumed.store) }
        ensures adds { IfOk result (λ it. Self.adds_start keeps restored it.resumed.store) }
        ensures kept { IfOk result (λ it. IsTrue keeps → Self.keeps_rows it.resumed.store) }
        ensures is_new { IfOk result (λ it. IsTrue it.is_new ↔ IsFirstStart it) }
        ensures new { IfOk result (λ it. IsNewStore Self.holds Self.keeps Self.begun
            it.resumed.replica it.resumed.store) };
}
