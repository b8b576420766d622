//! The test of a desk with a store.
ghost use Rattle.std.specs.Prelude.{◌≡◌};
ghost use Rattle.replica.specs.Site.{IsSameSite};
ghost use Rattle.site_journal.specs.Journals.{IsOfSite};

use crate::desks::assert_desk;
use crate::memory_store::MemoryStore;
use crate::shared::new_site_0;
use replica::Replica;
use site_desk::SiteDesk;
use site_journal::Journaled;
use std::alloc::Global;
use std::marker::Brand;
use std::process::Abort;
use std::sync::Wait;
use std::sync::ledger::Blank;
use stored_desk::{NewHistory, NewMark, StoredDesk, StoredLedger};

// The journal of site 0, of the queue `sales`, which knows nothing. It is full after two steps.
fn journal_of(rt: &impl Abort, alloc: Global) -> Journaled
    ensures begun { result.count ≡ 0 }
    ensures site { IsOfSite result.base.site result.base.names result }
{
    match Journaled::new(alloc, new_site_0(rt, alloc), 2) {
        Ok(journal) => journal,
        Err(_) => rt.panic("memory"),
    }
}

// A copy of the site that a journal began from.
fn base_of(rt: &impl Abort, journal: &Journaled) -> Replica
    ensures { IsSameSite result journal.now.base }
{
    match journal.base().copy() {
        Ok(base) => base,
        Err(_) => rt.panic("memory"),
    }
}

// Makes a desk of a journal, over a store that takes 13 commits, and asserts what it does.
fn assert_holds<L: StoredLedger, R: Abort + Wait>(
    rt: &R,
    alloc: Global,
    blank: Blank,
    journal: Journaled,
    history: NewHistory,
    mark: NewMark,
)
    requires name { blank.name ≡ L.name }
    requires ledger { blank.parts ≡ L.parts }
    requires one { blank.parts ≡ 1 }
    requires begun { journal.count ≡ 0 }
    requires site { IsOfSite L.site L.names journal }
    requires limit { journal.limit ≡ L.limit }
    requires base { journal.base ≡ L.base }
    requires history { history ≡ L.history }
    requires mark { mark ≡ L.mark }
{
    let base = base_of(rt, &journal);
    let made = SiteDesk::<L>::new(alloc, blank, journal, 1).ok();
    let (desk, mut passes) = made.expect(rt, "memory");
    let store = MemoryStore::new(base, 13);
    let desk = StoredDesk::new(desk, store, history, mark).ok();
    let desk = desk.expect(rt, "a new desk");
    let pass = passes.pop().expect(rt, "a pass");
    drop(passes);
    assert_desk(rt, alloc, desk, pass);
}

// Asserts what the desk of site 0 does.
fn assert_of<R: Abort + Wait>(rt: &R, alloc: Global) {
    let journal = journal_of(rt, alloc);
    let mark = NewMark::new(alloc).expect(rt, "memory");
    assert_holds::<Brand, R>(rt, alloc, Blank::new(1), journal, NewHistory::new(), mark);
}

#[test]
fn a_desk_saves_its_steps_until_a_commit_fails(rt: HostRuntime) {
    assert_of(&rt, rt.alloc());
}
