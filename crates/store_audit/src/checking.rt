//! Whether stores are those of the sites 0, 1, .. with one list of queues.
ghost use Rattle.std.specs.Prelude.{◌≡◌, ◌≤◌, IfErr, IfNone, IfSome, OnOk, length};
ghost use Rattle.std.specs.List.Sorted.{IsNonDecreasingBy, IsPermutation};
ghost use Rattle.dots.specs.Values.{IsSite};
ghost use Rattle.dots.specs.declared.limits.TheConstants.{SITES};
ghost use Rattle.replica.specs.Queues.{AreQueues};
ghost use Rattle.site_audit.specs.Runs.{AreSites};
ghost use Rattle.store_audit.specs.Stores.{AreNumbered, AreRising, AreTwice, HasGap};
ghost use Rattle.store_audit.specs.Stores.{HasOneList, HasOtherQueues, IsOrderCause};
ghost use Rattle.store_audit.specs.Stores.{journals_of, site_number};

use crate::{StoreAuditFault, StoreJournal};
use replica::QueueList;

// The number of the site of a store.
pub(crate) fn site_of(store: &StoreJournal) -> u16
    ensures value { result ≡ site_number store.now }
    ensures limit { IsSite result }
{
    store.journal.base().site().number()
}

// The queues of the site of a store.
pub(crate) fn list_of(store: &StoreJournal) -> &QueueList
    ensures value { result.now ≡ store.now.journal.base.names }
    ensures queues { AreQueues store.now.journal.base.names }
{
    store.journal.base().list()
}

// Puts stores into the order of their sites.
pub(crate) fn sort(stores: &mut Vec<StoreJournal>)
    ensures same { IsPermutation stores.old.items stores.new.items }
    ensures rising { IsNonDecreasingBy site_number stores.new.items }
{
    stores.sort_unstable_by_key(|store| site_of(store));
}

// The least site that two stores are of. `None`: each is of another site. The stores stand in the order of their sites.
fn doubled(stores: &[StoreJournal]) -> Option<u16>
    requires { IsNonDecreasingBy site_number stores.now }
    ensures found { IfSome result (λ site. AreTwice stores.now site) }
    ensures none { IfNone result (AreRising stores.now) }
{
    let mut place = 1;
    while place < stores.len() {
        let before = place - 1;
        let lesser = site_of(&stores[before]);
        let site = site_of(&stores[place]);
        if site <= lesser {
            return Some(site);
        }
        place += 1;
    }
    None
}

// The least site that no store is of, if a store is of a greater one. `None`: they are of the sites 0, 1, .. Each store is of a greater
// site than the one before it.
fn missing(stores: &[StoreJournal]) -> Option<u16>
    requires { AreRising stores.now }
    ensures found { IfSome result (λ site. HasGap stores.now site) }
    ensures numbered { IfNone result (AreNumbered stores.now (length stores.now)) }
    ensures few { IfNone result (length stores.now ≤ SITES) }
{
    let mut place = 0;
    while place < stores.len() {
        if usize::from(site_of(&stores[place])) != place {
            return Some(place as u16);
        }
        place += 1;
    }
    None
}

// The least site whose store has other queues than the first. `None`: all have the same. The stores are those of the sites 0, 1, .., at
// most 64.
fn other_queues(stores: &[StoreJournal]) -> Option<u16>
    requires numbered { AreNumbered stores.now (length stores.now) }
    requires few { length stores.now ≤ SITES }
    ensures found { IfSome result (λ site. HasOtherQueues stores.now site) }
    ensures none { IfNone result (HasOneList stores.now (length stores.now)) }
{
    let mut place = 0;
    while place < stores.len() {
        let list = list_of(&stores[place]);
        let first = list_of(&stores[0]);
        if !list.same(first) {
            return Some(place as u16);
        }
        place += 1;
    }
    None
}

// Checks that stores in the order of their sites are those of the sites 0, 1, .. with one list of queues. Errors, in order, each with the
// least site that has it: `Doubled`, `Missing`, `OtherQueues`.
#[tactic(auto, using(crate::proofs::Sorted::all_sites))]
pub(crate) fn check(stores: &[StoreJournal]) -> Result<(), StoreAuditFault>
    requires { IsNonDecreasingBy site_number stores.now }
    ensures sites { OnOk result (AreSites (journals_of stores.now)) }
    ensures few { OnOk result (length stores.now ≤ SITES) }
    ensures fault { IfErr result (λ fault. IsOrderCause stores.now fault) }
{
    if let Some(site) = doubled(stores) {
        return Err(StoreAuditFault::Doubled(site));
    }
    if let Some(site) = missing(stores) {
        return Err(StoreAuditFault::Missing(site));
    }
    match other_queues(stores) {
        Some(site) => Err(StoreAuditFault::OtherQueues(site)),
        None => Ok(()),
    }
}
