//! What a site refuses of another's frame: queues that it doesn't have, and dots, writes and calls of its own that it hasn't made.
ghost use Rattle.std.specs.Prelude.{◌≡◌, ◌⊎◌, ◌↔◌, ◌<◌, ◌≤◌, Any, Err, IsTrue, OnErr, OnOk, length};
ghost use Rattle.std.specs.FinMap as map;
ghost use Rattle.operations.specs.Totals.{InLimits};
ghost use Rattle.replica.specs.Taking.{CountsMore, HasDotPast, HasFieldPast, HasMemberPast};
ghost use Rattle.replica.specs.Taking.{IsEntryPast, IsNotMine, IsWrittenPast, MayHear};
ghost use Rattle.replica.specs.Taking.{SpeaksOfStrangeQueue};

use crate::{Replica, TakeFault};
use causal_context::{Context, Run};
use delta::Delta;
use dots::{CallTotals, SiteId, Stamp};
use lww_registers::{Fields, Register};
use member_orset::MemberSet;
use site_totals::{TotalKey, Totals};

// Whether some live dot is of a member in a queue whose number isn't below this one. Takes no memory, like every function here.
pub(crate) fn has_strange_member(members: &MemberSet, queues: u16) -> bool
    ensures { IsTrue result ↔ Any (λ e. queues ≤ e.1.0.queue) (map.entries members.now.live) }
{
    for (_dot, cell) in members.iter() {
        if cell.member.queue >= queues {
            return true;
        }
    }
    false
}

// Whether some total is of a queue whose number isn't below this one.
pub(crate) fn has_strange_total(totals: &Totals, queues: u16) -> bool
    ensures test { IsTrue result
        ↔ Any (λ e. queues ≤ e.0.queue) (map.entries totals.now.entries) }
    ensures limits { InLimits totals.now.entries }
{
    totals.iter().any(|(key, _)| key.queue() >= queues)
}

// Whether a delta has a live dot or a total in a queue whose number isn't below this one.
fn speaks_of_strange_queue(delta: &Delta, queues: u16) -> bool
    ensures { IsTrue result ↔ SpeaksOfStrangeQueue queues delta.now }
{
    has_strange_member(delta.members(), queues) || has_strange_total(delta.totals(), queues)
}

// Whether a run has a dot of this site of a count past this one.
fn is_run_past(run: Run, site: SiteId, last: u64) -> bool
    ensures { IsTrue result ↔ ((run.site ≡ site) × (last < run.last)) }
{
    run.site == site && run.last > last
}

// Whether one of these runs has a dot of this site of a count past this one.
fn has_run_past(runs: &[Run], site: SiteId, last: u64) -> bool
    ensures { IsTrue result ↔ Any (λ r. (r.site ≡ site) × (last < r.last)) runs.now }
{
    runs.iter().any(|run| is_run_past(*run, site, last))
}

// Whether a context has a dot of this site of a count past this one.
pub(crate) fn has_dot_past(context: &Context, site: SiteId, last: u64) -> bool
    ensures { IsTrue result ↔ HasDotPast site last context.now.dots }
{
    has_run_past(context.as_slice(), site, last)
}

// Whether a stamp is of this site and of a time past this one.
fn is_stamp_past(stamp: Stamp, site: SiteId, last: u64) -> bool
    ensures { IsTrue result ↔ ((stamp.site ≡ site) × (last < stamp.time)) }
{
    stamp.site() == site && stamp.time() > last
}

// Whether a register was written under a stamp of this site and of a time past this one.
fn is_written_past<T>(register: &Register<T>, site: SiteId, last: u64) -> bool
    ensures { IsTrue result ↔ IsWrittenPast site last register.now }
{
    match register.stamp() {
        Some(stamp) => is_stamp_past(stamp, site, last),
        None => false,
    }
}

// Whether one of a dot's fields was written under a stamp of this site and of a time past this one.
fn has_field_past(fields: &Fields, site: SiteId, last: u64) -> bool
    ensures { IsTrue result ↔ HasFieldPast site last fields.now }
{
    is_written_past(&fields.penalty, site, last)
        || is_written_past(&fields.pause, site, last)
        || is_written_past(&fields.label, site, last)
        || is_written_past(&fields.ring, site, last)
}

// Whether a field of some live dot was written under a stamp of this site and of a time past this one.
pub(crate) fn has_stamp_past(members: &MemberSet, site: SiteId, last: u64) -> bool
    ensures { IsTrue result
        ↔ Any (λ e. HasFieldPast site last e.1.1) (map.entries members.now.live) }
{
    for (_dot, cell) in members.iter() {
        if has_field_past(cell.fields, site, last) {
            return true;
        }
    }
    false
}

// Whether a set of members has a dot of this site of a count past `count`, or a live dot with a field that this site wrote
// later than `time`.
fn has_member_past(members: &MemberSet, site: SiteId, count: u64, time: u64) -> bool
    ensures { IsTrue result ↔ HasMemberPast site count time members.now }
{
    has_dot_past(members.context(), site, count) || has_stamp_past(members, site, time)
}

// Whether one of two totals is greater than the site's own one.
fn counts_more(totals: CallTotals, own: CallTotals) -> bool
    ensures { IsTrue result ↔ CountsMore own totals }
{
    totals.completed > own.completed || totals.abandoned > own.abandoned
}

// Whether an entry has a total of this site that is greater than the site's own.
fn is_entry_past(key: TotalKey, totals: CallTotals, own: &Totals, site: SiteId) -> bool
    ensures { IsTrue result ↔ IsEntryPast site own.now.entries key totals }
{
    key.site() == site && counts_more(totals, own.of(site, key.queue()))
}

// Whether some entry has a total of this site that is greater than the site's own.
fn has_total_past(totals: &Totals, own: &Totals, site: SiteId) -> bool
    ensures { IsTrue result
        ↔ Any (λ e. IsEntryPast site own.now.entries e.0 e.1) (map.entries totals.now.entries) }
{
    totals
        .iter()
        .any(|(key, counted)| is_entry_past(key, counted, own, site))
}

// Whether a delta has a dot, a write or a call of a site that the site hasn't made.
fn is_not_mine(replica: &Replica, delta: &Delta) -> bool
    ensures { IsTrue result ↔ IsNotMine replica.now delta.now }
{
    let site = replica.site();
    let (count, time, _) = replica.last();
    has_member_past(delta.members(), site, count, time)
        || has_total_past(delta.totals(), replica.state().totals(), site)
}

// Checks that a site may take a delta if the delta can be joined. Errors, in order: 1 `NoSuchQueue`, exactly where a live dot or
// a total is of a queue that isn't in the list; 2 `NotMine`, exactly where the delta has a dot, a write or a call of the site
// that the site hasn't made.
pub(crate) fn hear(replica: &Replica, delta: &Delta) -> Result<(), TakeFault>
    ensures heard { OnOk result (MayHear replica.now delta.now) }
    ensures no_such_queue { (result ≡ Err TakeFault.NoSuchQueue)
        ↔ SpeaksOfStrangeQueue (length replica.now.names) delta.now }
    ensures not_mine { (result ≡ Err TakeFault.NotMine)
        ↔ ((SpeaksOfStrangeQueue (length replica.now.names) delta.now → ⊥)
        × IsNotMine replica.now delta.now) }
    ensures only { OnErr result ((result ≡ Err TakeFault.NoSuchQueue)
        ⊎ (result ≡ Err TakeFault.NotMine)) }
{
    if speaks_of_strange_queue(delta, replica.list().len()) {
        return Err(TakeFault::NoSuchQueue);
    }
    if is_not_mine(replica, delta) {
        return Err(TakeFault::NotMine);
    }
    Ok(())
}
