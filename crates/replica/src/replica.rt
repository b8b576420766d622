ghost use Rattle.std.specs.Prelude.{◌≡◌, ◌↔◌, ◌≤◌, IfOk, IsTrue, option_map};
ghost use Rattle.dots.specs.declared.calls.Calls.TheVariants.{Completed, Abandoned};
ghost use Rattle.operations.specs.Counts.{queue_total};
ghost use Rattle.operations.specs.Rows.{dot_view, row_of, rows_of as rows_read};
ghost use Rattle.operations.specs.Views.{row_view};
ghost use Rattle.member_orset.specs.Members.{dot_view_of};
ghost use Rattle.delta.specs.DeltaStates.{IsEmpty};
ghost use Rattle.replica.specs.Changing.{IsChangeOf};
ghost use Rattle.replica.specs.Deeds.{IsNew};
ghost use Rattle.replica.specs.Keeping.{IsKept};
ghost use Rattle.replica.specs.Making.{IsMade};
ghost use Rattle.replica.specs.Queues.{AreQueues};
ghost use Rattle.replica.specs.Replicas.{IsReplica};
ghost use Rattle.replica.specs.Site.{IsSameSite, rows_of, sums_of};
ghost use Rattle.replica.specs.Standing.{StandsFor};
ghost use Rattle.replica.specs.Steps.{SiteKnowledge, new_site};

use crate::joining::join_both;
use crate::{QueueList, Refusal, Row, Rows};
use delta::Delta;
use dots::{CallTotals, MOST_COUNT, Member, Memory, SiteId};
use std::alloc::Global;
use std::marker::Model;

/// What one site knows of the queue members and of the calls: its number, the list of the queues, its state (everything that it
/// knows), and its buffer (what it has made and put into no frame yet). It has the limits of deltas, and its counts, times and
/// frame numbers are at most 2^40.
#[derive(Drop)]
pub struct Replica {
    pub(crate) site: SiteId,
    pub(crate) list: QueueList,
    pub(crate) state: Delta,
    pub(crate) pending: Delta,
    // The last numbers that were used, each 0 before the first.
    pub(crate) count: u64,
    pub(crate) time: u64,
    pub(crate) frames: u64,
    pub(crate) alloc: Global,
}

impl Model for Replica {
    ghost use Rattle.replica.specs.Site.{SiteState, site_code};

    ghost Value = { SiteState };

    ghost coded = { site_code };

    ghost use Rattle.replica.specs.Replicas.{IsReplica};

    ghost view = { λ r. record {
      site = r.site;
      names = r.list;
      state = r.state;
      pending = r.pending;
      last_count = r.count;
      last_time = r.time;
      frames = r.frames;
    } };

    ghost invariant = { λ r. IsReplica (record {
      site = r.site;
      names = r.list;
      state = r.state;
      pending = r.pending;
      last_count = r.count;
      last_time = r.time;
      frames = r.frames;
    }) };
}

impl Replica {
    /// The replica of a new site, which knows nothing and has used no number. Takes no memory.
    pub fn new(alloc: Global, site: SiteId, list: QueueList) -> Replica
        ensures site { result.site ≡ site }
        ensures names { result.names ≡ list }
        ensures state { IsEmpty result.state }
        ensures pending { IsEmpty result.pending }
        ensures last_count { result.last_count ≡ 0 }
        ensures last_time { result.last_time ≡ 0 }
        ensures frames { result.frames ≡ 0 }
        ensures none_retired { (result.state.members.retired ≡ 0) × (result.pending.members.retired ≡ 0) }
        ensures meaning { StandsFor result new_site }
    {
        let _ = list.len(); // exposes the list's limits to the proof
        Replica {
            site,
            list,
            state: Delta::empty(alloc),
            pending: Delta::empty(alloc),
            count: 0,
            time: 0,
            frames: 0,
            alloc,
        }
    }

    /// The site of the replica. Takes no memory, like every function that only reads and can't fail.
    pub fn site(&self) -> SiteId
        ensures { result ≡ self.now.site }
    {
        self.site
    }

    /// The queues: 1 to 256 distinct names.
    pub fn list(&self) -> &QueueList
        ensures value { result.now ≡ self.now.names }
        ensures queues { AreQueues self.now.names }
    {
        &self.list
    }

    /// Everything that the site knows. Whatever frames it took, its own dots in it are those of the counts up to its last one, its
    /// own stamps are of times up to its last one, and it has live dots and totals only of the list's queues.
    pub fn state(&self) -> &Delta
        ensures value { result.now ≡ self.now.state }
        ensures kept { IsKept self.now }
        ensures queues { AreQueues self.now.names }
    {
        &self.state
    }

    /// The buffer: what the site has made and put into no frame yet. It is below the state, and its own stamps and queues are
    /// within the same limits.
    pub fn pending(&self) -> &Delta
        ensures value { result.now ≡ self.now.pending }
        ensures kept { IsKept self.now }
        ensures queues { AreQueues self.now.names }
    {
        &self.pending
    }

    /// The count, the time and the frame number that the site used last, each at most 2^40; 0 where it used none yet.
    pub fn last(&self) -> (u64, u64, u64)
        ensures count { result.0 ≡ self.now.last_count }
        ensures time { result.1 ≡ self.now.last_time }
        ensures frames { result.2 ≡ self.now.frames }
        ensures limits { (result.0 ≤ MOST_COUNT)
            × ((result.1 ≤ MOST_COUNT) × (result.2 ≤ MOST_COUNT)) }
    {
        (self.count, self.time, self.frames)
    }

    /// Whether the replica is that of a new site: it knows nothing, and has used no number.
    pub fn is_new(&self) -> bool
        ensures { IsTrue result ↔ IsNew self.now }
    {
        self.state.is_empty()
            && self.pending.is_empty()
            && self.count == 0
            && self.time == 0
            && self.frames == 0
    }

    /// The row of this member. `None` if it isn't in its queue.
    pub fn row(&self, member: &Member) -> Option<Row<'_>>
        ensures value { option_map row_view result
            ≡ row_of (dot_view_of self.now.state.members) member.now }
        ensures meaning { (s : SiteKnowledge) → StandsFor self.now s
            → option_map row_view result ≡ row_of (dot_view s.known) member.now }
    {
        self.state.members().row(member)
    }

    /// The members of the queue of this number with their rows, in the order of their interfaces' bytes; none if there is no queue
    /// of this number.
    pub fn rows(&self, queue: u16) -> Rows<'_>
        ensures value { result ≡ rows_of self.now queue }
        ensures meaning { (s : SiteKnowledge) → StandsFor self.now s
            → result ≡ rows_read (dot_view s.known) queue }
    {
        self.state.members().rows(queue)
    }

    /// The number of calls of the queue of this number that were completed, and that were abandoned, at all sites together: each at
    /// most 64,000,000,000, and 0 if there is no queue of this number.
    pub fn totals(&self, queue: u16) -> CallTotals
        ensures value { result ≡ sums_of self.now queue }
        ensures completed { (s : SiteKnowledge) → StandsFor self.now s
            → result.completed ≡ queue_total s.known queue Completed }
        ensures abandoned { (s : SiteKnowledge) → StandsFor self.now s
            → result.abandoned ≡ queue_total s.known queue Abandoned }
    {
        self.state.totals().sum(queue)
    }

    /// A replica that says the same, with the same last numbers, and without retired places. Fails only when out of memory.
    pub fn copy(&self) -> Result<Replica, Memory>
        ensures same { IfOk result (λ copy. IsSameSite self.now copy) }
        ensures none_retired { IfOk result (λ copy.
            (copy.state.members.retired ≡ 0) × (copy.pending.members.retired ≡ 0)) }
    {
        let list = self.list.copy()?;
        let state = self.state.copy()?;
        let Ok(pending) = self.pending.copy() else {
            state.discard();
            return Err(Memory);
        };
        Ok(Replica {
            site: self.site,
            list,
            state,
            pending,
            count: self.count,
            time: self.time,
            frames: self.frames,
            alloc: self.alloc,
        })
    }

    // Makes a change: joins it into the state and the buffer, with these as the last count and time. Its live dots are unknown to
    // the state, or live there with the same members and older fields; its queues are in the list; its own stamps are of times up
    // to `time`, and its own dots of counts up to `count`, which is the last count, or the next one if the change has that dot.
    // Errors: `MembersFull` and `Memory`, as of `join_both`. A refusal changes nothing of what the site says.
    pub(crate) fn make(&mut self, change: Delta, count: u64, time: u64) -> Result<(), Refusal>
        requires { IsChangeOf self.old count time change }
        ensures made { IsMade self.old change count time self.new result }
        ensures before { IsReplica self.old }
    {
        match join_both(&mut self.state, &mut self.pending, change) {
            Ok(()) => {
                self.count = count;
                self.time = time;
                Ok(())
            }
            Err(refusal) => Err(refusal),
        }
    }
}
