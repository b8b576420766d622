//! Plans commands: the operation of each, or its refusal.
ghost use Rattle.std.specs.Prelude.{◌≡◌, [], OnErr, max};
ghost use Rattle.site_totals.specs.Raising.{number_of};
ghost use Rattle.replica.specs.Changes.{AddMember, CountCall, RemoveMember, SetField};
ghost use Rattle.replica.specs.Changes.{change_of, meaning_of_setting};
ghost use Rattle.replica.specs.Commands.{IsDone};
ghost use Rattle.replica.specs.Planning.{IsPlanned};
ghost use Rattle.replica.specs.SetFields.{fields_added};
ghost use Rattle.replica.specs.Site.{IsUnchanged, meaning_at, view_of};
ghost use Rattle.replica.specs.Settings.{setting_of};
ghost use Rattle.replica.specs.SiteViews.{dots_seen};
ghost use Rattle.replica.specs.Standing.{IsMeant, StandsFor};
ghost use Rattle.replica.specs.Steps.{Do, SiteKnowledge, step};

use crate::changes::{added, counted, removed, written};
use crate::exhausted::refusal_of_runs;
use crate::planned::Planned;
use crate::seen_dots::seen_dots;
use crate::setting::{Setting, latest_replaced};
use crate::{Command, Refusal, Replica};
use dots::{
    CallTotals, Calls, Dot, Interface, Label, MOST_CALLS, Member, Pause, Penalty, QueueName, Stamp,
    Text80,
};
use lww_registers::{Fields, Register};
use std::cmp::max;

// The number of these calls.
fn number_of(calls: Calls, totals: CallTotals) -> u64
    ensures { result ≡ number_of calls totals }
{
    match calls {
        Calls::Completed => totals.completed,
        Calls::Abandoned => totals.abandoned,
    }
}

// The later of two times.
fn later(time: u64, other: u64) -> u64
    ensures { result ≡ max time other }
{
    max(time, other)
}

// The fields of an add under its stamp: all but ring.
fn fields_added(stamp: Stamp, penalty: Penalty, paused: bool, label: Label) -> Fields
    ensures { result ≡ fields_added stamp penalty (record { paused = paused; reason = [] }) label }
{
    Fields {
        penalty: Register::of(stamp, penalty),
        pause: Register::of(stamp, Pause::new(paused, Text80::empty())),
        label: Register::of(stamp, label),
        ring: Register::none(),
    }
}

impl Replica {
    /// Does a command, or refuses it and changes nothing of what the site says.
    ///
    /// An add makes a new dot of the interface in the queue, with its fields and an empty reason. A pause, a penalty and ring in
    /// use are written on all dots of the interface that the site sees in the queue, or, without a queue, in every one; also if
    /// they repeat the present value. An add and these three also name the dead dots of the sites of their dots with lesser counts.
    /// A remove names all dots of the interface that the site sees in the queue. A count adds one call of the queue (RR-8083 for
    /// the dots, RR-7506 for the registers and counters). The operation is joined into the state and the buffer, and live dots keep
    /// their ids.
    ///
    /// Errors, in order:
    ///
    /// 1. `NoSuchQueue`: the queue isn't in the list.
    /// 2. `AlreadyThere`: the member of an add is there.
    /// 3. `NotThere`: the site sees no dot for a remove, a pause, a penalty or ring in use.
    /// 4. `MembersFull`: the state or the buffer would have more than 16,384 live dots or 65,536 runs, or the operation has more
    ///    than 65,536 runs by itself.
    /// 5. `Exhausted`: an add's next count, or the next time of an add, a pause, a penalty or ring in use, is past 2^40. The next
    ///    time of an add is one past the site's last; that of the others is also past all that they replace.
    /// 6. `TotalFull`: the site's own total of these calls in the queue is 1,000,000,000.
    /// 7. `Memory`: it may replace 4, 5 and a success, and no other refusal.
    pub fn command(&mut self, command: &Command) -> Result<(), Refusal>
        ensures meaning { IsDone self.old (meaning_at self.old (change_of command.now))
            self.new result }
        ensures unchanged { OnErr result (IsUnchanged self.old self.new) }
        ensures site { self.new.site ≡ self.old.site }
        ensures names { self.new.names ≡ self.old.names }

        // If the replica stands for what a site knows, the result is the command's meaning there.
        ensures knowledge { (s : SiteKnowledge) → StandsFor self.old s
            → IsMeant self.old self.new result
            (step self.old.site self.old.names s (Do (change_of command.now))) }
    {
        match self.plan(command) {
            Ok(planned) => self.make(planned.change, planned.count, planned.time),
            Err(refusal) => Err(refusal),
        }
    }

    // The plan of a command. Errors: those of `command`; but while numbers are left, `make` and not the plan finds that the state
    // or the buffer would be too full.
    fn plan(&self, command: &Command) -> Result<Planned, Refusal>
        ensures { IsPlanned self.now (meaning_at self.now (change_of command.now)) result }
    {
        match command {
            Command::Add {
                queue,
                interface,
                penalty,
                paused,
                label,
            } => self.plan_add(queue, interface.copy(), *penalty, *paused, label.copy()),
            Command::Remove { queue, interface } => self.plan_remove(queue, interface),
            Command::Pause {
                queue,
                interface,
                pause,
            } => self.plan_setting(queue, interface, Setting::Pause(pause.copy())),
            Command::Penalty {
                queue,
                interface,
                penalty,
            } => self.plan_setting(queue, interface, Setting::Penalty(*penalty)),
            Command::RingInUse {
                queue,
                interface,
                ring,
            } => self.plan_setting(queue, interface, Setting::Ring(*ring)),
            Command::Completed { queue } => self.plan_count(queue, Calls::Completed),
            Command::Abandoned { queue } => self.plan_count(queue, Calls::Abandoned),
        }
    }

    // The plan of one more of these calls of a queue. Errors, in order: 1 `NoSuchQueue`; 2 `TotalFull`; 3 `Memory`.
    fn plan_count(&self, queue: &QueueName, calls: Calls) -> Result<Planned, Refusal>
        ensures { IsPlanned self.now (meaning_at self.now (CountCall queue.now calls)) result }
    {
        let Some(number) = self.list.position(queue) else {
            return Err(Refusal::NoSuchQueue);
        };
        let total = number_of(calls, self.state.totals().of(self.site, number));
        if total >= MOST_CALLS {
            return Err(Refusal::TotalFull);
        }
        match counted(self.alloc, self.site, number, calls, total + 1) {
            Ok(change) => Ok(Planned {
                change,
                count: self.count,
                time: self.time,
            }),
            Err(_) => Err(Refusal::Memory),
        }
    }

    // The plan of an add of an interface to a queue. Errors, in order: 1 `NoSuchQueue`; 2 `AlreadyThere`; 3 the result of
    // `refuse_add`, if no count or no time is left; 4 `MembersFull`, if the operation has too many runs by itself; 5 `Memory`.
    fn plan_add(
        &self,
        queue: &QueueName,
        interface: Interface,
        penalty: Penalty,
        paused: bool,
        label: Label,
    ) -> Result<Planned, Refusal>
        ensures { IsPlanned self.now
            (meaning_at self.now (AddMember queue.now interface penalty paused label)) result }
    {
        let Some(number) = self.list.position(queue) else {
            return Err(Refusal::NoSuchQueue);
        };
        let member = Member {
            queue: number,
            interface,
        };
        if self.state.members().contains(&member) {
            return Err(Refusal::AlreadyThere);
        }
        let Some(dot) = Dot::new(self.site, self.count + 1) else {
            return Err(self.refuse_add());
        };
        let Some(stamp) = Stamp::new(self.time + 1, self.site) else {
            return Err(self.refuse_add());
        };
        let fields = fields_added(stamp, penalty, paused, label);
        match added(self.alloc, self.state.members(), dot, member, fields) {
            Ok(change) => Ok(Planned {
                change,
                count: self.count + 1,
                time: self.time + 1,
            }),
            Err(fault) => Err(refusal_of_runs(fault)),
        }
    }

    // The plan of a remove of an interface from a queue. Errors, in order: 1 `NoSuchQueue`; 2 `NotThere`; 3 `Memory`.
    fn plan_remove(&self, queue: &QueueName, interface: &Interface) -> Result<Planned, Refusal>
        ensures { IsPlanned self.now
            (meaning_at self.now (RemoveMember queue.now interface.now)) result }
    {
        let Some(number) = self.list.position(queue) else {
            return Err(Refusal::NoSuchQueue);
        };
        let members = self.state.members();
        let Ok(dots) = seen_dots(
            self.alloc,
            members,
            self.list.len(),
            Some(number),
            interface,
        ) else {
            return Err(Refusal::Memory);
        };
        if dots.is_empty() {
            return Err(Refusal::NotThere);
        }
        match removed(self.alloc, &dots) {
            Ok(change) => Ok(Planned {
                change,
                count: self.count,
                time: self.time,
            }),
            Err(_) => Err(Refusal::Memory),
        }
    }

    // The plan of a setting of one field in a queue, or, without one, in every queue. Errors, in order: 1 `NoSuchQueue`; 2 those
    // of `plan_write`.
    fn plan_setting(
        &self,
        queue: &Option<QueueName>,
        interface: &Interface,
        setting: Setting,
    ) -> Result<Planned, Refusal>
        ensures { IsPlanned self.now
            (meaning_at self.now (SetField queue.now interface.now (setting_of setting))) result }
    {
        let Some(queue) = queue else {
            return self.plan_write(None, interface, setting);
        };
        match self.list.position(queue) {
            Some(number) => self.plan_write(Some(number), interface, setting),
            None => Err(Refusal::NoSuchQueue),
        }
    }

    // The plan of a setting of one field on the interface's dots that the site sees, in the queue of this number or in every
    // queue. Errors, in order: 1 `NotThere`, if it sees none; 2 the result of `refuse_write`, if no time is left; 3 `MembersFull`,
    // if the operation has too many runs by itself. `Memory` may replace 2 and 3.
    fn plan_write(
        &self,
        queue: Option<u16>,
        interface: &Interface,
        setting: Setting,
    ) -> Result<Planned, Refusal>
        ensures { IsPlanned self.now (meaning_of_setting self.now.site
            (view_of self.now self.now.state) (view_of self.now self.now.pending)
            (setting_of setting)
            (dots_seen (view_of self.now self.now.state).dots queue interface.now)) result }
    {
        let members = self.state.members();
        let Ok(dots) = seen_dots(self.alloc, members, self.list.len(), queue, interface) else {
            return Err(Refusal::Memory);
        };
        if dots.is_empty() {
            return Err(Refusal::NotThere);
        }
        let time = later(self.time, latest_replaced(members, &dots, &setting)) + 1;
        let Some(stamp) = Stamp::new(time, self.site) else {
            return Err(self.refuse_write(&dots));
        };
        match written(self.alloc, members, &dots, &setting.fields(stamp)) {
            Ok(change) => Ok(Planned {
                change,
                count: self.count,
                time,
            }),
            Err(fault) => Err(refusal_of_runs(fault)),
        }
    }
}
