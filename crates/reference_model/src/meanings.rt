// The meanings of changes.
ghost use Rattle.std.specs.Prelude.{◌≡◌, ◌||◌, ℕ, [], map as each, IfOk};
ghost use Rattle.operations.specs.Operations as defined;
ghost use Rattle.replica.specs.Changes.{SetField, add_at, count_at, is_full, is_too_long, meaning};
ghost use Rattle.replica.specs.Changes.{meaning_of_setting, remove_of, where_absent, where_present};
ghost use Rattle.replica.specs.Changes.{within_limits, write_at};
ghost use Rattle.replica.specs.SiteViews.{dots_seen, site_view};
ghost use Rattle.reference_model.specs.Plain.{knowledge_of, setting_of};
ghost use Rattle.reference_model.specs.Sites.{Touches, buffer_view, change_meant, known_view};
ghost use Rattle.reference_model.specs.Sites.{meaning_of};

use crate::dot_sets::dots_and_runs;
use crate::members_seen::dots_seen;
use crate::own_numbers::{last_count, last_time, older_dots};
use crate::plain_dot::PlainDot;
use crate::queue_totals::site_total;
use crate::replaced::last_replaced;
use crate::{Calls, Change, Meaning, Operation, Setting, SiteKnowledge, Total};
use dots::{
    Dot, Interface, Label, MOST_LIVE, MOST_RUNS, Member, Memory, Pause, Penalty, QueueName, SiteId,
    Stamp, Text80,
};
use replica::laws::a_site_view_foresees_one_operation_more;
use replica::{QueueList, Refusal};
use std::alloc::Global;

// Whether too many dots would be visible, or the known ones would have too many runs, with one operation more, which asserts
// the dots `asserted` and names the dots `named`.
fn is_full(
    alloc: Global,
    operations: &[Operation],
    asserted: &[PlainDot],
    named: &[Dot],
) -> Result<bool, Memory>
    ensures { IfOk result
        (λ full. (site : ℕ) (o : defined.Operation) → Touches o asserted.now named.now
        → full ≡ is_full (site_view site (knowledge_of operations.now)) o) }
{
    a_site_view_foresees_one_operation_more();
    let (dots, runs) = dots_and_runs(alloc, operations, asserted, named)?;
    Ok(dots > MOST_LIVE || runs > MOST_RUNS)
}

// Whether the dots that an operation asserts and names, which are these, have too many runs by themselves.
fn is_too_long(alloc: Global, asserted: &[PlainDot], named: &[Dot]) -> Result<bool, Memory>
    ensures { IfOk result
        (λ long. (o : defined.Operation) → Touches o asserted.now named.now
        → long ≡ is_too_long o) }
{
    let (_, runs) = dots_and_runs(alloc, &[], asserted, named)?;
    Ok(runs > MOST_RUNS)
}

// Whether an operation that asserts and names these dots is past the limits of the site, of its buffer or of one operation.
fn is_past_limits(
    alloc: Global,
    old: &SiteKnowledge,
    asserted: &[PlainDot],
    named: &[Dot],
) -> Result<bool, Memory>
    ensures { IfOk result
        (λ past. (site : ℕ) (o : defined.Operation) → Touches o asserted.now named.now
        → past ≡ (is_full (known_view site old.now) o
        || (is_full (buffer_view site old.now) o || is_too_long o))) }
{
    let known = is_full(alloc, &old.known, asserted, named)?;
    let buffer = is_full(alloc, &old.buffer, asserted, named)?;
    let long = is_too_long(alloc, asserted, named)?;
    Ok(known || (buffer || long))
}

// The add of a member, with the site's next count and next time; or its refusal where it is past a limit.
fn add_at(
    alloc: Global,
    site: SiteId,
    old: &SiteKnowledge,
    member: Member,
    penalty: Penalty,
    paused: bool,
    label: &Label,
) -> Result<Meaning, Memory>
    ensures { IfOk result
        (λ m. meaning_of m ≡ within_limits (known_view site old.now) (buffer_view site old.now)
        (add_at site (known_view site old.now) member penalty paused label.now)) }
{
    let count = last_count(&old.known, site) + 1;
    let time = last_time(&old.known, site) + 1;
    let asserted = [PlainDot::new(site, count)];
    let older = older_dots(alloc, &old.known, &asserted)?;
    if is_past_limits(alloc, old, &asserted, &older)? {
        return Ok(Meaning::Refused(Refusal::MembersFull));
    }
    let Some(dot) = Dot::new(site, count) else {
        return Ok(Meaning::Refused(Refusal::Exhausted));
    };
    let Some(stamp) = Stamp::new(time, site) else {
        return Ok(Meaning::Refused(Refusal::Exhausted));
    };
    Ok(Meaning::Makes(Operation::Add {
        dot,
        member,
        stamp,
        penalty,
        pause: Pause::new(paused, Text80::empty()),
        label: label.copy(),
        older,
    }))
}

// The dots of a list without their members, as plain ones.
fn plain_dots(alloc: Global, dots: &[(Dot, Member)]) -> Result<Vec<PlainDot>, Memory>
    ensures { IfOk result (λ plain. plain.items ≡ each (λ d. d.0) dots.now) }
{
    dots.iter()
        .map(|(dot, _)| PlainDot::of(*dot))
        .collect(alloc)
}

// The dots of a list without their members.
fn dots_alone(alloc: Global, dots: &[(Dot, Member)]) -> Result<Vec<Dot>, Memory>
    ensures { IfOk result (λ alone. alone.items ≡ each (λ d. d.0) dots.now) }
{
    dots.iter().map(|(dot, _)| *dot).collect(alloc)
}

// The write of one field on dots, with a time past all that the site has used and all that it replaces; or its refusal where
// it is past a limit.
fn write_at(
    alloc: Global,
    site: SiteId,
    old: &SiteKnowledge,
    setting: &Setting,
    dots: Vec<(Dot, Member)>,
) -> Result<Meaning, Memory>
    ensures { IfOk result
        (λ m. meaning_of m ≡ within_limits (known_view site old.now) (buffer_view site old.now)
        (write_at site (known_view site old.now) (setting_of setting.now) dots.items)) }
{
    let own = last_time(&old.known, site);
    let time = own.max(last_replaced(&old.known, setting, &dots)) + 1;
    let asserted = plain_dots(alloc, &dots)?;
    let older = older_dots(alloc, &old.known, &asserted)?;
    if is_past_limits(alloc, old, &asserted, &older)? {
        return Ok(Meaning::Refused(Refusal::MembersFull));
    }
    let Some(stamp) = Stamp::new(time, site) else {
        return Ok(Meaning::Refused(Refusal::Exhausted));
    };
    Ok(Meaning::Makes(Operation::Write {
        dots,
        setting: setting.copy(),
        stamp,
        older,
    }))
}

// The remove of dots; or its refusal where it is past a limit.
fn remove_of(alloc: Global, old: &SiteKnowledge, dots: &[(Dot, Member)]) -> Result<Meaning, Memory>
    ensures { IfOk result (λ m. (site : ℕ)
        → meaning_of m
        ≡ within_limits (known_view site old.now) (buffer_view site old.now) (remove_of dots.now)) }
{
    let named = dots_alone(alloc, dots)?;
    if is_past_limits(alloc, old, &[], &named)? {
        return Ok(Meaning::Refused(Refusal::MembersFull));
    }
    Ok(Meaning::Makes(Operation::Remove { dots: named }))
}

// The count of one call more than the site has counted in the queue; or its refusal where it is past a limit.
fn count_at(
    alloc: Global,
    site: SiteId,
    old: &SiteKnowledge,
    queue: u16,
    calls: Calls,
) -> Result<Meaning, Memory>
    ensures { IfOk result
        (λ m. meaning_of m ≡ within_limits (known_view site old.now) (buffer_view site old.now)
        (count_at site (known_view site old.now) queue calls)) }
{
    let number = site_total(&old.known, site.number(), queue, calls) + 1;
    if is_past_limits(alloc, old, &[], &[])? {
        return Ok(Meaning::Refused(Refusal::MembersFull));
    }
    match Total::new(number as u32) {
        Some(total) => Ok(Meaning::Makes(Operation::Count {
            site,
            queue,
            calls,
            total,
        })),
        None => Ok(Meaning::Refused(Refusal::TotalFull)),
    }
}

// The add of a member; or its refusal where the member is there already, or a limit is passed.
fn add_member(
    alloc: Global,
    site: SiteId,
    old: &SiteKnowledge,
    member: Member,
    penalty: Penalty,
    paused: bool,
    label: &Label,
) -> Result<Meaning, Memory>
    ensures { IfOk result
        (λ m. meaning_of m
        ≡ where_absent
        (dots_seen (known_view site old.now).dots (Some member.queue) member.interface)
        (within_limits (known_view site old.now) (buffer_view site old.now)
        (add_at site (known_view site old.now) member penalty paused label.now))) }
{
    let dots = dots_seen(alloc, &old.known, Some(member.queue), &member.interface)?;
    if dots.is_empty() {
        add_at(alloc, site, old, member, penalty, paused, label)
    } else {
        Ok(Meaning::Refused(Refusal::AlreadyThere))
    }
}

// The remove of an interface from the queue of this number; or its refusal where it isn't there, or a limit is passed.
fn remove_member(
    alloc: Global,
    old: &SiteKnowledge,
    queue: u16,
    interface: &Interface,
) -> Result<Meaning, Memory>
    ensures { IfOk result
        (λ m. (site : ℕ)
        → meaning_of m
        ≡ where_present (dots_seen (known_view site old.now).dots (Some queue) interface.now)
        (within_limits (known_view site old.now) (buffer_view site old.now)
        (remove_of (dots_seen (known_view site old.now).dots (Some queue) interface.now)))) }
{
    let dots = dots_seen(alloc, &old.known, Some(queue), interface)?;
    if dots.is_empty() {
        Ok(Meaning::Refused(Refusal::NotThere))
    } else {
        remove_of(alloc, old, &dots)
    }
}

// The write of a field of an interface in the queue of this number, or, without one, in every queue that it is in; or its
// refusal where it is in none, or a limit is passed.
fn write_field(
    alloc: Global,
    site: SiteId,
    old: &SiteKnowledge,
    queue: Option<u16>,
    interface: &Interface,
    setting: &Setting,
) -> Result<Meaning, Memory>
    ensures { IfOk result
        (λ m. meaning_of m
        ≡ meaning_of_setting site (known_view site old.now) (buffer_view site old.now)
        (setting_of setting.now)
        (dots_seen (known_view site old.now).dots queue interface.now)) }
{
    let dots = dots_seen(alloc, &old.known, queue, interface)?;
    if dots.is_empty() {
        Ok(Meaning::Refused(Refusal::NotThere))
    } else {
        write_at(alloc, site, old, setting, dots)
    }
}

// The write of a field of an interface in the queue of this name, or, without one, in every queue that it is in; or its refusal
// where there is no such queue, it is in none, or a limit is passed.
fn set_field(
    alloc: Global,
    site: SiteId,
    list: &QueueList,
    old: &SiteKnowledge,
    queue: &Option<QueueName>,
    interface: &Interface,
    setting: &Setting,
) -> Result<Meaning, Memory>
    ensures { IfOk result
        (λ m. meaning_of m
        ≡ meaning site list.now (known_view site old.now) (buffer_view site old.now)
        (SetField queue.now interface.now (setting_of setting.now))) }
{
    let Some(queue) = queue else {
        return write_field(alloc, site, old, None, interface, setting);
    };
    match list.position(queue) {
        Some(queue) => write_field(alloc, site, old, Some(queue), interface, setting),
        None => Ok(Meaning::Refused(Refusal::NoSuchQueue)),
    }
}

/// What a change means at the site of this number, which has these queues: a refusal, or an operation to make. Where several
/// refusals apply, returns the first of `Refusal`, but never `Memory`: to run out of memory is the only error.
pub fn meaning_at(
    alloc: Global,
    site: SiteId,
    list: &QueueList,
    old: &SiteKnowledge,
    change: &Change,
) -> Result<Meaning, Memory>
    ensures { IfOk result
        (λ m. meaning_of m
        ≡ meaning site list.now (known_view site old.now) (buffer_view site old.now)
        (change_meant change.now)) }
{
    match change {
        Change::AddMember {
            queue,
            interface,
            penalty,
            paused,
            label,
        } => {
            let Some(queue) = list.position(queue) else {
                return Ok(Meaning::Refused(Refusal::NoSuchQueue));
            };
            let member = Member {
                queue,
                interface: interface.copy(),
            };
            add_member(alloc, site, old, member, *penalty, *paused, label)
        }
        Change::RemoveMember { queue, interface } => {
            let Some(queue) = list.position(queue) else {
                return Ok(Meaning::Refused(Refusal::NoSuchQueue));
            };
            remove_member(alloc, old, queue, interface)
        }
        Change::SetField {
            queue,
            interface,
            setting,
        } => set_field(alloc, site, list, old, queue, interface, setting),
        Change::CountCall { queue, calls } => {
            let Some(queue) = list.position(queue) else {
                return Ok(Meaning::Refused(Refusal::NoSuchQueue));
            };
            count_at(alloc, site, old, queue, *calls)
        }
    }
}
