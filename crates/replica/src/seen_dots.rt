//! The dots that a command is for.
ghost use Rattle.std.specs.Prelude.{◌≡◌, ◌≢◌, ◌<◌, [], ◌++◌, IfOk, OnErr, OnOk, Some, None};
ghost use Rattle.std.specs.Prelude.{map as each};
ghost use Rattle.std.specs.FinMap as map;
ghost use Rattle.dots.specs.Values.{Dot};
ghost use Rattle.operations.specs.Rows.{dots_of};
ghost use Rattle.member_orset.specs.Members.{Holding, dot_view_of};
ghost use Rattle.replica.specs.DotLists.{dots_below};
ghost use Rattle.replica.specs.SiteViews.{dots_seen};

use dots::{Dot, Interface, Member, Memory};
use member_orset::MemberSet;
use std::alloc::Global;

// Appends the live dots of a member to others. Takes no memory if the member has none. Fails only when out
// of memory; then some may have been appended.
fn push_dots(list: &mut Vec<Dot>, members: &MemberSet, member: &Member) -> Result<(), Memory>
    ensures list { OnOk result
        (list.new.items ≡ list.old.items ++ dots_of (dot_view_of members.now) member.now) }
    ensures some { OnErr result (dots_of (dot_view_of members.now) member.now ≢ []) }
{
    for dot in members.dots(member) {
        list.push(dot)?;
    }
    Ok(())
}

// The live dots of an interface in the queues whose numbers are below `queues`, queue by queue. Fails only
// when out of memory, and never if there is no dot.
fn dots_by_queue(
    alloc: Global,
    members: &MemberSet,
    queues: u16,
    interface: &Interface,
) -> Result<Vec<Dot>, Memory>
    ensures list { IfOk result (λ list. list.items
        ≡ dots_below (dot_view_of members.now) interface.now queues) }
    ensures some { OnErr result
        (dots_below (dot_view_of members.now) interface.now queues ≢ []) }
{
    let mut list = Vec::new(alloc);
    let mut member = Member {
        queue: 0,
        interface: interface.copy(),
    };
    for queue in 0..queues {
        member.queue = queue;
        push_dots(&mut list, members, &member)?;
    }
    Ok(list)
}

// The live dots of an interface in all `queues` queues, in order. No live dot is of another queue. Fails
// only when out of memory, and never if there is no dot.
fn dots_of_interface(
    alloc: Global,
    members: &MemberSet,
    queues: u16,
    interface: &Interface,
) -> Result<Vec<Dot>, Memory>
    requires { (dot : Dot) (h : Holding) → map.get members.now.live dot ≡ Some h
        → h.0.queue < queues }
    ensures list { IfOk result (λ list. list.items
        ≡ each (λ p. p.0) (dots_seen (dot_view_of members.now) None interface.now)) }
    ensures some { OnErr result
        (dots_seen (dot_view_of members.now) None interface.now ≢ []) }
{
    let mut list = dots_by_queue(alloc, members, queues, interface)?;
    list.sort_unstable();
    Ok(list)
}

// The live dots of a member, in order. Fails only when out of memory, and never if there is no dot.
fn dots_of_member(
    alloc: Global,
    members: &MemberSet,
    queue: u16,
    interface: &Interface,
) -> Result<Vec<Dot>, Memory>
    ensures list { IfOk result (λ list. list.items
        ≡ each (λ p. p.0) (dots_seen (dot_view_of members.now) (Some queue) interface.now)) }
    ensures some { OnErr result
        (dots_seen (dot_view_of members.now) (Some queue) interface.now ≢ []) }
{
    let member = Member {
        queue,
        interface: interface.copy(),
    };
    let mut list = Vec::new(alloc);
    push_dots(&mut list, members, &member)?;
    Ok(list)
}

// The live dots of a member, or, without a queue, of the members of this interface in every queue, in order.
// `queues` is the number of queues; no live dot is of another queue. Fails only when out of memory, and
// never if there is no dot.
pub(crate) fn seen_dots(
    alloc: Global,
    members: &MemberSet,
    queues: u16,
    queue: Option<u16>,
    interface: &Interface,
) -> Result<Vec<Dot>, Memory>
    requires { (dot : Dot) (h : Holding) → map.get members.now.live dot ≡ Some h
        → h.0.queue < queues }
    ensures list { IfOk result (λ list. list.items
        ≡ each (λ p. p.0) (dots_seen (dot_view_of members.now) queue interface.now)) }
    ensures some { OnErr result
        (dots_seen (dot_view_of members.now) queue interface.now ≢ []) }
{
    match queue {
        Some(queue) => dots_of_member(alloc, members, queue, interface),
        None => dots_of_interface(alloc, members, queues, interface),
    }
}
