//! The report of a QueueStatus, block by block. A `push_` function fails only when out of memory, possibly after a part of
//! what it appends.
ghost use Rattle.std.specs.Prelude.{◌≡◌, ◌≤◌, ◌+◌, ◌++◌, ℕ, List, codes, decimal, length};
ghost use Rattle.std.specs.Prelude.{if◌then◌else◌, map as each, slice_get, IfOk, OnOk};
ghost use Rattle.std.specs.List.{concat};
ghost use Rattle.ami_text.specs.WrittenLines.{action_id_line, field};
ghost use Rattle.operations.specs.Views.{row_view, listed_row_view};
ghost use Rattle.replica.specs.Standing.{StandsFor};
ghost use Rattle.replica.specs.Steps.{SiteKnowledge};
ghost use Rattle.status_report.specs.Knowing.{status_in};
ghost use Rattle.status_report.specs.Status.{blocks_named, closing, end, event_lines};
ghost use Rattle.status_report.specs.Status.{is_member_wanted, is_queue_wanted, member_block};
ghost use Rattle.status_report.specs.Status.{member_blocks, opening};
ghost use Rattle.status_report.specs.Status.{queue_block, report_of, text_shown, status_text};

use crate::{Queues, StatusRequest};
use ami_text::{push_action_id_line, push_decimal, push_end, push_field, push_number};
use dots::{CallTotals, Interface, Memory, QueueName};
use replica::{Replica, Row};
use std::alloc::Global;

// The room in bytes that the front of a queue's member blocks has at first; most have fewer bytes.
const FRONT_ROOM: usize = 128;

// Appends bytes. Fails only when out of memory, and then appends none.
fn push(out: &mut Vec<u8>, bytes: &[u8]) -> Result<(), Memory>
    ensures { OnOk result (out.new.items ≡ out.old.items ++ bytes.now) }
{
    out.extend_from_slice(bytes)
}

// Appends the ActionID's line, where the request has one.
fn push_action_id(out: &mut Vec<u8>, request: &StatusRequest) -> Result<(), Memory>
    ensures { OnOk result (out.new.items ≡ out.old.items ++ action_id_line request.now.action_id) }
{
    push_action_id_line(out, request.action_id.as_slice())
}

// Appends the block that opens the report.
fn push_opening(out: &mut Vec<u8>, request: &StatusRequest) -> Result<(), Memory>
    ensures { OnOk result (out.new.items ≡ out.old.items ++ opening request.now.action_id) }
{
    push_field(out, "Response", b"Success")?;
    push_action_id(out, request)?;
    push_field(out, "EventList", b"start")?;
    push_field(out, "Message", b"Queue status will follow")?;
    push_end(out)
}

// Appends the lines that begin an event: its name, and the ActionID where the request has one.
fn push_event(out: &mut Vec<u8>, request: &StatusRequest, event: &[u8]) -> Result<(), Memory>
    ensures { OnOk result
        (out.new.items ≡ out.old.items ++ event_lines request.now.action_id event.now) }
{
    push_field(out, "Event", event)?;
    push_action_id(out, request)
}

// Appends the block that closes the report, with the number of blocks between.
fn push_closing(out: &mut Vec<u8>, request: &StatusRequest, events: u64) -> Result<(), Memory>
    ensures { OnOk result (out.new.items ≡ out.old.items ++ closing request.now.action_id events) }
{
    push_event(out, request, b"QueueStatusComplete")?;
    push_field(out, "EventList", b"Complete")?;
    push_number(out, "ListItems", events)?;
    push_end(out)
}

// A text of a member as it is shown: the interface where it is empty.
fn shown<'a>(text: &'a [u8], interface: &'a Interface) -> &'a [u8]
    ensures { result.now ≡ text_shown text.now interface.now }
{
    if text.is_empty() {
        interface.as_bytes()
    } else {
        text
    }
}

// Whether the request selects a member: it has no filter, or that is the member's interface or its name as it is shown.
fn is_member_wanted(request: &StatusRequest, interface: &Interface, row: &Row<'_>) -> bool
    ensures { result ≡ is_member_wanted request.now.member (interface.now, row_view row.now) }
{
    match &request.member {
        None => true,
        Some(wanted) => {
            wanted.as_bytes() == interface.as_bytes()
                || wanted.as_bytes() == shown(row.name, interface)
        }
    }
}

// What the block of each member of a queue begins with, up to the member's name. Fails only when out of memory.
fn member_front(alloc: Global, request: &StatusRequest, name: &QueueName) -> Result<Vec<u8>, Memory>
    ensures { IfOk result (λ front. front.items
        ≡ event_lines request.now.action_id (codes "QueueMember")
        ++ (field (codes "Queue") name.now ++ codes "Name: ")) }
{
    let mut front = Vec::with_capacity(alloc, FRONT_ROOM)?;
    push_event(&mut front, request, b"QueueMember")?;
    push_field(&mut front, "Queue", name.as_bytes())?;
    push(&mut front, b"Name: ")?;
    Ok(front)
}

// The end of the line before, the line that says whether a member is paused, and the name of the next.
fn paused_line(paused: bool) -> &'static [u8]
    ensures { result.now ≡ codes "\r\n"
        ++ (field (codes "Paused") (decimal (if paused then 1 else 0)) ++ codes "PausedReason: ") }
{
    if paused {
        b"\r\nPaused: 1\r\nPausedReason: "
    } else {
        b"\r\nPaused: 0\r\nPausedReason: "
    }
}

// The end of the line before, the line that says whether a member is rung while its device is in use, and the block's end.
fn ring_line(ring: bool) -> &'static [u8]
    ensures { result.now
        ≡ codes "\r\n" ++ (field (codes "RingInUse") (decimal (if ring then 1 else 0)) ++ end) }
{
    if ring {
        b"\r\nRingInUse: 1\r\n\r\n"
    } else {
        b"\r\nRingInUse: 0\r\n\r\n"
    }
}

// Appends the block of a member, which begins with this front (`member_front`). The bytes between two values are written
// at once.
fn push_member(
    out: &mut Vec<u8>,
    front: &[u8],
    interface: &Interface,
    row: &Row<'_>,
) -> Result<(), Memory>
    ensures { OnOk result ((action_id name : List ℕ)
        → front.now ≡ event_lines action_id (codes "QueueMember")
        ++ (field (codes "Queue") name ++ codes "Name: ")
        → out.new.items
        ≡ out.old.items ++ member_block action_id name (interface.now, row_view row.now)) }
{
    push(out, front)?;
    push(out, shown(row.name, interface))?;
    push(out, b"\r\nLocation: ")?;
    push(out, interface.as_bytes())?;
    push(out, b"\r\nStateInterface: ")?;
    push(out, shown(row.state, interface))?;
    push(out, b"\r\nMembership: dynamic\r\nPenalty: ")?;
    push_decimal(out, u64::from(row.penalty))?;
    push(out, paused_line(row.paused))?;
    push(out, row.reason)?;
    push(out, ring_line(row.ring))
}

// Appends the blocks of the members of a queue that the request selects, and returns their number.
fn push_members(
    out: &mut Vec<u8>,
    request: &StatusRequest,
    name: &QueueName,
    rows: &[(&Interface, Row<'_>)],
) -> Result<u64, Memory>
    ensures text { OnOk result (out.new.items ≡ out.old.items
        ++ concat (member_blocks request.now name.now (each listed_row_view rows.now))) }
    ensures count { IfOk result (λ members.
        members ≡ length (member_blocks request.now name.now (each listed_row_view rows.now))) }
    ensures few { IfOk result (λ members. length out.old.items + members ≤ length out.new.items) }
{
    if rows.is_empty() {
        return Ok(0);
    }
    let front = member_front(*out.allocator(), request, name)?;
    let mut members = 0;
    for (interface, row) in rows {
        if is_member_wanted(request, interface, row) {
            push_member(out, &front, interface, row)?;
            members += 1;
        }
    }
    Ok(members)
}

// Whether the request selects the queue of this name: it has no filter, or that is the name.
fn is_queue_wanted(request: &StatusRequest, name: &QueueName) -> bool
    ensures { result ≡ is_queue_wanted request.now.queue name.now }
{
    match &request.queue {
        None => true,
        Some(wanted) => wanted.as_bytes() == name.as_bytes(),
    }
}

// Appends the block of a queue, with the numbers of its completed and its abandoned calls.
fn push_totals(
    out: &mut Vec<u8>,
    request: &StatusRequest,
    name: &QueueName,
    totals: CallTotals,
) -> Result<(), Memory>
    ensures { OnOk result
        (out.new.items ≡ out.old.items ++ queue_block request.now.action_id name.now totals) }
{
    push_event(out, request, b"QueueParams")?;
    push_field(out, "Queue", name.as_bytes())?;
    push_number(out, "Completed", totals.completed)?;
    push_number(out, "Abandoned", totals.abandoned)?;
    push_end(out)
}

// Appends the blocks of the queue of this number, and returns how many they are: none if there is no such queue or the
// request doesn't select it.
fn push_queue<Q: Queues>(
    alloc: Global,
    out: &mut Vec<u8>,
    queues: &Q,
    request: &StatusRequest,
    number: u16,
) -> Result<u64, Memory>
    ensures text { OnOk result (out.new.items ≡ out.old.items
        ++ concat (blocks_named request.now (Q.totals queues.now) (Q.rows queues.now) number
        (slice_get (Q.names queues.now) number))) }
    ensures count { IfOk result (λ events. events
        ≡ length (blocks_named request.now (Q.totals queues.now) (Q.rows queues.now) number
        (slice_get (Q.names queues.now) number))) }
    ensures few { IfOk result (λ events. length out.old.items + events ≤ length out.new.items) }
{
    let Some(name) = queues.list().name(number) else {
        return Ok(0);
    };
    if !is_queue_wanted(request, name) {
        return Ok(0);
    }
    push_totals(out, request, name, queues.totals(number))?;
    let rows = queues.rows(alloc, number)?;
    let members = push_members(out, request, name, &rows)?;
    Ok(1 + members)
}

/// The report of what queues show (Asterisk's QueueStatus; which fields there are and their order are this project's
/// own):
///
/// 1. an opening block,
/// 2. for each queue of the list that the request selects, a block of its totals and a block for each member, in the
///    order of the interfaces' bytes,
/// 3. a closing block with the number of blocks between.
///
/// Fails only when out of memory.
pub fn write_report<Q: Queues>(
    alloc: Global,
    queues: &Q,
    request: &StatusRequest,
) -> Result<Vec<u8>, Memory>
    ensures { IfOk result (λ out. out.items
        ≡ status_text (Q.names queues.now) (Q.totals queues.now) (Q.rows queues.now) request.now) }
{
    let mut out = Vec::new(alloc);
    push_opening(&mut out, request)?;
    let mut events = 0;
    for number in 0..queues.list().len() {
        events += push_queue(alloc, &mut out, queues, request, number)?;
    }
    push_closing(&mut out, request, events)?;
    Ok(out)
}

/// The report of what the replica's queues show, as `write_report` writes it. If the replica stands for what a site
/// knows, it is the status text of that knowledge. Fails only when out of memory.
pub fn report(alloc: Global, replica: &Replica, request: &StatusRequest) -> Result<Vec<u8>, Memory>
    ensures value { IfOk result (λ out. out.items ≡ report_of replica.now request.now) }
    ensures meaning { IfOk result (λ out. (s : SiteKnowledge) → StandsFor replica.now s
        → out.items ≡ status_in s.known replica.now.names request.now) }
{
    write_report(alloc, replica, request)
}
