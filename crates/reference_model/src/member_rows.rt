ghost use Rattle.std.specs.Prelude.{◌≡◌, ◌||◌, ℕ, List, map as each, option_map, IfOk};
ghost use Rattle.std.specs.List.{list_any, filter_map};
ghost use Rattle.std.specs.List.Sorted.{IsStrictlySortedBy};
ghost use Rattle.std.specs.Option.{option_and_then};
ghost use Rattle.std.specs.Ordering.{eq_by_cmp};
ghost use Rattle.operations.specs.Knowledge.{member_of};
ghost use Rattle.dots.specs.Orders.{text_cmp};
ghost use Rattle.operations.specs.Rows.{dot_view, interface_in, interfaces_of, row_of, rows_of};
ghost use Rattle.general_lemmas.specs.SetItems.{in_order};
ghost use Rattle.operations.specs.Views.{row_view, listed_row_view};
ghost use Rattle.reference_model.specs.Plain.{knowledge_of};

use crate::Operation;
use crate::dots_seen::{dots_of_member, member_of, visible_dots};
use crate::fields_seen::fields_over;
use dots::{Dot, Interface, Member, Memory};
use replica::Row;
use std::alloc::Global;
use std::collections::BTreeSet;

/// The row of a member. Each of its fields is the setting of the greatest stamp over the member's visible dots
/// (RR-7506's last-writer register). `None` if none of its dots is visible. Fails only when out of memory.
pub fn row<'a>(
    alloc: Global,
    operations: &'a [Operation],
    member: &Member,
) -> Result<Option<Row<'a>>, Memory>
    ensures { IfOk result
        (λ row. option_map row_view row
        ≡ row_of (dot_view (knowledge_of operations.now)) member.now) }
{
    let dots = dots_of_member(alloc, operations, member)?;
    if dots.is_empty() {
        return Ok(None);
    }
    Ok(Some(fields_over(operations, &dots).row()))
}

/// The members of the queue of this number with their rows, in the order of their interfaces' bytes. Fails only when
/// out of memory.
pub fn rows(
    alloc: Global,
    operations: &[Operation],
    queue: u16,
) -> Result<Vec<(&Interface, Row<'_>)>, Memory>
    ensures { IfOk result
        (λ listed. each listed_row_view listed.items
        ≡ rows_of (dot_view (knowledge_of operations.now)) queue) }
{
    let interfaces = interfaces_of(alloc, operations, queue)?;
    let mut listed = Vec::new(alloc);
    for interface in &interfaces {
        let member = Member {
            queue,
            interface: interface.copy(),
        };
        if let Some(row) = row(alloc, operations, &member)? {
            listed.push((*interface, row))?;
        }
    }
    Ok(listed)
}

// The interfaces of the members that a queue has a visible dot of, in the order of their bytes.
fn interfaces_of(
    alloc: Global,
    operations: &[Operation],
    queue: u16,
) -> Result<Vec<&Interface>, Memory>
    ensures { IfOk result
        (λ found. each (λ i. i.now) found.items
        ≡ in_order (interfaces_of (dot_view (knowledge_of operations.now)) queue)) }
{
    let dots = visible_dots(alloc, operations)?;
    let found = interfaces_at(alloc, operations, &dots, queue)?;
    in_vec(alloc, &found)
}

// The interfaces of a set, in order.
fn in_vec<'a>(alloc: Global, found: &BTreeSet<&'a Interface>) -> Result<Vec<&'a Interface>, Memory>
    ensures value { IfOk result (λ listed. listed.items ≡ found.now.keys) }
    ensures ordered { IsStrictlySortedBy (λ a b. text_cmp a.now b.now) found.now.keys }
{
    found.iter().copied().collect(alloc)
}

// The interfaces of the members in a queue that one of these dots is of.
fn interfaces_at<'a>(
    alloc: Global,
    operations: &'a [Operation],
    dots: &[Dot],
    queue: u16,
) -> Result<BTreeSet<&'a Interface>, Memory>
    ensures { IfOk result
        (λ found. (q : List ℕ) → list_any (eq_by_cmp text_cmp q) (each (λ i. i.now) found.keys)
        ≡ list_any (eq_by_cmp text_cmp q)
        (filter_map
        (λ dot. option_and_then (interface_in queue)
        (member_of (knowledge_of operations.now) dot)) dots.now)) }
{
    let mut found = BTreeSet::new(alloc);
    for dot in dots {
        if let Some(interface) = interface_of(operations, *dot, queue) {
            found.insert(interface)?;
        }
    }
    Ok(found)
}

// The interface of the member of `dot`, where that is a member of the queue.
fn interface_of(operations: &[Operation], dot: Dot, queue: u16) -> Option<&Interface>
    ensures { option_map (λ i. i.now) result
        ≡ option_and_then (interface_in queue) (member_of (knowledge_of operations.now) dot) }
{
    let member = member_of(operations, dot)?;
    if member.queue == queue {
        Some(&member.interface)
    } else {
        None
    }
}
