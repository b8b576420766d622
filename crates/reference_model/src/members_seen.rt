// The visible dots that a change is for, each with its member.
ghost use Rattle.std.specs.Prelude.{◌≡◌, map as each, filter_map, IfOk};
ghost use Rattle.operations.specs.Rows.{dot_view};
ghost use Rattle.operations.specs.Knowledge.{visible_dots};
ghost use Rattle.general_lemmas.specs.SetItems.{in_order};
ghost use Rattle.replica.specs.SiteViews.{dots_seen, with_interface};
ghost use Rattle.reference_model.specs.Plain.{knowledge_of};

use crate::Operation;
use crate::dots_seen::{dots_of_member, member_of, visible_dots};
use dots::{Dot, Interface, Member, Memory};
use std::alloc::Global;

// The dots `dots`, each with the member `member`.
fn with_member(alloc: Global, dots: &[Dot], member: &Member) -> Result<Vec<(Dot, Member)>, Memory>
    ensures { IfOk result (λ seen. seen.items ≡ each (λ dot. (dot, member.now)) dots.now) }
{
    dots.iter().map(|dot| (*dot, member.copy())).collect(alloc)
}

// `dot` with its member, where that has this interface; else `None`.
fn with_interface(
    operations: &[Operation],
    interface: &Interface,
    dot: Dot,
) -> Option<(Dot, Member)>
    ensures { result ≡ with_interface (dot_view (knowledge_of operations.now)) interface.now dot }
{
    let member = member_of(operations, dot)?;
    if member.interface.as_bytes() == interface.as_bytes() {
        Some((dot, member.copy()))
    } else {
        None
    }
}

// Of `dots` those whose member has this interface, each with its member.
fn of_interface(
    alloc: Global,
    operations: &[Operation],
    dots: &[Dot],
    interface: &Interface,
) -> Result<Vec<(Dot, Member)>, Memory>
    ensures { IfOk result
        (λ seen. seen.items
        ≡ filter_map
        (with_interface (dot_view (knowledge_of operations.now)) interface.now) dots.now) }
{
    dots.iter()
        .filter_map(|dot| with_interface(operations, interface, *dot))
        .collect(alloc)
}

// The visible dots of a member, or, without a queue, of the members of this interface in every queue.
pub(crate) fn dots_seen(
    alloc: Global,
    operations: &[Operation],
    queue: Option<u16>,
    interface: &Interface,
) -> Result<Vec<(Dot, Member)>, Memory>
    ensures { IfOk result
        (λ seen. seen.items
        ≡ dots_seen (dot_view (knowledge_of operations.now)) queue interface.now) }
{
    match queue {
        Some(queue) => {
            let member = Member {
                queue,
                interface: interface.copy(),
            };
            let dots = dots_of_member(alloc, operations, &member)?;
            with_member(alloc, &dots, &member)
        }
        None => {
            let dots = visible_dots(alloc, operations)?;
            of_interface(alloc, operations, &dots, interface)
        }
    }
}
