// Which dots a list of operations makes visible, and of which member each is.
ghost use Rattle.std.specs.Prelude.{◌≡◌, ◌||◌, not, filter, option_map, IfOk, OnOk};
ghost use Rattle.std.specs.List.{list_any};
ghost use Rattle.std.specs.List.Sorted.{IsStrictlySortedBy};
ghost use Rattle.dots.specs.Values.{Dot};
ghost use Rattle.operations.specs.Knowledge.{is_dot, asserts, is_asserted, is_named, member_of};
ghost use Rattle.operations.specs.Knowledge.{visible_dots};
ghost use Rattle.dots.specs.Orders.{dot_cmp};
ghost use Rattle.operations.specs.Rows.{dot_view, dots_of, is_of};
ghost use Rattle.general_lemmas.specs.SetItems.{in_order};
ghost use Rattle.reference_model.specs.Plain.{knowledge_of, operation_of};

use crate::Operation;
use dots::{Dot, Member, Memory};
use std::alloc::Global;
use std::collections::BTreeSet;

// Whether one of the operations names `dot`.
fn is_named(operations: &[Operation], dot: Dot) -> bool
    ensures { result ≡ is_named (knowledge_of operations.now) dot }
{
    operations.iter().any(|operation| operation.names(dot))
}

// Adds to a set the dots that an operation asserts.
fn add_asserted(found: &mut BTreeSet<Dot>, operation: &Operation) -> Result<(), Memory>
    ensures { OnOk result ((dot : Dot) → list_any (is_dot dot) found.new.keys
        ≡ (list_any (is_dot dot) found.old.keys || asserts dot (operation_of operation.now))) }
{
    match operation {
        Operation::Add { dot, .. } => {
            found.insert(*dot)?;
            Ok(())
        }
        Operation::Write { dots, .. } => add_dots(found, dots),
        Operation::Remove { .. } | Operation::Count { .. } => Ok(()),
    }
}

// Adds to a set the dots of a list of dots with their members.
fn add_dots(found: &mut BTreeSet<Dot>, dots: &[(Dot, Member)]) -> Result<(), Memory>
    ensures { OnOk result ((dot : Dot) → list_any (is_dot dot) found.new.keys
        ≡ (list_any (is_dot dot) found.old.keys || list_any (λ p. is_dot dot p.0) dots.now)) }
{
    for (dot, _) in dots {
        found.insert(*dot)?;
    }
    Ok(())
}

// The dots that some operation asserts.
pub(crate) fn asserted_dots(
    alloc: Global,
    operations: &[Operation],
) -> Result<BTreeSet<Dot>, Memory>
    ensures { IfOk result
        (λ found. (dot : Dot)
        → list_any (is_dot dot) found.keys ≡ is_asserted (knowledge_of operations.now) dot) }
{
    let mut found = BTreeSet::new(alloc);
    for operation in operations {
        add_asserted(&mut found, operation)?;
    }
    Ok(found)
}

// Adds dots to a set.
pub(crate) fn insert_each(found: &mut BTreeSet<Dot>, dots: &[Dot]) -> Result<(), Memory>
    ensures { OnOk result ((dot : Dot) → list_any (is_dot dot) found.new.keys
        ≡ (list_any (is_dot dot) found.old.keys || list_any (is_dot dot) dots.now)) }
{
    for dot in dots {
        found.insert(*dot)?;
    }
    Ok(())
}

// The dots that some operation names.
pub(crate) fn named_dots(alloc: Global, operations: &[Operation]) -> Result<BTreeSet<Dot>, Memory>
    ensures { IfOk result
        (λ found. (dot : Dot)
        → list_any (is_dot dot) found.keys ≡ is_named (knowledge_of operations.now) dot) }
{
    let mut found = BTreeSet::new(alloc);
    for operation in operations {
        insert_each(&mut found, operation.named())?;
    }
    Ok(found)
}

// Of a set of dots those that no operation names, in order.
fn unnamed(
    alloc: Global,
    operations: &[Operation],
    found: &BTreeSet<Dot>,
) -> Result<Vec<Dot>, Memory>
    ensures value { IfOk result
        (λ dots. dots.items
        ≡ filter (λ dot. not (is_named (knowledge_of operations.now) dot)) found.now.keys) }
    ensures ordered { IsStrictlySortedBy dot_cmp found.now.keys }
{
    found
        .iter()
        .copied()
        .filter(|dot| !is_named(operations, *dot))
        .collect(alloc)
}

// The dots that some operation asserts and none names, in order.
pub(crate) fn visible_dots(alloc: Global, operations: &[Operation]) -> Result<Vec<Dot>, Memory>
    ensures { IfOk result
        (λ dots. dots.items ≡ in_order (visible_dots (knowledge_of operations.now))) }
{
    let found = asserted_dots(alloc, operations)?;
    unnamed(alloc, operations, &found)
}

// The member of the first operation that asserts `dot`; `None` if none does.
pub(crate) fn member_of(operations: &[Operation], dot: Dot) -> Option<&Member>
    ensures { option_map (λ m. m.now) result ≡ member_of (knowledge_of operations.now) dot }
{
    for operation in operations {
        if let Some(member) = operation.member_of(dot) {
            return Some(member);
        }
    }
    None
}

// Whether the member that `dot` has in these operations is `member`.
fn is_of(operations: &[Operation], member: &Member, dot: Dot) -> bool
    ensures { result ≡ is_of (dot_view (knowledge_of operations.now)) member.now dot }
{
    match member_of(operations, dot) {
        Some(other) => member.cmp(other).is_eq(),
        None => false,
    }
}

/// The visible dots of a member, in order. Fails only when out of memory.
pub fn dots_of_member(
    alloc: Global,
    operations: &[Operation],
    member: &Member,
) -> Result<Vec<Dot>, Memory>
    ensures { IfOk result
        (λ dots. dots.items ≡ dots_of (dot_view (knowledge_of operations.now)) member.now) }
{
    let dots = visible_dots(alloc, operations)?;
    dots.iter()
        .copied()
        .filter(|dot| is_of(operations, member, *dot))
        .collect(alloc)
}
