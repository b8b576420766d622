//! The words of a base. A function that runs out of memory may have appended a part.
ghost use Rattle.std.specs.Prelude.{◌≡◌, ◌⊎◌, ◌<◌, ◌++◌, [], IfErr, IfOk, OnOk, length};
ghost use Rattle.std.specs.Prelude.{slice_index_or};
ghost use Rattle.replica.specs.Site.{rows_of};
ghost use Rattle.stored_steps.specs.BaseFaults.{IsAnyBaseCause};
ghost use Rattle.stored_steps.specs.Bases.{IsReadBase};
ghost use Rattle.store_listing.specs.Lines.{all_members, base_words, queue_members};
ghost use Rattle.store_listing.specs.Lines.{store_words};

use crate::texts::{push_hex, push_word};
use ami_text::push_decimal;
use dots::Memory;
use replica::Replica;
use status_report::Queues;
use std::alloc::Global;
use stored_steps::{BaseFault, StoredBase, StoredRow, base_heading, base_of_row};

/// The base that a row says, of whatever site and queues. Errors, in order: those of `base_heading`; those of `base_of_row`.
pub fn base_in(alloc: Global, row: &StoredRow) -> Result<StoredBase, BaseFault>
    ensures read { IfOk result (λ base. IsReadBase row.now base) }
    ensures fault { IfErr result (λ fault. (fault ≡ BaseFault.Memory)
        ⊎ IsAnyBaseCause row.now fault) }
{
    let (site, list) = base_heading(alloc, row)?;
    let base = base_of_row(alloc, site, &list, row);
    drop(list);
    base
}

// How many members the queue of this number has. Fails only when out of memory.
fn count_members(alloc: Global, replica: &Replica, number: u16) -> Result<usize, Memory>
    ensures { IfOk result (λ count. count ≡ length (rows_of replica.now number)) }
{
    let rows = Queues::rows(replica, alloc, number)?;
    Ok(rows.len())
}

// Appends the queue of this number, and how many members it has. Fails only when out of memory.
fn push_members(
    alloc: Global,
    line: &mut Vec<u8>,
    replica: &Replica,
    number: u16,
) -> Result<(), Memory>
    requires { number < length replica.now.names }
    ensures { OnOk result (line.new.items ≡ line.old.items
        ++ queue_members replica.now (number, slice_index_or replica.now.names number [])) }
{
    let Some(name) = replica.list().name(number) else {
        unreachable!();
    };
    push_word(line, name.as_bytes())?;
    line.extend_from_slice(b" ")?;
    let count = count_members(alloc, replica, number)?;
    push_decimal(line, count as u64)
}

// Appends the queues of a site, each with how many members it has. Fails only when out of memory.
#[tactic(auto, using(crate::proofs::Members::members_more, crate::proofs::Members::members_all))]
fn push_all_members(alloc: Global, line: &mut Vec<u8>, replica: &Replica) -> Result<(), Memory>
    ensures { OnOk result (line.new.items ≡ line.old.items ++ all_members replica.now) }
{
    for number in 0..replica.list().len() {
        push_members(alloc, line, replica, number)?;
    }
    Ok(())
}

// Appends the site of a base, and the name of its store in hexadecimal. Fails only when out of memory.
fn push_store(line: &mut Vec<u8>, base: &StoredBase) -> Result<(), Memory>
    ensures { OnOk result (line.new.items ≡ line.old.items ++ store_words base.now) }
{
    line.extend_from_slice(b"base: site ")?;
    push_decimal(line, u64::from(base.replica.site().number()))?;
    line.extend_from_slice(b", store ")?;
    push_hex(line, &base.name)
}

/// Appends the words of a base: its site, the name of its store, how often the site was started over it before, and its members. Fails
/// only when out of memory.
pub fn push_base(alloc: Global, line: &mut Vec<u8>, base: &StoredBase) -> Result<(), Memory>
    ensures { OnOk result (line.new.items ≡ line.old.items ++ base_words base.now) }
{
    push_store(line, base)?;
    line.extend_from_slice(b", started ")?;
    push_decimal(line, base.starts)?;
    line.extend_from_slice(b" times, members")?;
    push_all_members(alloc, line, &base.replica)
}
