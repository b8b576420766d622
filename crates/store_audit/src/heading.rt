//! The comments before the script of an audit: its sites, queues and stores. Each function fails only when out of memory; one that appends
//! then leaves a part of its text.
ghost use Rattle.std.specs.Prelude.{◌≡◌, ◌++◌, ◌∷◌, ℕ, [], List, IfOk, OnOk, Some, false, map};
ghost use Rattle.std.specs.Prelude.{slice_get};
ghost use Rattle.std.specs.List.{list_any};
ghost use Rattle.dots.specs.Values.{is_bad_byte};
ghost use Rattle.std.specs.List.{All};
ghost use Rattle.ami_text.specs.Lines.{lines_text};
ghost use Rattle.event_script.specs.Comments.{IsComment};
ghost use Rattle.store_audit.specs.Headings.{heading_lines, numbers_text, queue_line};
ghost use Rattle.store_audit.specs.Headings.{sites_line, store_line};
ghost use Rattle.store_audit.specs.Stores.{journals_of};
ghost use Rattle.site_audit.specs.Runs.{names_in};
ghost use Rattle.hex.specs.Hex.{encode_lower};

use crate::StoreJournal;
use crate::checking::{list_of, site_of};
use ami_text::push_decimal;
use dots::{Memory, QueueName};
use replica::QueueList;
use std::alloc::Global;

// Appends the line that says how many stores there are.
fn push_sites(out: &mut Vec<u8>, sites: usize) -> Result<(), Memory>
    ensures line { OnOk result (out.new.items ≡ out.old.items ++ (sites_line sites ++ 10 ∷ [])) }
    ensures comment { OnOk result (IsComment (sites_line sites)) }
{
    out.extend_from_slice(b"# sites: ")?;
    push_decimal(out, sites as u64)?;
    out.extend_from_slice(b"\n")?;
    Ok(())
}

// Appends the line of a queue.
fn push_queue(out: &mut Vec<u8>, name: &QueueName) -> Result<(), Memory>
    ensures line { OnOk result (out.new.items
        ≡ out.old.items ++ (queue_line name.now ++ 10 ∷ [])) }
    ensures comment { OnOk result (IsComment (queue_line name.now)) }
{
    out.extend_from_slice(b"# queue: ")?;
    out.extend_from_slice(name.as_bytes())?;
    out.extend_from_slice(b"\n")?;
    Ok(())
}

// Appends the line of the queue at this place; nothing if there is none.
fn push_queue_at(out: &mut Vec<u8>, list: &QueueList, place: u16) -> Result<(), Memory>
    ensures line { (name : List ℕ) → slice_get list.now place ≡ Some name → OnOk result
        (out.new.items ≡ out.old.items ++ (queue_line name ++ 10 ∷ [])) }
    ensures comment { (name : List ℕ) → slice_get list.now place ≡ Some name → OnOk result
        (IsComment (queue_line name)) }
{
    match list.name(place) {
        Some(name) => push_queue(out, name),
        None => Ok(()),
    }
}

// Appends the lines of queues.
fn push_queues(out: &mut Vec<u8>, list: &QueueList) -> Result<(), Memory>
    ensures lines { OnOk result (out.new.items
        ≡ out.old.items ++ lines_text (map queue_line list.now)) }
    ensures comments { OnOk result (All IsComment (map queue_line list.now)) }
{
    for place in 0..list.len() {
        push_queue_at(out, list, place)?;
    }
    Ok(())
}

// Appends bytes in lower-case hexadecimal.
fn push_hex(alloc: Global, out: &mut Vec<u8>, bytes: &[u8]) -> Result<(), Memory>
    ensures text { OnOk result (out.new.items ≡ out.old.items ++ encode_lower bytes.now) }
    ensures clean { OnOk result (list_any is_bad_byte (encode_lower bytes.now) ≡ false) }
{
    let text = hex::encode(alloc, bytes)?.into_bytes();
    let done = out.extend_from_slice(&text);
    drop(text);
    done?;
    Ok(())
}

// Appends the numbers of the line of a store, and its end.
fn push_numbers(out: &mut Vec<u8>, starts: u64, steps: usize) -> Result<(), Memory>
    ensures text { OnOk result (out.new.items
        ≡ out.old.items ++ (numbers_text starts steps ++ 10 ∷ [])) }
    ensures clean { OnOk result (list_any is_bad_byte (numbers_text starts steps) ≡ false) }
{
    out.extend_from_slice(b", starts: ")?;
    push_decimal(out, starts)?;
    out.extend_from_slice(b", steps: ")?;
    push_decimal(out, steps as u64)?;
    out.extend_from_slice(b"\n")?;
    Ok(())
}

// Appends the line of a store.
fn push_store(alloc: Global, out: &mut Vec<u8>, store: &StoreJournal) -> Result<(), Memory>
    ensures line { OnOk result (out.new.items
        ≡ out.old.items ++ (store_line store.now ++ 10 ∷ [])) }
    ensures comment { OnOk result (IsComment (store_line store.now)) }
{
    out.extend_from_slice(b"# site ")?;
    push_decimal(out, u64::from(site_of(store)))?;
    out.extend_from_slice(b": store ")?;
    push_hex(alloc, out, &store.name)?;
    push_numbers(out, store.starts, store.journal.steps().len())
}

// Appends the lines of stores.
fn push_stores(alloc: Global, out: &mut Vec<u8>, stores: &[StoreJournal]) -> Result<(), Memory>
    ensures lines { OnOk result (out.new.items
        ≡ out.old.items ++ lines_text (map store_line stores.now)) }
    ensures comments { OnOk result (All IsComment (map store_line stores.now)) }
{
    for store in stores {
        push_store(alloc, out, store)?;
    }
    Ok(())
}

// Appends the lines of the queues of the first store; nothing without a store.
fn push_first_queues(out: &mut Vec<u8>, stores: &[StoreJournal]) -> Result<(), Memory>
    ensures lines { OnOk result (out.new.items
        ≡ out.old.items ++ lines_text (map queue_line (names_in (journals_of stores.now)))) }
    ensures comments { OnOk result
        (All IsComment (map queue_line (names_in (journals_of stores.now)))) }
{
    match stores.first() {
        Some(store) => push_queues(out, list_of(store)),
        None => Ok(()),
    }
}

// The heading of the script of an audit: how many sites there are, the queues of the first, and a line for each store.
pub(crate) fn heading(alloc: Global, stores: &[StoreJournal]) -> Result<Vec<u8>, Memory>
    ensures text { IfOk result (λ text. text.items ≡ lines_text (heading_lines stores.now)) }
    ensures comments { OnOk result (All IsComment (heading_lines stores.now)) }
{
    let mut out = Vec::new(alloc);
    push_sites(&mut out, stores.len())?;
    push_first_queues(&mut out, stores)?;
    push_stores(alloc, &mut out, stores)?;
    Ok(out)
}
