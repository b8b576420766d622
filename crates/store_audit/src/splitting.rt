//! The journals of stores, and the positions of their steps.
ghost use Rattle.std.specs.Prelude.{◌≡◌, ◌++◌, ◌∷◌, [], IfOk, OnOk};
ghost use Rattle.store_audit.specs.Stores.{AreParts};

use crate::StoreJournal;
use dots::Memory;
use site_journal::Journaled;
use std::alloc::Global;

// The journals of stores, and for each the positions of the rows of its steps.
#[derive(Drop)]
pub(crate) struct Parts {
    pub(crate) journals: Vec<Journaled>,
    pub(crate) positions: Vec<Vec<u64>>,
}

// The journal of a store, and the positions of the rows of its steps.
fn parts_of(store: StoreJournal) -> (Journaled, Vec<u64>)
    ensures journal { result.0 ≡ store.journal }
    ensures positions { result.1 ≡ store.positions }
{
    (store.journal, store.positions)
}

// Adds an item at the end of a list. It fails only when out of memory, and drops the item.
fn push<T: Drop>(list: &mut Vec<T>, item: T) -> Result<(), Memory>
    ensures { OnOk result (list.new.items ≡ list.old.items ++ item ∷ []) }
{
    match list.push(item) {
        Ok(()) => Ok(()),
        Err(_) => Err(Memory),
    }
}

// Adds a journal and its positions. `Memory` can leave it there without its positions.
fn add(parts: &mut Parts, journal: Journaled, positions: Vec<u64>) -> Result<(), Memory>
    ensures journals { OnOk result
        (parts.new.journals.items ≡ parts.old.journals.items ++ journal ∷ []) }
    ensures positions { OnOk result
        (parts.new.positions.items ≡ parts.old.positions.items ++ positions ∷ []) }
{
    if push(&mut parts.journals, journal).is_err() {
        drop(positions);
        return Err(Memory);
    }
    push(&mut parts.positions, positions)
}

// Takes stores apart into their journals and positions, in order. It fails only when out of memory.
pub(crate) fn split(alloc: Global, stores: Vec<StoreJournal>) -> Result<Parts, Memory>
    ensures { IfOk result (λ parts. AreParts stores.items parts) }
{
    let mut parts = Parts {
        journals: Vec::new(alloc),
        positions: Vec::new(alloc),
    };
    for store in stores {
        let (journal, positions) = parts_of(store);
        if add(&mut parts, journal, positions).is_err() {
            drop(parts);
            return Err(Memory);
        }
    }
    Ok(parts)
}
