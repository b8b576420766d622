ghost use Rattle.std.specs.Prelude.{◌≡◌, ◌↔◌, ◌<◌, ◌≤◌, length, Some, slice_get, option_map};
ghost use Rattle.std.specs.Prelude.{Contains, IfSome, IfNone, IfOk, OnOk, IsErrOf, IsTrue};
ghost use Rattle.replica.specs.Queues.{AreDistinct, AreQueues, number_of};

use dots::{Memory, QUEUES, QueueName};
use indexmap::IndexSet;
use std::alloc::Global;
use std::marker::Model;
use thiserror::Error;

/// Why names are no list of queues. Where several faults apply, the first of this list is returned, except that out of
/// memory at one name hides a later name that occurs twice.
#[derive(Clone, Copy, Debug, PartialEq, Eq, Error)]
pub enum ListFault {
    /// There is no name.
    #[error("no queue")]
    Empty,
    /// There are more than 256 names.
    #[error("more than 256 queues")]
    TooMany,
    /// A name occurs twice.
    #[error("a queue twice")]
    Twice,
    /// An allocation was refused.
    #[error("out of memory")]
    Memory,
}

/// The queues of the call centre: 1 to 256 distinct names, in the given order. Each site has the same list, and a queue's
/// number is its place in it, from 0.
#[derive(Drop)]
pub struct QueueList {
    names: IndexSet<QueueName>,
}

impl Model for QueueList {
    ghost use Rattle.std.specs.Prelude.{ℕ, List};
    ghost use Rattle.replica.specs.Queues.{AreQueues};

    ghost Value = { List (List ℕ) };

    ghost view = { λ l. l.names.keys };

    ghost invariant = { λ l. AreQueues l.names.keys };
}

impl QueueList {
    /// The list of these names. Errors, in order: `Empty` if there is none; `TooMany` if there are more than 256; `Twice`
    /// if two are the same; `Memory`, which may replace a `Twice` if it occurs before the second of the two.
    pub fn new(alloc: Global, names: &[QueueName]) -> Result<QueueList, ListFault>
        ensures value { IfOk result (λ list. list ≡ names.now) }
        ensures within { OnOk result (AreQueues names.now) }
        ensures empty { IsErrOf result ListFault.Empty ↔ (length names.now ≡ 0) }
        ensures too_many { IsErrOf result ListFault.TooMany ↔ (QUEUES < length names.now) }
        ensures twice { IsErrOf result ListFault.Twice
            → (length names.now ≤ QUEUES) × (AreDistinct names.now → ⊥) }
    {
        if names.is_empty() {
            return Err(ListFault::Empty);
        }
        if names.len() > QUEUES {
            return Err(ListFault::TooMany);
        }
        let mut held = IndexSet::new(alloc);
        for name in names {
            match held.insert(name.copy()) {
                Ok(true) => {}
                Ok(false) => return Err(ListFault::Twice),
                Err(_) => return Err(ListFault::Memory),
            }
        }
        Ok(QueueList { names: held })
    }

    /// Returns a copy. Fails only when out of memory.
    pub fn copy(&self) -> Result<QueueList, Memory>
        ensures { IfOk result (λ copy. copy ≡ self.now) }
    {
        let alloc = *self.names.allocator();
        match QueueList::new(alloc, self.names.as_slice()) {
            Ok(copy) => Ok(copy),
            Err(_) => Err(Memory),
        }
    }

    /// Whether it has the same names as the other, in the same order. Takes no memory.
    pub fn same(&self, other: &QueueList) -> bool
        ensures { IsTrue result ↔ (self.now ≡ other.now) }
    {
        self.names.as_slice() == other.names.as_slice()
    }

    /// The place of the queue of this name, from 0. `None` exactly where the name isn't in the list.
    pub fn position(&self, name: &QueueName) -> Option<u16>
        ensures number { result ≡ number_of self.now name.now }
        ensures value { IfSome result (λ place. slice_get self.now place ≡ Some name.now) }
        ensures none { IfNone result (Contains self.now name.now → ⊥) }
    {
        let place = self.names.get_index_of(name)?;
        Some(place as u16)
    }

    /// The name at this place. `None` exactly where the place isn't below the list's length.
    pub fn name(&self, place: u16) -> Option<&QueueName>
        ensures value { option_map (λ name. name.now) result ≡ slice_get self.now place }
    {
        self.names.get_index(usize::from(place))
    }

    /// The number of queues, 1 to 256.
    pub fn len(&self) -> u16
        ensures value { result ≡ length self.now }
        ensures limit { (0 < result) × (result ≤ QUEUES) }
        ensures queues { AreQueues self.now }
    {
        self.names.len() as u16
    }
}
