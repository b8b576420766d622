//! The entries of the pool, found by the bytes that spell them.
ghost use Rattle.std.specs.Prelude.{◌≡◌, ◌+◌, ◌<◌, ◌^◌, ℕ, List, None, OnOk, option_map};
ghost use Rattle.site_audit.specs.Replays.{HasFound, found_in, made_by};

use dots::Memory;
use site_journal::StepDeed;
use std::alloc::Global;
use std::collections::BTreeMap;

// The places of the pool's entries, by their bytes in the journals of their makers.
#[derive(Drop)]
pub(crate) struct Pool<'a> {
    places: BTreeMap<&'a [u8], usize>,
    // How many entries the pool has.
    entries: usize,
}

// The bytes of the frame that a deed made; `None` where it made no frame.
fn made_by(deed: &StepDeed) -> Option<&[u8]>
    ensures { option_map (λ bytes. bytes.now) result ≡ made_by deed.now }
{
    match deed {
        StepDeed::Cut(Some(bytes)) => Some(bytes.as_slice()),
        StepDeed::Whole(bytes) => Some(bytes.as_slice()),
        StepDeed::Cut(None) | StepDeed::Asked(_, _) | StepDeed::Took(_) => None,
    }
}

impl<'a> Pool<'a> {
    // A pool with no entry.
    pub(crate) fn new(alloc: Global) -> Pool<'a>
        ensures found { (bytes : List ℕ) → found_in result bytes ≡ None }
        ensures entries { result.entries ≡ 0 }
    {
        Pool {
            places: BTreeMap::new(alloc),
            entries: 0,
        }
    }

    // The place of the last entry put in with these bytes; `None` if none was.
    pub(crate) fn find(&self, bytes: &'a [u8]) -> Option<usize>
        ensures { result ≡ found_in self.now bytes.now }
    {
        self.places.get(&bytes).copied()
    }

    // Puts the entry that a deed made, if it made one, at the end. Fails only when out
    // of memory; then the pool isn't used again.
    pub(crate) fn add(&mut self, deed: &'a StepDeed) -> Result<(), Memory>
        requires { self.old.entries + 1 < 2 ^ 64 }
        ensures { OnOk result (HasFound self.old self.new (made_by deed.now)) }
    {
        if let Some(bytes) = made_by(deed) {
            self.places.insert(bytes, self.entries)?;
            self.entries += 1;
        }
        Ok(())
    }
}
