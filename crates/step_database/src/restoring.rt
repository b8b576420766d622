//! A store whose site is restored, before a start of it.
ghost use Rattle.std.specs.Prelude.{◌≡◌, ◌≤◌, ◌<◌, IfOk, IsErrOf, false};
ghost use Rattle.sqlite.specs.Held.{state};
ghost use Rattle.sqlite.specs.State.{HasCleanDisk};
ghost use Rattle.site_journal.specs.declared.journaled.TheConstants.{MOST_STEPS};
ghost use Rattle.site_store.specs.Restored.{IsRestoredAt};
ghost use Rattle.site_store.specs.declared.restoring.TheConstants.{LAST_POSITION};
ghost use Rattle.site_store.specs.Steps.{IsStoreSchema};
ghost use Rattle.site_store.specs.declared.open_fault.OpenFault.{OpenFault};
ghost use Rattle.step_database.specs.Restored.{IsOnlyRead, IsRestored};

use dots::{Memory, SiteId};
use replica::{QueueList, Replica};
use site_journal::MOST_STEPS;
use site_store::{OpenFault, RestoredStore, is_store_schema, restore_site};
use sqlite::{Alter, Connection};
use std::alloc::Global;
use std::marker::Model;
use std::snapshot::Snapshot;
use stored_desk::Growth;
use stored_steps::{NAME_BYTES, RestoredSite};

/// The store of a site, in an SQLite database, whose site is restored. Nothing is changed yet (this project's own).
#[derive(Drop)]
pub struct RestoredDatabase<S: Alter + Drop> {
    pub(crate) conn: Connection<S>,
    // What the site says.
    pub(crate) replica: Replica,
    // What the replica was copied from. Only contracts read it.
    pub(crate) begun: Snapshot<Replica>,
    // The bytes that name the store for ever.
    pub(crate) name: [u8; NAME_BYTES],
    // How often the site was started over the store.
    pub(crate) starts: u64,
    // The position of the next row.
    pub(crate) next: u64,
    // How much it has stored since its base, with the row of the next start.
    pub(crate) growth: Growth,
    pub(crate) alloc: Global,
}

impl<S: Alter + Drop> Model for RestoredDatabase<S> {
    ghost use Rattle.sqlite.specs.Held.{Held, held_code};
    ghost use Rattle.step_database.specs.Restored.{RestoredState, restored_code};

    ghost Value = { RestoredState (Held S) };

    ghost coded = { restored_code (held_code S.code) };

    ghost view = { λ d. record {
      conn = d.conn;
      replica = d.replica;
      begun = d.begun.value;
      name = d.name;
      starts = d.starts;
      next = d.next;
    } };
}

// The store of a site that was restored over a connection, with a copy of the site. The journal is dropped. Fails only when out of memory,
// and drops all.
fn restored_from<S: Alter + Drop>(
    alloc: Global,
    conn: Connection<S>,
    restored: RestoredStore,
) -> Result<RestoredDatabase<S>, Memory>
    requires fits { restored.next < LAST_POSITION }
    requires outside { HasCleanDisk (state S.Store conn)
        → (state S.Store conn).in_transaction ≡ false }
    requires restored { HasCleanDisk (state S.Store conn)
        → IsRestoredAt (state S.Store conn) restored }
    ensures conn { IfOk result (λ it. it.conn ≡ conn) }
    ensures site { IfOk result (λ it. it.replica.site ≡ restored.site.journal.replica.site) }
    ensures names { IfOk result (λ it. it.replica.names ≡ restored.site.journal.replica.names) }
    ensures restored { IfOk result (λ it. IsRestored (state S.Store it.conn) it) }
{
    let RestoredStore {
        site,
        next,
        rows,
        bytes,
    } = restored;
    let RestoredSite {
        journal,
        name,
        starts,
    } = site;
    let begun = Snapshot::of(journal.replica());
    let copy = journal.replica().copy();
    drop(journal);
    match copy {
        Ok(replica) => Ok(RestoredDatabase {
            conn,
            replica,
            begun,
            name,
            starts,
            next,
            growth: Growth { rows, bytes },
            alloc,
        }),
        Err(Memory) => {
            drop(conn);
            Err(Memory)
        }
    }
}

impl<S: Alter + Drop> RestoredDatabase<S> {
    /// The store over a connection, whose site has this number and these queues. While the store's steps are done again at most `limit` of
    /// them are in memory, 1 to 1,000,000, beside all rows; no contract says this. Nothing is changed.
    ///
    /// Errors, each of which drops the connection, in order: `NoStore`, if the database hasn't the tables of a store; those of
    /// `restore_site` of `site_store`; `Memory`.
    pub fn restore(
        alloc: Global,
        conn: Connection<S>,
        site: SiteId,
        list: &QueueList,
        limit: u32,
    ) -> Result<RestoredDatabase<S>, OpenFault>
        requires some { 1 ≤ limit }
        requires most { limit ≤ MOST_STEPS }
        ensures site { IfOk result (λ it. it.replica.site ≡ site) }
        ensures names { IfOk result (λ it. it.replica.names ≡ list.now) }
        ensures no_store { (IsStoreSchema (state S.Store conn).now.schema → ⊥)
            → IsErrOf result OpenFault.NoStore }
        ensures restored { IfOk result (λ it. IsRestored (state S.Store it.conn) it) }
        ensures reads { IfOk result (λ it.
            IsOnlyRead (state S.Store conn) (state S.Store it.conn)) }
    {
        let mut conn = conn;
        if !is_store_schema(conn.schema()) {
            drop(conn);
            return Err(OpenFault::NoStore);
        }
        match restore_site(alloc, &mut conn, site, list, limit) {
            Ok(restored) => match restored_from(alloc, conn, restored) {
                Ok(database) => Ok(database),
                Err(_) => Err(OpenFault::Memory),
            },
            Err(fault) => {
                drop(conn);
                Err(fault)
            }
        }
    }
}
