ghost use Rattle.std.specs.Prelude.{◌≡◌, [], IfOk, min, ◌+◌, ◌-◌, ◌^◌};
ghost use Rattle.replica.specs.Site.{IsSameSite};
ghost use Rattle.sqlite.specs.Held.{state};
ghost use Rattle.step_database.specs.Databases.{KeepsIfClean, StoresIfClean};
ghost use Rattle.step_database.specs.Restored.{AddsStart, IsRestored};

use crate::ready_base::ReadyBase;
use crate::restoring::RestoredDatabase;
use crate::resuming::begin;
use crate::writing::{append_rows, grown, put_base, rows_of_steps};
use dots::Memory;
use replica::Replica;
use site_journal::Step;
use site_store::OpenFault;
use sqlite::{Alter, Connection};
use std::alloc::Global;
use std::marker::Model;
use std::snapshot::Snapshot;
use stored_desk::{CommitFault, Growth, StepStore};
use stored_steps::{NAME_BYTES, StoredRow, row_of_base};

/// The store of a site since its last start, in an SQLite database. Its rows are a base, the rows from before that start, and those of the
/// steps since. Statuses, refused commands and cuts of an empty buffer have no row (this project's own).
#[derive(Drop)]
pub struct StepDatabase<S: Alter + Drop> {
    conn: Connection<S>,
    // What the site said before the steps. Only contracts read it.
    begun: Snapshot<Replica>,
    // The bytes that name the store for ever.
    name: [u8; NAME_BYTES],
    // How often the site was started over the store, with the last start.
    starts: u64,
    // The position of the next row.
    next: u64,
    // How much it has stored since its base.
    growth: Growth,
    alloc: Global,
}

impl<S: Alter + Drop> Model for StepDatabase<S> {
    ghost use Rattle.sqlite.specs.Held.{Held, held_code};
    ghost use Rattle.step_database.specs.Databases.{DatabaseState, database_code};

    ghost Value = { DatabaseState (Held S) };

    ghost coded = { database_code (held_code S.code) };

    ghost view = { λ d. record {
      conn = d.conn;
      origin = record { begun = d.begun.value; name = d.name; starts = d.starts };
      next = d.next;
    } };
}

impl<S: Alter + Drop> StepDatabase<S> {
    /// A start of a restored site: its store, and what the site says then. The row of the start is added, in a commit of its own. The store
    /// has no step yet, and its steps are those that the site does from here on. If `keeps`, the store keeps from then on the rows in whose
    /// place a base is put, by another commit; else it does so only if it has begun to.
    ///
    /// Errors, each of which drops the connection, in order: those of `add_start` of `site_store`, after which the row of the start may
    /// stand; those of its `keep_rows`, after which it stands.
    pub fn resume(
        restored: RestoredDatabase<S>,
        keeps: bool,
    ) -> Result<(StepDatabase<S>, Replica), OpenFault>
        requires restored { IsRestored (state S.Store restored.conn) restored }
        ensures replica { IfOk result (λ it. it.1 ≡ restored.replica) }
        ensures begun { IfOk result (λ it. IsSameSite it.0.origin.begun it.1) }
        ensures name { IfOk result (λ it. it.0.origin.name ≡ restored.name) }
        ensures starts { IfOk result (λ it.
            it.0.origin.starts ≡ min (restored.starts + 1) (2 ^ 64 - 1)) }
        ensures adds { IfOk result (λ it.
            AddsStart keeps (state S.Store restored.conn) (state S.Store it.0.conn)) }
        ensures holds { IfOk result (λ it.
            StoresIfClean (state S.Store it.0.conn) it.0.origin it.0.next []) }
        ensures keeps { IfOk result (λ it.
            KeepsIfClean (state S.Store it.0.conn) it.0.origin [] []) }
    {
        let RestoredDatabase {
            conn,
            replica,
            begun,
            name,
            starts,
            next,
            growth,
            alloc,
        } = restored;
        let mut conn = conn;
        if let Err(fault) = begin(alloc, &mut conn, next, keeps) {
            drop(conn);
            drop(replica);
            return Err(fault);
        }
        let store = StepDatabase {
            conn,
            begun,
            name,
            starts: starts.saturating_add(1),
            next: next + 1,
            growth,
            alloc,
        };
        Ok((store, replica))
    }

    /// The bytes that name the store for ever.
    pub fn name(&self) -> &[u8; NAME_BYTES]
        ensures { result.now ≡ self.now.origin.name }
    {
        &self.name
    }

    /// How often the site was started over the store, this start included; at most 2^64 - 1.
    pub fn starts(&self) -> u64
        ensures { result ≡ self.now.origin.starts }
    {
        self.starts
    }

    /// Gives up the store for its connection.
    pub fn into_connection(self) -> Connection<S>
        ensures { result ≡ self.conn }
    {
        let StepDatabase { conn, .. } = self;
        conn
    }
}

impl<S: Alter + Drop> StepStore for StepDatabase<S> {
    ghost use Rattle.sqlite.specs.Held.{state};
    ghost use Rattle.step_database.specs.Standing.{AreRowsOf};
    ghost use Rattle.step_database.specs.Databases.{IsBaseOf, KeepsIfClean, StoresIfClean};

    type Group = Vec<StoredRow>;

    type Base = ReadyBase;

    ghost groups = { λ group steps. AreRowsOf group.items steps };

    ghost bases = { λ base site. IsBaseOf base site };

    ghost holds = { λ store list.
        StoresIfClean (state S.Store store.conn) store.origin store.next list };

    ghost keeps = { λ store list more.
        KeepsIfClean (state S.Store store.conn) store.origin list more };

    ghost begun = { λ store. store.origin.begun };

    // The rows of the steps that have one. Fails only when out of memory.
    fn group(&self, steps: &[Step]) -> Result<Vec<StoredRow>, Memory> {
        rows_of_steps(self.alloc, steps)
    }

    // Where no step of the group has a row there is nothing to commit. An error leaves the position of the next row, and the growth.
    fn commit(&mut self, group: Vec<StoredRow>) -> Result<(), CommitFault> {
        if group.is_empty() {
            drop(group);
            return Ok(());
        }
        let growth = grown(self.growth, group.as_slice());
        let added = append_rows(&mut self.conn, self.next, group.as_slice());
        drop(group);
        self.next = added?;
        self.growth = growth;
        Ok(())
    }

    // The new base has the store's name and counts all starts. Fails only when out of memory.
    fn base(&self, site: Replica) -> Result<ReadyBase, Memory> {
        let row = row_of_base(self.alloc, &site, &self.name, self.starts);
        drop(site);
        Ok(ReadyBase {
            row: row?,
            name: self.name,
            starts: self.starts,
        })
    }

    // A base that was made for another store is refused with `Other`, and nothing is done. After Ok the growth is 0; an error leaves it,
    // and the position of the next row.
    fn replace_base(&mut self, base: ReadyBase) -> Result<(), CommitFault> {
        if base.name != self.name || base.starts != self.starts {
            drop(base);
            return Err(CommitFault::Other);
        }
        let put = put_base(&mut self.conn, self.next, &base.row);
        drop(base);
        self.next = put?;
        self.growth = Growth { rows: 0, bytes: 0 };
        Ok(())
    }

    // It counts the rows behind the base, with those of starts, and the bytes of their bodies.
    fn since_base(&self) -> Growth {
        self.growth
    }
}
