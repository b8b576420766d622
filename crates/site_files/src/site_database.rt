ghost use Rattle.std.specs.Prelude.{[], ◌≡◌};

use crate::opening::{open_site_file, site_file};
use crate::{OpenFault, RestoredFile, SiteFile, SiteFileFault, StoreInFile};
use dots::{Memory, SiteId};
use replica::{QueueList, Replica};
use site_journal::Step;
use sqlite::{FileFrom, FileStore, Unknown};
use step_database::{ReadyBase, StepDatabase};
use stored_desk::{CommitFault, Growth, StepStore};
use stored_steps::StoredRow;

/// The store of a site in a file, as a program names it. It supposes that a torn write leaves each byte of the file old or new.
/// Each call does as that of `StepDatabase`.
#[derive(Drop)]
pub struct SiteDatabase {
    rows: StepDatabase<FileStore<FileFrom<Unknown>>>,
}

impl StepStore for SiteDatabase {
    ghost use Rattle.sqlite.specs.Files.{file_state};
    ghost use Rattle.step_database.specs.Standing.{AreRowsOf};
    ghost use Rattle.step_database.specs.Databases.{IsBaseOf, KeepsIfClean, StoresIfClean};

    type Group = Vec<StoredRow>;

    type Base = ReadyBase;

    ghost groups = { λ group steps. AreRowsOf group.items steps };

    ghost bases = { λ base site. IsBaseOf base site };

    ghost holds = { λ store list.
        StoresIfClean (file_state store.rows.conn) store.rows.origin store.rows.next list };

    ghost keeps = { λ store list more.
        KeepsIfClean (file_state store.rows.conn) store.rows.origin list more };

    ghost begun = { λ store. store.rows.origin.begun };

    // As that of `StepDatabase`.
    fn group(&self, steps: &[Step]) -> Result<Vec<StoredRow>, Memory> {
        self.rows.group(steps)
    }

    // As that of `StepDatabase`.
    fn commit(&mut self, group: Vec<StoredRow>) -> Result<(), CommitFault> {
        self.rows.commit(group)
    }

    // As that of `StepDatabase`.
    fn base(&self, site: Replica) -> Result<ReadyBase, Memory> {
        self.rows.base(site)
    }

    // As that of `StepDatabase`.
    fn replace_base(&mut self, base: ReadyBase) -> Result<(), CommitFault> {
        self.rows.replace_base(base)
    }

    // As that of `StepDatabase`.
    fn since_base(&self) -> Growth {
        self.rows.since_base()
    }
}

impl StoreInFile for SiteDatabase {
    ghost use Rattle.std.specs.Prelude.{◌≡◌};
    ghost use Rattle.sqlite.specs.Files.{file_state};
    ghost use Rattle.sqlite.specs.State.{HasCleanDisk};
    ghost use Rattle.site_store.specs.Steps.{kept_schema};
    ghost use Rattle.step_database.specs.Restored.{AddsStart, IsRestored};

    type Restored = RestoredFile<Unknown>;

    ghost restored_site = { λ restored. restored.replica };

    ghost is_restored = { λ restored. IsRestored (file_state restored.conn) restored };

    ghost name = { λ store. store.rows.origin.name };

    ghost starts = { λ store. store.rows.origin.starts };

    ghost keeps_rows = { λ store. HasCleanDisk (file_state store.rows.conn)
        → (file_state store.rows.conn).now.schema ≡ kept_schema };

    ghost adds_start = { λ keeps restored store.
        AddsStart keeps (file_state restored.conn) (file_state store.rows.conn) };

    // As `open_site_file`. Contracts know nothing of what the file held (`Unknown`).
    fn open_site(
        rt: &HostRuntime,
        path: &str,
        site: SiteId,
        list: &QueueList,
        limit: u32,
    ) -> Result<RestoredFile<Unknown>, SiteFileFault> {
        open_site_file(rt, path, Unknown, site, list, limit)
    }

    // As `resume` of `StepDatabase`.
    fn resume_site(
        restored: RestoredFile<Unknown>,
        keeps: bool,
    ) -> Result<SiteFile<SiteDatabase>, OpenFault> {
        let (rows, replica) = StepDatabase::resume(restored, keeps)?;
        let (name, starts) = (*rows.name(), rows.starts());
        Ok(site_file(replica, SiteDatabase { rows }, name, starts))
    }
}
