//! What the next run finds. The functions have no body: their contracts are the laws.
ghost use Rattle.std.specs.Prelude.{◌⊎◌, ◌∷◌, ℕ, List, IsTrue};
ghost use Rattle.sqlite.specs.FileStore.{state, view, recovers};
ghost use Rattle.sqlite.specs.Held.{AreDatabases, Held};
ghost use Rattle.sqlite.specs.Files.{file_state};
ghost use Rattle.sqlite.specs.Start.{FindsIn};
ghost use Rattle.sqlite.specs.Tree.{Trees};
ghost use Rattle.sqlite.specs.Recovery.{Image};
ghost use Rattle.sqlite_store.specs.declared.store.FileStore.{FileStore};
ghost use Rattle.stored_steps.specs.Stored.{Stored};
ghost use Rattle.replica.specs.Site.{IsSameSite, SiteState};
ghost use Rattle.stored_steps.specs.declared.base.StoredBase.{StoredBase};
ghost use Rattle.stored_steps.specs.declared.restored_site.RestoredSite.{RestoredSite};
ghost use Rattle.stored_steps.specs.Bases.{IsOfBase};
ghost use Rattle.stored_steps.specs.Restoring.{IsRestoredSite};
ghost use Rattle.stored_steps.specs.RowsLead.{RowsLead};
ghost use Rattle.site_store.specs.Steps.{Lists};

use sqlite_disk::Disk;

/// Where a crash leaves no database but those that list these rows, or those others, an open of any files that it may leave finds such a
/// database. The others are, for example, these rows and the ones under way, or a new base (this project's own).
pub fn the_next_run_finds_the_steps<D: Disk, E: Disk>()
    ensures { (it : FileStore D D.Disk) (first at : ℕ) (rows others : List Stored)
        → IsTrue (view it).is_numbered → AreDatabases (recovers it)
        → ((db : Trees) → recovers it db → Lists (db 0) first rows ⊎ Lists (db 0) at others)
        → (left : Image) → (state it).may_leave left → (opened : Held (FileStore E E.Disk))
        → FindsIn left (file_state opened)
        → ∥ Lists ((file_state opened).committed.trees 0) first rows
        ⊎ Lists ((file_state opened).committed.trees 0) at others ∥₁ }
{}

/// Where a crash leaves no database but those of a base, written or read, with rows that lead to a site, or those of another base with
/// other rows that lead to another site, the site that is restored of what an open of any files that it may leave finds says the same as
/// the one or the other. The other rows are, for example, the same and those of the steps under way; or a new base of the same site, and
/// none.
pub fn the_next_run_restores_the_site<D: Disk, E: Disk>()
    ensures { (it : FileStore D D.Disk) (first at : ℕ) (base other : StoredBase)
        (row other_row : Stored) (rows others : List Stored) (site later : SiteState)
        → IsOfBase base row → RowsLead base.replica rows site
        → IsOfBase other other_row → RowsLead other.replica others later
        → IsTrue (view it).is_numbered → AreDatabases (recovers it)
        → ((db : Trees) → recovers it db
        → Lists (db 0) first (row ∷ rows) ⊎ Lists (db 0) at (other_row ∷ others))
        → (left : Image) → (state it).may_leave left → (opened : Held (FileStore E E.Disk))
        → FindsIn left (file_state opened)
        → (place : ℕ) (list : List Stored) (found : RestoredSite)
        → Lists ((file_state opened).committed.trees 0) place list → IsRestoredSite list found
        → ∥ IsSameSite site found.journal.replica ⊎ IsSameSite later found.journal.replica ∥₁ }
{}
