//! What the next run finds of a site's steps. The functions have no body: their contracts are the laws.
ghost use Rattle.std.specs.Prelude.{◌⊎◌, ◌++◌, ℕ, List, IsTrue};
ghost use Rattle.sqlite.specs.FileStore.{state, view, recovers};
ghost use Rattle.sqlite.specs.Files.{file_state};
ghost use Rattle.sqlite.specs.Held.{AreDatabases, Held};
ghost use Rattle.sqlite.specs.Order.{Row};
ghost use Rattle.sqlite.specs.Recovery.{Image};
ghost use Rattle.sqlite.specs.Start.{FindsIn};
ghost use Rattle.sqlite.specs.Tree.{Trees};
ghost use Rattle.sqlite_store.specs.declared.store.FileStore.{FileStore};
ghost use Rattle.site_journal.specs.declared.step.Step.{Step};
ghost use Rattle.stored_steps.specs.Restoring.{IsRestoredSite};
ghost use Rattle.stored_steps.specs.RowsLead.{MakeSite};
ghost use Rattle.stored_steps.specs.Stored.{Stored};
ghost use Rattle.stored_steps.specs.declared.restored_site.RestoredSite.{RestoredSite};
ghost use Rattle.site_store.specs.Steps.{Lists};
ghost use Rattle.step_database.specs.Standing.{IsFoundSite, StoreOrigin};
ghost use Rattle.step_database.specs.Databases.{HasSteps, HasStepsOrMore};

use sqlite_disk::Disk;

/// The site that is restored of a table whose rows stand for some steps is the one that did these steps. Its store's name and the number
/// of its starts are those of the store (this project's own).
pub fn a_restored_site_has_done_the_steps()
    ensures { (table : List Row) (origin : StoreOrigin) (steps : List Step)
        → HasSteps table origin steps
        → (first : ℕ) (rows : List Stored) (found : RestoredSite)
        → Lists table first rows → IsRestoredSite rows found → IsFoundSite origin steps found }
{}

/// A table whose rows stand for some steps has rows that make a site of the number and the queues of their origin. Of such rows
/// `restore_site` of `site_store` says in its clause `makes` when it doesn't refuse them.
pub fn the_rows_of_steps_make_a_site()
    ensures { (table : List Row) (origin : StoreOrigin) (steps : List Step)
        → HasSteps table origin steps → (first : ℕ) × (rows : List Stored)
        × Lists table first rows × MakeSite origin.begun.site origin.begun.names rows }
{}

/// Where a crash leaves rows that stand for some steps, or for these and all of `more`, what an open of any files that it leaves finds
/// committed are rows that make a site of the number and the queues of their origin.
pub fn the_next_run_finds_a_site<D: Disk, E: Disk>()
    ensures { (it : FileStore D D.Disk) (origin : StoreOrigin) (steps more : List Step)
        → IsTrue (view it).is_numbered → AreDatabases (recovers it)
        → ((db : Trees) → recovers it db → HasStepsOrMore (db 0) origin steps more)
        → (left : Image) → (state it).may_leave left → (opened : Held (FileStore E E.Disk))
        → FindsIn left (file_state opened)
        → ∥ ((first : ℕ) × (rows : List Stored)
        × Lists ((file_state opened).committed.trees 0) first rows
        × MakeSite origin.begun.site origin.begun.names rows) ∥₁ }
{}

/// Where a crash leaves rows that stand for some steps, or for these and all of `more`, the site that the next run restores of any files
/// that it leaves is the one that did these steps, or these and all of `more`.
pub fn the_next_run_has_done_the_steps<D: Disk, E: Disk>()
    ensures { (it : FileStore D D.Disk) (origin : StoreOrigin) (steps more : List Step)
        → IsTrue (view it).is_numbered → AreDatabases (recovers it)
        → ((db : Trees) → recovers it db → HasStepsOrMore (db 0) origin steps more)
        → (left : Image) → (state it).may_leave left → (opened : Held (FileStore E E.Disk))
        → FindsIn left (file_state opened)
        → (first : ℕ) (rows : List Stored) (found : RestoredSite)
        → Lists ((file_state opened).committed.trees 0) first rows → IsRestoredSite rows found
        → ∥ (IsFoundSite origin steps found ⊎ IsFoundSite origin (steps ++ more) found) ∥₁ }
{}
