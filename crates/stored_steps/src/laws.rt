//! Laws of rows: which step a row stands for, and where rows lead a site. The functions have no body: their contracts are the laws.
ghost use Rattle.std.specs.Prelude.{◌≡◌, ◌≢◌, ◌⊎◌, ◌++◌, ◌∷◌, List, None, Some};
ghost use Rattle.std.specs.List.{All};
ghost use Rattle.ask_code.specs.Asks.{AreBytes};
ghost use Rattle.replica.specs.declared.restore_fault.RestoreFault.{RestoreFault};
ghost use Rattle.replica.specs.Replicas.{IsReplica};
ghost use Rattle.replica.specs.Restoring.{IsRestoreCause};
ghost use Rattle.replica.specs.Site.{IsSameSite, SiteState};
ghost use Rattle.site_journal.specs.declared.step.Step.{Step};
ghost use Rattle.site_journal.specs.Legal.{LeadAll, Leads};
ghost use Rattle.stored_steps.specs.declared.base.StoredBase.{StoredBase};
ghost use Rattle.stored_steps.specs.declared.restored_site.RestoredSite.{RestoredSite};
ghost use Rattle.stored_steps.specs.declared.row_fault.RowFault.{RowFault};
ghost use Rattle.stored_steps.specs.Bases.{IsOfBase, IsReadBase, IsRowOfBase, IsSameBase};
ghost use Rattle.stored_steps.specs.Restoring.{IsRestoredSite};
ghost use Rattle.stored_steps.specs.RowsLead.{RowsLead};
ghost use Rattle.stored_steps.specs.StepRows.{HasRowFault, IsFaultyRow, IsRowOfStep};
ghost use Rattle.stored_steps.specs.StepRows.{IsWithinLimits, row_of, rows_of};
ghost use Rattle.stored_steps.specs.Stored.{Stored};

/// A row stands for at most one step.
pub fn a_row_is_of_one_step()
    ensures { (s t : Step) (row : Stored) → row_of s ≡ Some row → row_of t ≡ Some row
        → IsWithinLimits s → IsWithinLimits t → s ≡ t }
{}

/// A row stands for a step or has a fault, and never both. It has at most one fault.
pub fn a_row_is_of_a_step_or_has_a_fault()
    ensures either { (row : Stored) → AreBytes row.bytes → IsRowOfStep row ⊎ IsFaultyRow row }
    ensures not_both { (row : Stored) → IsRowOfStep row → IsFaultyRow row → ⊥ }
    ensures one { (row : Stored) (f g : RowFault)
        → HasRowFault f row → HasRowFault g row → f ≡ g }
{}

/// A step without a row, which is a status, a refused command or a cut of an empty buffer, leaves the site as it was.
pub fn a_step_without_a_row_changes_nothing()
    ensures { (from to : SiteState) (step : Step) → row_of step ≡ None
        → Leads from step.deed to → IsSameSite from to }
{}

/// The rows of steps lead a site where the steps do. So a store that keeps no status, no refused command and no empty cut keeps all that
/// the site says. `row_of_step` ensures that a step is within its limits (`within`).
pub fn rows_lead_where_their_steps_do()
    ensures { (from to : SiteState) (steps : List Step) → LeadAll from steps to
        → All IsWithinLimits steps → RowsLead from (rows_of steps) to }
{}

/// Rows lead sites that say the same to sites that say the same.
pub fn rows_lead_to_one_site()
    ensures { (a b x y : SiteState) (rows : List Stored) → IsSameSite a b
        → RowsLead a rows x → RowsLead b rows y → IsSameSite x y }
{}

/// Rows that lead to a site, and rows that lead on from it, lead on together.
pub fn rows_lead_on()
    ensures { (a b c : SiteState) (rows more : List Stored)
        → RowsLead a rows b → RowsLead b more c → RowsLead a (rows ++ more) c }
{}

/// The row of a base is read as that base: it says the same, with the same name and as many starts.
pub fn a_row_is_of_one_base()
    ensures { (base read : StoredBase) (row : Stored) → IsRowOfBase base row
        → IsReadBase row read → IsSameBase base read }
{}

/// What is read of one row of a base says the same each time.
pub fn a_row_is_read_as_one_base()
    ensures { (one other : StoredBase) (row : Stored) → IsReadBase row one → IsReadBase row other
        → IsSameBase one other }
{}

/// A site that is restored of the row of a base, written or read, and of rows that led from this base to a site, says the same as that
/// site.
pub fn a_restored_site_did_what_its_rows_say()
    ensures { (base : StoredBase) (row : Stored) (rows : List Stored) (site : SiteState)
        (found : RestoredSite) → IsOfBase base row → RowsLead base.replica rows site
        → IsRestoredSite (row ∷ rows) found → IsSameSite site found.journal.replica }
{}

/// The parts of a replica are those of a replica: `Replica::restored` refuses them only when out of memory.
pub fn the_parts_of_a_replica_are_accepted()
    ensures { (site : SiteState) (fault : RestoreFault) → IsReplica site
        → fault ≢ RestoreFault.Memory → IsRestoreCause site fault → ⊥ }
{}
