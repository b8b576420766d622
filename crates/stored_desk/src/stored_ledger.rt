use site_desk::SiteLedger;
use std::marker::Brand;

/// Of which site a desk with a store is: the ledger of its site, which also names the history of its steps and the mark up to which they
/// are saved. It has no bytes, and a call passes `Brand` for it (this project's own).
pub trait StoredLedger: SiteLedger {
    ghost use Rattle.atomic_table.specs.Seated.{TableId};
    ghost use Rattle.logbook.specs.Pages.{Book};

    /// Which history it is.
    ghost history: { Book };

    /// Which mark it is.
    ghost mark: { TableId };
}

impl StoredLedger for Brand {
    ghost use Rattle.stored_desk.specs.Histories.{no_book};
    ghost use Rattle.stored_desk.specs.Marks.{no_table};

    ghost history = { no_book };

    ghost mark = { no_table };
}
