use std::marker::Brand;
use std::sync::ledger::Ledger;

/// The site of a desk: a name for its ledger that also stands for the site's number and its queues, and for the state that its
/// journal began from. It has no bytes, and a call passes `Brand` for it.
pub trait SiteLedger: Ledger {
    ghost use Rattle.std.specs.Prelude.{ℕ, List};
    ghost use Rattle.replica.specs.Site.{SiteState};

    /// The site's number.
    ghost site: { ℕ };

    /// The names of its queues, in order.
    ghost names: { List (List ℕ) };

    /// The most steps that its journal may hold.
    ghost limit: { ℕ };

    /// The state that its journal began from.
    ghost base: { SiteState };
}

impl SiteLedger for Brand {
    ghost use Rattle.std.specs.Prelude.{[]};
    ghost use Rattle.site_desk.specs.Ledgers.{no_site};

    ghost site = { 0 };

    ghost names = { [] };

    ghost limit = { 0 };

    ghost base = { no_site };
}
