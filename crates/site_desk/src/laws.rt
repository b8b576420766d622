//! A law of a desk's port, for a caller that lends it a pass. The function has no body: its contract is the law.
ghost use Rattle.std.specs.Prelude.{◌≡◌, List, Option, Some};
ghost use Rattle.site_journal.specs.Ports.{PortWork};
ghost use Rattle.site_journal.specs.declared.desk_fault.DeskFault.{DeskFault};
ghost use Rattle.site_journal.specs.declared.receipt.Receipt.{Receipt};
ghost use Rattle.site_desk.specs.Passes.{RewoundIsBelow};
ghost use Rattle.site_desk.specs.Ports.{MakesByPass, RefusesByPass, WorksByPass, lent_pass};
ghost use Rattle.site_desk.specs.declared.desk_port.DeskPort.{DeskPort};

use crate::SiteLedger;

/// After any calls of a port, whether or not a fault stopped it, its pass has done the steps of its receipts, and no other, each of
/// them at some state of its site. The pass is the same borrow, so that its state is known after the port is dropped. A `Rewound`
/// fault has a length of the journal below what the pass then has seen.
pub fn a_port_works_by_its_pass<L: SiteLedger>()
    ensures works { (old new : DeskPort L) (receipts : List Receipt) (fault : Option DeskFault)
        → PortWork
        (λ from receipt to. MakesByPass L.site L.names (lent_pass from) receipt (lent_pass to))
        (λ from cause to. RefusesByPass (lent_pass from) cause (lent_pass to))
        old receipts fault new
        → WorksByPass L.site L.names (lent_pass old) receipts (lent_pass new) }
    ensures rewound { (old new : DeskPort L) (receipts : List Receipt) (fault : Option DeskFault)
        → PortWork
        (λ from receipt to. MakesByPass L.site L.names (lent_pass from) receipt (lent_pass to))
        (λ from cause to. RefusesByPass (lent_pass from) cause (lent_pass to))
        old receipts fault new
        → (cause : DeskFault) → fault ≡ Some cause → RewoundIsBelow (lent_pass new).now cause }
{}
