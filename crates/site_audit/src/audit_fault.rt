use dots::Memory;
use thiserror::Error;

/// Why there is no list of events for journals (this project's own).
#[derive(Clone, Copy, Debug, PartialEq, Eq, Error)]
pub enum AuditFault {
    /// The journals aren't those of the sites 0, 1, .. in order, or have two lists of queues.
    #[error("not the journals of sites 0, 1 and so on, with one list of queues")]
    WrongSites,
    /// The first site whose journal isn't fresh: steps were dropped, or it began from a replica that wasn't new.
    #[error("the journal of site {0} isn't fresh")]
    NotFresh(u16),
    /// The least site that has steps left where no event gives any site its next, and the position of its first that is left.
    #[error("no run: site {0}, position {1}")]
    NoRun(u16, u64),
    /// An allocation was refused.
    #[error("out of memory")]
    Memory,
}

impl From<Memory> for AuditFault {
    ghost use Rattle.std.specs.Prelude.{◌≡◌};
    ghost use Rattle.site_audit.specs.declared.audit_fault.AuditFault.{AuditFault};

    ghost from_gives = { λ _ fault. fault ≡ AuditFault.Memory };

    fn from(_fault: Memory) -> Self {
        AuditFault::Memory
    }
}
