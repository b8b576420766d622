use dots::Memory as NoMemory;
use thiserror::Error;

/// Why the events of stores were not written to their end (this project's own).
#[derive(Clone, Copy, Debug, PartialEq, Eq, Error)]
pub enum StoreAuditFault {
    /// Two stores are of this site, the least that has two.
    #[error("two stores of site {0}")]
    Doubled(u16),
    /// No store is of this site, the least without one, and a store is of a greater site.
    #[error("no store of site {0}")]
    Missing(u16),
    /// The store of this site, the least, is of another list of queues than that of site 0.
    #[error("site {0} has other queues than site 0")]
    OtherQueues(u16),
    /// The writer failed, or took no bytes. A prefix of the text was written.
    #[error("write failed")]
    Write,
    /// An allocation was refused. Nothing was written, or a prefix of the text.
    #[error("out of memory")]
    Memory,
}

impl From<NoMemory> for StoreAuditFault {
    ghost use Rattle.std.specs.Prelude.{◌≡◌};
    ghost use Rattle.store_audit.specs.declared.store_audit_fault.StoreAuditFault.{StoreAuditFault};

    ghost from_gives = { λ _ fault. fault ≡ StoreAuditFault.Memory };

    fn from(_fault: NoMemory) -> Self {
        StoreAuditFault::Memory
    }
}
