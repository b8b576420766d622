use dots::Memory as NoMemory;
use thiserror::Error;

/// Why the script of events was not written to its end (this project's own).
#[derive(Clone, Copy, Debug, PartialEq, Eq, Error)]
pub enum EventsFault {
    /// The writer failed, or took no bytes. A prefix of the script was written.
    #[error("write failed")]
    Write,
    /// An allocation was refused. The lines of the first events were written.
    #[error("out of memory")]
    Memory,
}

impl From<NoMemory> for EventsFault {
    ghost use Rattle.std.specs.Prelude.{◌≡◌};
    ghost use Rattle.event_script.specs.declared.events_fault.EventsFault.{EventsFault};

    ghost from_gives = { λ _ fault. fault ≡ EventsFault.Memory };

    fn from(_fault: NoMemory) -> Self {
        EventsFault::Memory
    }
}
