use ask_code::AskFault;
use thiserror::Error;

/// Why a row stands for no step. Of several causes the first of this list is returned (this project's own).
#[derive(Clone, Copy, Debug, PartialEq, Eq, Error)]
pub enum RowFault {
    /// The kind of the row is that of no step.
    #[error("no step")]
    BadKind,
    /// The body is no command with its answer, for this cause.
    #[error(transparent)]
    Ask(AskFault),
    /// The body is a command that was refused.
    #[error("refused command")]
    NotDone,
    /// An allocation was refused.
    #[error("out of memory")]
    Memory,
}

impl From<dots::Memory> for RowFault {
    ghost use Rattle.std.specs.Prelude.{◌≡◌};
    ghost use Rattle.stored_steps.specs.declared.row_fault.RowFault.{RowFault};

    ghost from_gives = { λ _ fault. fault ≡ RowFault.Memory };

    fn from(_fault: dots::Memory) -> Self {
        RowFault::Memory
    }
}
