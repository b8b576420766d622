use thiserror::Error;

/// Why an arena can't make room. If both causes apply, the first is returned.
#[derive(Clone, Copy, Debug, PartialEq, Eq, Error)]
pub enum ArenaFault {
    /// The values, the retired cells and the room that is asked for would together be more than 1,048,576 cells.
    #[error("too many cells")]
    Full,
    /// An allocation was refused.
    #[error("out of memory")]
    Memory,
}
