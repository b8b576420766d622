use thiserror::Error;

/// Why a desk isn't closed (this project's own).
#[derive(Clone, Copy, Debug, PartialEq, Eq, Error)]
pub enum CloseFault {
    /// The passes aren't exactly the desk's own, each once.
    #[error("wrong passes")]
    WrongPasses,
}
