use thiserror::Error;

/// Why no frame was made. Where both causes apply, the first of this list is returned.
#[derive(Clone, Copy, Debug, PartialEq, Eq, Error)]
pub enum CutFault {
    /// The site has made 2^40 frames, so no number is left.
    #[error("numbers used up")]
    Exhausted,
    /// An allocation was refused.
    #[error("out of memory")]
    Memory,
}
