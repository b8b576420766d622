use thiserror::Error;

/// Why no frame is decoded from the front of bytes. They are read in order, and the first rule that fails gives the fault,
/// unless memory runs out before (this project's own).
#[derive(Clone, Copy, Debug, PartialEq, Eq, Error)]
pub enum DecodeFault {
    /// The bytes end before the frame does: more of them may follow.
    #[error("not all there")]
    Truncated,
    /// The two letters that follow each frame's length are missing.
    #[error("no frame")]
    BadMagic,
    /// The frame is of no version from `OLDEST_VERSION` to `VERSION`.
    #[error("unknown version")]
    BadVersion,
    /// A number, flags, or the frame's length is out of its range; a part reaches past the frame's end; a reason stands without
    /// a pause; both counts of a total are zero; a cell's dot is in no run; or bytes follow the last part.
    #[error("out of range")]
    BadRange,
    /// A run, a cell or a total doesn't follow the one before.
    #[error("out of order")]
    BadOrder,
    /// A text is too long or too short, or has a CR, LF or NUL.
    #[error("no text")]
    BadText,
    /// The frame's length, or its number of runs, cells or totals, is over its limit.
    #[error("too large")]
    TooLarge,
    /// An allocation was refused.
    #[error("out of memory")]
    Memory,
}
