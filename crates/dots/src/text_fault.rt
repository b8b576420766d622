use thiserror::Error;

/// Why bytes are no short text, or no name. Where several faults apply, the first of this list is
/// returned.
#[derive(Clone, Copy, Debug, PartialEq, Eq, Error)]
pub enum TextFault {
    /// There are more than 80 bytes.
    #[error("more than 80 bytes")]
    TooLong,
    /// A byte is CR, LF or NUL.
    #[error("a CR, LF or NUL")]
    BadByte,
    /// There are no bytes, but a name needs one.
    #[error("no bytes")]
    Empty,
}
