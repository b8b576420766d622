use thiserror::Error;

/// Why bytes are not those of a command with its answer. `decode_ask` reads them from left to right and returns the fault of the first part
/// that is at fault: `Truncated` if the bytes end within that part, whatever it holds.
#[derive(Clone, Copy, Debug, PartialEq, Eq, Error)]
pub enum AskFault {
    /// The bytes end before a part does.
    #[error("truncated")]
    Truncated,
    /// The first byte is the number of no kind of command.
    #[error("bad kind")]
    BadKind,
    /// A text has more than 80 bytes, or a CR, LF or NUL, or is a name of no bytes.
    #[error("bad text")]
    BadText,
    /// A penalty is above 2,147,483,647.
    #[error("bad number")]
    BadNumber,
    /// A bit is neither 0 nor 1.
    #[error("bad bit")]
    BadBit,
    /// The byte after the command is the number of no answer.
    #[error("bad answer")]
    BadAnswer,
    /// Bytes follow the answer.
    #[error("trailing bytes")]
    Trailing,
}
