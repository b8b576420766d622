use crate::Refusal;
use thiserror::Error;

/// Why a hello ends without a link (this project's own).
#[derive(Clone, Copy, Debug, PartialEq, Eq, Error)]
pub enum HelloFault {
    /// The source failed, or ended, or gave too few bytes in 16 reads of one part of a message.
    #[error("no hello came")]
    Silent,
    /// The sink failed.
    #[error("the connection failed")]
    NotSent,
    /// What came doesn't begin with the letters of this protocol.
    #[error("another protocol")]
    OtherProtocol,
    /// The other site speaks another version of the protocol, which is named.
    #[error("version {0} of the protocol")]
    OtherVersion(u8),
    /// The other site's code isn't that of this secret.
    #[error("wrong secret")]
    WrongSecret,
    /// This site refuses the other one's card.
    #[error("{0}")]
    Refuses(Refusal),
    /// The other site refuses this one's card, or its code.
    #[error("refused there: {0}")]
    IsRefused(Refusal),
}
