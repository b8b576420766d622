use crate::Pending;
use status_report::Ask;

/// A session's reaction to a message.
#[derive(Drop)]
pub enum Act {
    /// The session replies with these bytes.
    Reply(Vec<u8>),
    /// The session asks the site this. The reply follows from the answer.
    Ask(Ask, Pending),
    /// The session replies with these bytes, and ends.
    End(Vec<u8>),
}
