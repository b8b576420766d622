//! The replies: `Response`, then `ActionID` where the request has one, then `Message`.
ghost use Rattle.std.specs.Prelude.{◌≡◌, ◌++◌, codes, IfOk};
ghost use Rattle.ami_session.specs.Replies.{reply};
ghost use Rattle.ami_session.specs.Responses.{response_text};

use ami_text::{push_action_id_line, push_end, push_field};
use dots::{Bytes, Memory};
use std::alloc::Global;

// The room in bytes that a reply has at first; most replies have fewer bytes.
const FIRST_ROOM: usize = 128;

/// How a reply begins.
#[derive(Clone, Copy)]
pub enum Response {
    /// The command was done, or the request accepted.
    Success,
    /// The request failed.
    Error,
    /// The session ends.
    Goodbye,
}

impl Response {
    // The word of the field `Response`.
    fn text(self) -> &'static [u8]
        ensures { result.now ≡ response_text self }
    {
        match self {
            Response::Success => b"Success",
            Response::Error => b"Error",
            Response::Goodbye => b"Goodbye",
        }
    }
}

/// A reply with this message. Fails only when out of memory.
pub fn message_reply(
    alloc: Global,
    response: Response,
    action_id: &Bytes,
    message: &[u8],
) -> Result<Vec<u8>, Memory>
    ensures { IfOk result
        (λ out. out.items ≡ reply (response_text response) action_id.now message.now) }
{
    let mut out = Vec::with_capacity(alloc, FIRST_ROOM)?;
    push_field(&mut out, "Response", response.text())?;
    push_action_id_line(&mut out, action_id.as_slice())?;
    push_field(&mut out, "Message", message)?;
    push_end(&mut out)?;
    Ok(out)
}

/// An error about a field: the text before its name, the name, and the text after it. Fails only when out of
/// memory.
pub fn field_error(
    alloc: Global,
    action_id: &Bytes,
    before: &str,
    name: &str,
    after: &str,
) -> Result<Vec<u8>, Memory>
    ensures { IfOk result
        (λ out. out.items
        ≡ reply (codes "Error") action_id.now (before.now ++ name.now ++ after.now)) }
{
    let mut message = Vec::from_slice(alloc, before.as_bytes())?;
    message.extend_from_slice(name.as_bytes())?;
    message.extend_from_slice(after.as_bytes())?;
    message_reply(alloc, Response::Error, action_id, &message)
}
