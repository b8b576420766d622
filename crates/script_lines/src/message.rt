//! The message that a script's line has for the site.
ghost use Rattle.std.specs.Prelude.{◌≡◌, ◌≢◌, ℕ, List, [], ◌++◌, None, Some, Ok};
ghost use Rattle.std.specs.Prelude.{IfOk, OnOk, OnErr, IfSome, codes};
ghost use Rattle.ami_session.specs.FieldValues.{Fields};
ghost use Rattle.ami_text.specs.Stream.{Gives, IsRest};
ghost use Rattle.script_lines.specs.ScriptLines.{IsMessage, stream_of};

use ami_text::laws::stream_has_one_outcome;
use ami_text::{Feed, FeedFault, Message, push_end};
use bstr::ByteSlice;
use dots::Memory;
use std::alloc::Global;

// The room in bytes that a stream has at first, beyond the bytes of its fields: most need no more.
const MORE_ROOM: usize = 16;

// Appends one line, with CR and LF after it. Fails only when out of memory, and may then leave a part.
fn push_line(stream: &mut Vec<u8>, line: &[u8]) -> Result<(), Memory>
    ensures { OnOk result (stream.new.items ≡ stream.old.items ++ line.now ++ codes "\r\n") }
{
    stream.extend_from_slice(line)?;
    stream.extend_from_slice(b"\r\n")
}

// The stream of `fields`: a line for each part between bars, and an empty line after them. Fails only when out of memory.
fn stream_of(alloc: Global, fields: &[u8]) -> Result<Vec<u8>, Memory>
    ensures { IfOk result (λ stream. stream.items ≡ stream_of fields.now) }
{
    let mut stream = Vec::with_capacity(alloc, fields.len() + MORE_ROOM)?;
    let mut rest = fields;
    'lines: while let Some(bar) = rest.find_byte(b'|') {
        push_line(&mut stream, &rest[..bar])?;
        rest = &rest[bar + 1..];
    }
    push_line(&mut stream, rest)?;
    push_end(&mut stream)?;
    Ok(stream)
}

// A feed that holds the stream of `fields`, which is fed at once. Fails only when out of memory.
fn feed_of(alloc: Global, fields: &[u8]) -> Result<Feed, Memory>
    ensures { IfOk result (λ feed. feed ≡ record { held = stream_of fields.now; fault = None }) }
{
    let stream = stream_of(alloc, fields)?;
    let mut feed = Feed::new(alloc);
    feed.feed(&stream)?;
    Ok(feed)
}

// No message if the stream has this fault; but out of memory, which is no fault of the stream, is returned as an error.
fn without_message(fault: FeedFault) -> Result<Option<Message>, Memory>
    ensures none { IfOk result (λ found. found ≡ None) }
    ensures stream { OnOk result (fault ≢ FeedFault.Memory) }
    ensures memory { OnErr result (fault ≡ FeedFault.Memory) }
{
    match fault {
        FeedFault::Memory => Err(Memory),
        FeedFault::LineTooLong | FeedFault::TooManyFields => Ok(None),
    }
}

// `message`, which the feed gave without a fault, if no other message and no fault follows; else `None`. Fails only when
// out of memory.
fn only_message(feed: Feed, message: Message) -> Result<Option<Message>, Memory>
    requires { feed.fault ≡ None }
    ensures one { IfOk result (λ found. IfSome found (λ only. only ≡ message)) }
    ensures rest { IfOk result (λ found. IfSome found
        (λ _. (rest : List ℕ) × Gives feed.held [] rest × IsRest rest)) }
    ensures none { result ≡ Ok None → (rest : List ℕ) → Gives feed.held [] rest → IsRest rest → ⊥ }
{
    let mut feed = feed;
    match feed.next_message() {
        Ok(None) => Ok(Some(message)),
        Ok(Some(_)) => Ok(None),
        Err(fault) => without_message(fault),
    }
}

/// The message whose lines stand between bars; `None` if they are not exactly one message. Fails only when out of
/// memory.
pub fn message_of(alloc: Global, fields: &[u8]) -> Result<Option<Message>, Memory>
    ensures one { IfOk result (λ found. IfSome found (λ message. IsMessage fields.now message)) }
    ensures none { result ≡ Ok None → (message : Fields) → IsMessage fields.now message → ⊥ }
{
    stream_has_one_outcome();
    let mut feed = feed_of(alloc, fields)?;
    match feed.next_message() {
        Ok(Some(message)) => only_message(feed, message),
        Ok(None) => Ok(None),
        Err(fault) => without_message(fault),
    }
}
