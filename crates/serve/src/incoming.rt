//! Reads a client's messages as they are needed.
ghost use Rattle.std.specs.Prelude.{◌≡◌, ◌≤◌, ◌<◌, ◌+◌, [], None, Ok, true, false, IfOk, IfSome};
ghost use Rattle.ami_text.specs.Devices.{HasEnded};
ghost use Rattle.serve.specs.Steps.{HasCome, HasRead, IsHeld, MayRead, StandsFirst, bytes_ahead};

use crate::ServeFault;
use ami_text::laws::messages_so_far;
use ami_text::{Feed, Message, Source};
use std::alloc::Global;

// The most bytes that one read returns.
const PIECE: usize = 1024;

// The most reads of a session; after them it counts as having no end.
const MOST_READS: u32 = 1_000_000;

/// The bytes of a client's stream that belong to no message yet, and the number of reads left.
#[derive(Drop)]
pub struct Incoming {
    pub feed: Feed,
    pub reads: u32,
}

impl Incoming {
    /// A stream of which nothing was read.
    pub fn new(alloc: Global) -> Incoming
        ensures feed { result.feed ≡ record { held = []; fault = None } }
        ensures reads { result.reads ≡ 1000000 }
    {
        Incoming {
            feed: Feed::new(alloc),
            reads: MOST_READS,
        }
    }
}

// Reads once, at most 1,024 bytes, and holds them, which uses up one of the reads left. Returns `false`, and uses up none, where the
// stream has ended. Errors, in order: `Turns`, if no read is left; `Read`, if the read fails; `Memory`, after which what is held is
// unspecified.
fn read_piece<S: Source>(reader: &mut S, incoming: &mut Incoming) -> Result<bool, ServeFault>
    requires reading { MayRead (S.failed reader.old) (S.ended reader.old) incoming.old }
    ensures come { HasCome (S.left reader.old) (S.left reader.new) incoming.old.feed.held
        incoming.old.reads incoming.new.reads
        (IsHeld result incoming.old.feed.held incoming.new.feed.held) }
    ensures more { result ≡ Ok true → (incoming.new.reads + 1 ≡ incoming.old.reads)
        × (bytes_ahead incoming.new.reads incoming.new.feed.held
        ≤ bytes_ahead incoming.old.reads incoming.old.feed.held) }
    ensures counted { result ≡ Ok true → S.reads_left reader.old + incoming.new.reads
        ≤ S.reads_left reader.new + incoming.old.reads }
    ensures goes_on { result ≡ Ok true → S.ended reader.new ≡ false }
    ensures ended { result ≡ Ok false → HasEnded (S.ended reader.new) (S.left reader.new) }
    ensures has_read { HasRead (S.reads_left reader.old) (S.reads_left reader.new)
        (S.failed reader.new) (S.ended reader.new) incoming.old incoming.new result }
{
    if incoming.reads == 0 {
        return Err(ServeFault::Turns);
    }
    let mut piece = [0u8; PIECE];
    let count = match reader.read(&mut piece) {
        Ok(count) => count,
        Err(_) => return Err(ServeFault::Read),
    };
    if count == 0 {
        return Ok(false);
    }
    incoming.reads -= 1;
    match incoming.feed.feed(&piece[..count]) {
        Ok(()) => Ok(true),
        Err(_) => Err(ServeFault::Memory),
    }
}

/// The client's next message, read as far as needed; `None` at the end of the client's stream. It may be called again only after a
/// message (`reading`).
///
/// Errors, each as it occurs: `LineTooLong` and `TooManyFields`, if the stream has them next; `Turns`, if no read is left; `Read`, if one
/// fails; `Memory`.
pub fn next_message<S: Source>(
    reader: &mut S,
    incoming: &mut Incoming,
) -> Result<Option<Message>, ServeFault>
    requires reading { MayRead (S.failed reader.old) (S.ended reader.old) incoming.old }
    ensures come { HasCome (S.left reader.old) (S.left reader.new) incoming.old.feed.held
        incoming.old.reads incoming.new.reads
        (StandsFirst result incoming.old.feed.held incoming.new.feed.held) }
    ensures counted { IfOk result (λ next. IfSome next (λ _.
        S.reads_left reader.old + incoming.new.reads
        ≤ S.reads_left reader.new + incoming.old.reads)) }
    ensures goes_on { IfOk result (λ next. IfSome next (λ _.
        incoming.new.reads < 1000000 → S.ended reader.new ≡ false)) }
    ensures ended { result ≡ Ok None → HasEnded (S.ended reader.new) (S.left reader.new) }
    ensures has_read { HasRead (S.reads_left reader.old) (S.reads_left reader.new)
        (S.failed reader.new) (S.ended reader.new) incoming.old incoming.new result }
    ensures shorter { IfOk result (λ next. IfSome next (λ _.
        bytes_ahead incoming.new.reads incoming.new.feed.held
        < bytes_ahead incoming.old.reads incoming.old.feed.held)) }
{
    messages_so_far();
    'pieces: loop {
        if let Some(message) = incoming.feed.next_message()? {
            return Ok(Some(message));
        }
        if !read_piece(reader, incoming)? {
            return Ok(None);
        }
    }
}
