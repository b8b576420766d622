//! Whether a stream has had a whole message, found byte by byte.
ghost use Rattle.std.specs.Prelude.{◌≡◌, ◌++◌, [], List, ℕ, ◌↔◌, IsTrue};
ghost use Rattle.ami_text.specs.FirstMessages.{HasSent, IsEnded, after_content, after_end};
ghost use Rattle.ami_text.specs.FirstMessages.{line_after, message_after};

/// The part read so far of a line whose LF wasn't read yet.
#[derive(Clone, Copy)]
pub enum LineSoFar {
    /// Nothing.
    Empty,
    /// One CR, which belongs to the line's end if LF is next.
    Cr,
    /// Some content.
    Full,
}

impl LineSoFar {
    // The state after one more byte, which isn't LF.
    fn after(self, byte: u8) -> LineSoFar
        ensures { result ≡ line_after self byte }
    {
        match self {
            LineSoFar::Empty if byte == b'\r' => LineSoFar::Cr,
            _ => LineSoFar::Full,
        }
    }
}

/// The progress of a stream with its first message. An empty line after one with content ends the
/// message, even if a feed ignores its lines; there are no limits of lines and messages. Keeps none
/// of the bytes.
#[derive(Clone, Copy)]
pub enum FirstMessageSoFar {
    /// No line with content has ended; the part read so far of the next line.
    Awaited(LineSoFar),
    /// A line with content has ended, and no empty line after it; the part read so far of the next
    /// line.
    Begun(LineSoFar),
    /// The message has ended.
    Ended,
}

impl FirstMessageSoFar {
    /// The state of an empty stream.
    pub fn new() -> FirstMessageSoFar
        ensures { HasSent [] result }
    {
        FirstMessageSoFar::Awaited(LineSoFar::Empty)
    }

    /// Whether the message has ended.
    pub fn has_ended(self) -> bool
        ensures { IsTrue result ↔ IsEnded self }
    {
        match self {
            FirstMessageSoFar::Ended => true,
            FirstMessageSoFar::Awaited(_) | FirstMessageSoFar::Begun(_) => false,
        }
    }

    // The state after the end of a line.
    fn after_end(self) -> FirstMessageSoFar
        ensures { result ≡ after_end self }
    {
        match self {
            FirstMessageSoFar::Awaited(LineSoFar::Full) => FirstMessageSoFar::Begun(
                LineSoFar::Empty,
            ),
            FirstMessageSoFar::Awaited(_) => FirstMessageSoFar::Awaited(LineSoFar::Empty),
            FirstMessageSoFar::Begun(LineSoFar::Full) => FirstMessageSoFar::Begun(LineSoFar::Empty),
            FirstMessageSoFar::Begun(_) => FirstMessageSoFar::Ended,
            FirstMessageSoFar::Ended => FirstMessageSoFar::Ended,
        }
    }

    // The state after one more byte, which isn't LF.
    fn after_content(self, byte: u8) -> FirstMessageSoFar
        ensures { result ≡ after_content self byte }
    {
        match self {
            FirstMessageSoFar::Awaited(line) => FirstMessageSoFar::Awaited(line.after(byte)),
            FirstMessageSoFar::Begun(line) => FirstMessageSoFar::Begun(line.after(byte)),
            FirstMessageSoFar::Ended => FirstMessageSoFar::Ended,
        }
    }

    // The state after one more byte.
    fn after_byte(self, byte: u8) -> FirstMessageSoFar
        ensures { result ≡ message_after self byte }
    {
        if byte == b'\n' {
            self.after_end()
        } else {
            self.after_content(byte)
        }
    }

    /// The state of the stream after these bytes, whatever was before them.
    pub fn after(self, bytes: &[u8]) -> FirstMessageSoFar
        ensures { (sent : List ℕ) → HasSent sent self → HasSent (sent ++ bytes.now) result }
    {
        let mut message = self;
        for byte in bytes {
            message = message.after_byte(*byte);
        }
        message
    }
}
