use ami_text::FirstMessageSoFar;

// How many messages have ended in what a client sent.
#[derive(Clone, Copy)]
pub(crate) struct MessageCount {
    pub ended: u64,
    // How far the next message has come.
    next: FirstMessageSoFar,
}

impl MessageCount {
    // That of a client that has sent nothing.
    pub fn new() -> MessageCount {
        MessageCount {
            ended: 0,
            next: FirstMessageSoFar::new(),
        }
    }

    // The count after the client has sent the first `count` bytes of this piece too, or all of them if it has fewer.
    pub fn after(self, piece: &[u8], count: usize) -> MessageCount {
        let mut ended = self.ended;
        let mut next = self.next;
        let sent = piece.get(..count).unwrap_or(piece);
        for line in sent.split_inclusive(|byte| *byte == b'\n') {
            next = next.after(line);
            if next.has_ended() {
                ended = ended.saturating_add(1);
                next = FirstMessageSoFar::new();
            }
        }
        MessageCount { ended, next }
    }
}
