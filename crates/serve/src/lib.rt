//! Manager sessions from their first byte to the last, over any reader, writer and desk.
//!
//! A [`Desk`] answers asks. [`serve`] reads a client's messages, sends their asks to the desk, and
//! writes the replies, whatever the devices do.
#![tactic(auto)]

ghost use Rattle.std.specs.Prelude.{◌≡◌, ◌≤◌, ◌+◌, false, IfErr, OnOk, IsErrOf};
ghost use Rattle.ami_text.specs.Devices.{HasGiven, HasGivenUpTo};
ghost use Rattle.serve.specs.Desks.{HasWorked};
ghost use Rattle.serve.specs.Faults.{FailsWith};
ghost use Rattle.serve.specs.Sessions.{HasCarried, IsLeftBy, IsServed};

mod desk;
mod incoming;
pub mod laws;
mod replica_desk;
mod replying;
mod serve_fault;
mod session_watch;

use crate::incoming::{Incoming, next_message};
use crate::replying::{answer_message, greet};
use ami_session::Session;
use ami_text::laws::{messages_so_far, stream_of_two_pieces};
use ami_text::{Sink, Source};
pub use desk::{Desk, DeskDown};
pub use replica_desk::ReplicaDesk;
pub use serve_fault::ServeFault;
pub use session_watch::{NoWatch, SessionWatch};
use std::alloc::Global;

/// Serves one client to the end of its session. It writes the session's greeting, reads the
/// client's bytes in pieces of at most 1,024, at most 1,000,000 times, and replies to each message
/// in turn, from the session alone or with the desk's answer (the messages and replies are
/// Asterisk's Manager Interface, the limits this project's own). It writes all replies that are due
/// before the next read. The watch sees the session after each reply.
///
/// Returns `Ok` after the reply to a message that ends the session (a Logoff, or a refused Login
/// with the last try), or where the reader has ended. Bytes after such a message have no effect,
/// and the only ones that are read are those of its last piece. It terminates if the desk's calls
/// and the watch's do.
///
/// Errors, each as it occurs: `Read` if the reader failed; `Write` if the writer failed, or took
/// none of bytes that aren't empty; `LineTooLong` and `TooManyFields` if the client's stream has
/// them, after the replies to the messages before, and nothing is read after the piece that shows
/// them; `DeskDown` if the desk gave no answer; `Turns` if 1,000,000 reads gave no end; `Memory`,
/// if the session itself is out of memory. The bytes written are then a prefix of the session's
/// text, and except after `Write` they end with its greeting or a whole reply.
pub fn serve<R, S: Source, W: Sink, D: Desk<R>, V: SessionWatch<R>>(
    rt: &R,
    alloc: Global,
    reader: &mut S,
    writer: &mut W,
    mut session: Session,
    desk: &mut D,
    watch: &mut V,
) -> Result<(), ServeFault>
    requires reader { S.failed reader.old ≡ false }
    requires writer { W.failed writer.old ≡ false }

    // The session's text was written, for the bytes that were read and the desk's answers; after a
    // fault a prefix of it.
    ensures served { OnOk result (HasCarried (S.left reader.old) (S.left reader.new)
        (W.taken writer.old) (W.taken writer.new)
        (IsServed D.answers session desk.old desk.new (S.ended reader.new) (S.left reader.new))) }
    ensures left { IfErr result (λ fault. HasCarried (S.left reader.old) (S.left reader.new)
        (W.taken writer.old) (W.taken writer.new)
        (IsLeftBy D.answers D.refuses session desk.old desk.new fault)) }

    // `Read` and `Write` are returned exactly where their device has failed, and the third only
    // where its cause applies; the clauses above state the faults of the stream and of the desk.
    ensures reader { FailsWith ServeFault.Read result (S.failed reader.new) }
    ensures writer { FailsWith ServeFault.Write result (W.failed writer.new) }
    ensures turns { IsErrOf result ServeFault.Turns → (S.ended reader.new ≡ false)
        × HasGiven (S.left reader.old) (S.left reader.new) 1000000 }

    // A session reads at most 1,000,000 times, and so at most 1,024,000,000 bytes.
    ensures reads { S.reads_left reader.old ≤ S.reads_left reader.new + 1000000 }
    ensures bytes { HasGivenUpTo (S.left reader.old) (S.left reader.new) 1024000000 }

    // The desk has answered asks, and may have refused one more.
    ensures desk { HasWorked D.answers D.refuses desk.old desk.new }
{
    messages_so_far();
    stream_of_two_pieces();
    greet(writer, &session).map_err(|_| ServeFault::Write)?;
    let mut incoming = Incoming::new(alloc);
    'messages: loop {
        let Some(message) = next_message(reader, &mut incoming)? else {
            return Ok(());
        };
        let ends = answer_message(rt, alloc, &mut session, writer, desk, &message)?;
        watch.after_message(rt, &session);
        if ends {
            return Ok(());
        }
    }
}
