//! Replies to messages: asks the desk, and writes the reply.
ghost use Rattle.std.specs.Prelude.{◌≡◌, true, false, IfOk, IfErr, OnOk, OnErr};
ghost use Rattle.std.specs.Io.KnownBytes.{Appends};
ghost use Rattle.ami_text.specs.Devices.{HasTaken};
ghost use Rattle.ami_session.specs.Checks.{Asks, after, reaction};
ghost use Rattle.ami_session.specs.Text.{greeting, is_end};
ghost use Rattle.ami_session.specs.Views.{reaction_of};
ghost use Rattle.serve.specs.Faults.{FailsWith};
ghost use Rattle.serve.specs.Steps.{IsPerformed};

use crate::{Desk, ServeFault};
use ami_session::{Act, Pending, Session};
use ami_text::{Failed, Message, Sink, write_all};
use status_report::{Answer, Ask};
use std::alloc::Global;

// Writes all the bytes. Error: `Write`, after a prefix of them.
fn write<W: Sink>(writer: &mut W, bytes: &[u8]) -> Result<(), ServeFault>
    requires { W.failed writer.old ≡ false }
    ensures written { OnOk result (Appends (W.taken writer.old) (W.taken writer.new) bytes.now) }
    ensures writer { FailsWith ServeFault.Write result (W.failed writer.new) }
    ensures fault { IfErr result (λ fault. fault ≡ ServeFault.Write) }
    ensures begun { OnErr result (HasTaken (W.taken writer.old) (W.taken writer.new) bytes.now) }
{
    write_all(writer, bytes).map_err(|_| ServeFault::Write)
}

/// Writes the session's greeting.
///
/// `Failed`: the sink failed, and has taken a prefix of it.
pub fn greet<W: Sink>(writer: &mut W, session: &Session) -> Result<(), Failed>
    requires { W.failed writer.old ≡ false }
    ensures written { OnOk result
        (Appends (W.taken writer.old) (W.taken writer.new) (greeting session.now)) }
    ensures works { OnOk result (W.failed writer.new ≡ false) }
    ensures fails { OnErr result (W.failed writer.new ≡ true) }
    ensures begun { OnErr result
        (HasTaken (W.taken writer.old) (W.taken writer.new) (greeting session.now)) }
{
    write_all(writer, session.greeting())?;
    write_all(writer, b"\r\n")
}

// Asks the desk, and writes the reply with its answer. A report is the reply, and isn't copied. Errors, in order: `DeskDown`, and nothing
// was written; `Memory`, after the answer, and nothing was written; `Write`, after a prefix of the reply.
fn answer_ask<R, W: Sink, D: Desk<R>>(
    rt: &R,
    alloc: Global,
    writer: &mut W,
    desk: &mut D,
    ask: Ask,
    pending: Pending,
) -> Result<(), ServeFault>
    requires { W.failed writer.old ≡ false }
    ensures performed { IsPerformed D.answers D.refuses (Asks ask pending) desk.old desk.new
        (W.taken writer.old) (W.taken writer.new) (W.failed writer.new) result }
{
    let answer = match desk.ask(rt, ask) {
        Ok(answer) => answer,
        Err(_) => return Err(ServeFault::DeskDown),
    };
    if let Answer::Report(report) = &answer {
        return write(writer, report.as_slice());
    }
    match pending.answer(alloc, answer) {
        Ok(reply) => write(writer, &reply),
        Err(_) => Err(ServeFault::Memory),
    }
}

// Performs a session's reaction to a message. Returns whether the session ends with it. Errors: `Write`, after a prefix of the reply; for
// an ask those of `answer_ask`.
fn perform<R, W: Sink, D: Desk<R>>(
    rt: &R,
    alloc: Global,
    writer: &mut W,
    desk: &mut D,
    act: Act,
) -> Result<bool, ServeFault>
    requires { W.failed writer.old ≡ false }
    ensures performed { IsPerformed D.answers D.refuses (reaction_of act) desk.old desk.new
        (W.taken writer.old) (W.taken writer.new) (W.failed writer.new) result }
    ensures ends { IfOk result (λ ends. ends ≡ is_end (reaction_of act)) }
{
    match act {
        Act::Reply(bytes) => {
            write(writer, &bytes)?;
            Ok(false)
        }
        Act::End(bytes) => {
            write(writer, &bytes)?;
            Ok(true)
        }
        Act::Ask(ask, pending) => {
            answer_ask(rt, alloc, writer, desk, ask, pending)?;
            Ok(false)
        }
    }
}

/// Replies to a message. Returns whether the session ends with it. `session` is then that after the message.
///
/// Errors, each as it occurs: `Memory`, before the ask or after its answer, and nothing was written; `DeskDown`, and nothing was written;
/// `Write`, after a prefix of the reply. The session is then as before or after the message.
pub fn answer_message<R, W: Sink, D: Desk<R>>(
    rt: &R,
    alloc: Global,
    session: &mut Session,
    writer: &mut W,
    desk: &mut D,
    message: &Message,
) -> Result<bool, ServeFault>
    requires { W.failed writer.old ≡ false }
    ensures performed { IsPerformed D.answers D.refuses (reaction session.old message.now)
        desk.old desk.new (W.taken writer.old) (W.taken writer.new) (W.failed writer.new)
        result }
    ensures ends { IfOk result (λ ends. ends ≡ is_end (reaction session.old message.now)) }
    ensures session { OnOk result (session.new ≡ after session.old message.now) }
{
    match session.handle(alloc, message) {
        Ok(act) => perform(rt, alloc, writer, desk, act),
        Err(_) => Err(ServeFault::Memory),
    }
}
