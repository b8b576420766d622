//! Laws of a session's text. The functions have no body but other laws: their contracts are the laws.
ghost use Rattle.std.specs.Prelude.{◌≡◌, ℕ, List};
ghost use Rattle.status_report.specs.declared.asks.Answer.{Answer};
ghost use Rattle.replica.specs.declared.command.Command.{Command};
ghost use Rattle.replica.specs.Changes.{change_of};
ghost use Rattle.replica.specs.Promises.{IsChange};
ghost use Rattle.status_report.specs.declared.asks.Ask.TheVariants.{Command as asked_command};
ghost use Rattle.ami_session.specs.Checks.{Asks, SessionState, Waiting, reaction};
ghost use Rattle.ami_session.specs.FieldValues.{Fields};
ghost use Rattle.ami_session.specs.Text.{AreOf, IsFrontOfLonger, IsFrontOfMore, NothingFollows};
ghost use Rattle.ami_session.specs.Text.{SameText};

use ami_text::laws::{stream_has_one_outcome, stream_of_two_pieces};

/// After a message that ends a session no further message has an effect on its text or its asks (this project's own).
pub fn nothing_follows_a_logoff()
    ensures { (s : SessionState) (before : List Fields) (last : Fields)
        → NothingFollows s before last }
{}

/// A session's text for a list of answers is a prefix of its text for a longer list.
pub fn text_grows_with_the_answers()
    ensures { (s : SessionState) (messages : List Fields) (answers more : List Answer)
        → IsFrontOfMore s messages answers more }
{}

/// A session's text for a list of messages is a prefix of its text for a longer list.
pub fn text_grows_with_the_messages()
    ensures { (s : SessionState) (messages more : List Fields) (answers : List Answer)
        → IsFrontOfLonger s messages more answers }
{}

/// A stream has one text: that of its messages up to the first that ends the session, or of all of them, however its
/// bytes are cut, and whatever follows that message.
pub fn a_stream_has_one_text()
    ensures { (s : SessionState) (bytes : List ℕ) (messages others : List Fields)
        → AreOf s bytes messages → AreOf s bytes others → SameText s messages others }
{
    stream_has_one_outcome();
    stream_of_two_pieces();
}

/// The values of a command that a message asks of the site are within their limits, since its fields were read.
pub fn what_a_message_asks_is_within_limits()
    ensures { (s : SessionState) (message : Fields) (command : Command) (waiting : Waiting)
        → reaction s message ≡ Asks (asked_command command) waiting
        → IsChange (change_of command) }
{}
