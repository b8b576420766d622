ghost use Rattle.std.specs.Prelude.{◌≡◌, Some, None, true, false, codes, IfOk, OnOk, OnErr};
ghost use Rattle.std.specs.Prelude.{MatchResult, if◌then◌else◌};
ghost use Rattle.ami_session.specs.Actions.{AsksBy, absent_in, row_of, says_yes, unread_in};
ghost use Rattle.ami_session.specs.FieldValues.{id_of};
ghost use Rattle.ami_session.specs.Replies.{reply};
ghost use Rattle.ami_session.specs.Checks.{accepts, Replies, Ends, login_reaction, named_reaction};
ghost use Rattle.ami_session.specs.Checks.{reaction, reaction_to, after, after_action};
ghost use Rattle.ami_session.specs.Checks.{fewer_tries, is_last_try};
ghost use Rattle.ami_session.specs.Text.{own_greeting};
ghost use Rattle.ami_session.specs.Views.{reaction_of};

use crate::action::Action;
use crate::fields::{
    Unreadable, action_id, queue_add, queue_member_ring_in_use, queue_pause, queue_penalty,
    queue_remove, queue_status, says_yes, text_at,
};
use crate::reply::{Response, field_error, message_reply};
use crate::values::{is_same_text, is_word};
use crate::{Act, Pending};
use ami_text::Message;
use dots::{Bytes, Memory, Text80};
use status_report::Ask;
use std::alloc::Global;
use std::marker::Model;

// Who may log in.
#[derive(Drop)]
struct Credentials {
    user: Text80,
    secret: Text80,
}

// The default greeting, without the line's end.
const GREETING: &[u8] = b"Queue Sites Call Manager/1.0.0";

/// One client's session (Asterisk's Manager Interface): how it greets, whether it is logged in, and who may log in.
#[derive(Drop)]
pub struct Session {
    // `None` for the default greeting.
    greeting: Option<Text80>,
    // `None` if every Login is accepted.
    credentials: Option<Credentials>,
    logged_in: bool,
    // The number of further refused Logins with which it ends; `None` if it never ends so.
    tries: Option<u32>,
}

impl Model for Session {
    ghost use Rattle.ami_session.specs.Checks.{SessionState};

    ghost Value = { SessionState };

    ghost use Rattle.std.specs.Prelude.{unwrap_or};
    ghost use Rattle.ami_session.specs.Logins.{login_of};
    ghost use Rattle.ami_session.specs.Text.{own_greeting};

    ghost view = { λ s. record {
      greeting = unwrap_or s.greeting own_greeting;
      login = login_of s.credentials;
      logged_in = s.logged_in;
      tries = s.tries;
    } };
}

// The reply with this error. It fails only when out of memory.
fn error(alloc: Global, id: &Bytes, text: &str) -> Result<Act, Memory>
    ensures { IfOk result
        (λ act. reaction_of act ≡ Replies (reply (codes "Error") id.now text.now)) }
{
    let bytes = message_reply(alloc, Response::Error, id, text.as_bytes())?;
    Ok(Act::Reply(bytes))
}

// The reply that ends a session. It fails only when out of memory.
fn goodbye(alloc: Global, id: &Bytes) -> Result<Act, Memory>
    ensures { IfOk result
        (λ act. reaction_of act
        ≡ Ends (reply (codes "Goodbye") id.now (codes "Thanks for all the fish."))) }
{
    let bytes = message_reply(alloc, Response::Goodbye, id, b"Thanks for all the fish.")?;
    Ok(Act::End(bytes))
}

// The ask of an action. `Err`: the first field that can't be read.
fn ask_of(action: Action, message: &Message, paused: bool, id: Bytes) -> Result<Ask, Unreadable>
    requires id { id ≡ id_of message.now }
    requires paused { paused ≡ says_yes (codes "Paused") message.now }
    requires none_absent { absent_in (row_of action) message.now ≡ None }
    ensures { MatchResult result
        (λ ask. AsksBy (row_of action) message.now ask)
        (λ name. unread_in (row_of action) message.now ≡ Some name.now) }
{
    match action {
        Action::QueueAdd => queue_add(message, paused).map(Ask::Command),
        Action::QueueRemove => queue_remove(message).map(Ask::Command),
        Action::QueuePause => queue_pause(message, paused).map(Ask::Command),
        Action::QueuePenalty => queue_penalty(message).map(Ask::Command),
        Action::QueueMemberRingInUse => queue_member_ring_in_use(message).map(Ask::Command),
        Action::QueueStatus => queue_status(message, id).map(Ask::Status),
    }
}

// The reaction to a message of a known action: the ask of the site, or else an error, for the first required field that is absent, or the
// first field that can't be read. It fails only when out of memory.
fn asked(alloc: Global, action: Action, message: &Message, id: Bytes) -> Result<Act, Memory>
    requires { id ≡ id_of message.now }
    ensures { IfOk result (λ act. reaction_of act ≡ named_reaction (Some action) message.now) }
{
    if let Some(name) = action.missing(message) {
        let bytes = field_error(alloc, &id, "'", name, "' not specified.")?;
        return Ok(Act::Reply(bytes));
    }
    let paused = says_yes(message, "Paused");
    match ask_of(action, message, paused, id.copy()?) {
        Ok(ask) => Ok(Act::Ask(ask, Pending::new(action, paused, id))),
        Err(name) => {
            let bytes = field_error(alloc, &id, "Field not valid: ", name, "")?;
            Ok(Act::Reply(bytes))
        }
    }
}

impl Session {
    /// A session that isn't logged in, for this user and secret; no client can send one that is no login word (`is_login_word`). Refused
    /// Logins don't end it. It greets with `Queue Sites Call Manager/1.0.0`.
    pub fn new(user: Text80, secret: Text80) -> Session
        ensures { result ≡ record {
          greeting = own_greeting;
          login = Some (record { user = user; secret = secret });
          logged_in = false;
          tries = None;
        } }
    {
        Session {
            greeting: None,
            credentials: Some(Credentials { user, secret }),
            logged_in: false,
            tries: None,
        }
    }

    /// A session that needs no Login, and accepts every one. It greets with `Queue Sites Call Manager/1.0.0`.
    pub fn trusted() -> Session
        ensures { result ≡ record {
          greeting = own_greeting;
          login = None;
          logged_in = true;
          tries = None;
        } }
    {
        Session {
            greeting: None,
            credentials: None,
            logged_in: true,
            tries: None,
        }
    }

    /// The session that greets with this line instead: some clients accept only a server that calls itself
    /// `Asterisk Call Manager/` with a version (Asterisk's greeting).
    pub fn with_greeting(self, greeting: Text80) -> Session
        ensures { result ≡ record self { greeting = greeting } }
    {
        Session {
            greeting: Some(greeting),
            credentials: self.credentials,
            logged_in: self.logged_in,
            tries: self.tries,
        }
    }

    /// The session that ends with the reply to its `tries`th refused Login. 0 counts as 1.
    pub fn with_tries(self, tries: u32) -> Session
        ensures { result ≡ record self { tries = Some tries } }
    {
        Session {
            greeting: self.greeting,
            credentials: self.credentials,
            logged_in: self.logged_in,
            tries: Some(tries),
        }
    }

    /// Whether its client has logged in.
    pub fn is_logged_in(&self) -> bool
        ensures { result ≡ self.now.logged_in }
    {
        self.logged_in
    }

    /// The number of further refused Logins with which it ends; `None` if refused Logins don't end it.
    pub fn tries(&self) -> Option<u32>
        ensures { result ≡ self.now.tries }
    {
        self.tries
    }

    /// The line that greets its client, without the line's end.
    pub fn greeting(&self) -> &[u8]
        ensures { result.now ≡ self.now.greeting }
    {
        match &self.greeting {
            None => GREETING,
            Some(greeting) => greeting.as_bytes(),
        }
    }

    // Whether user and secret are the session's, byte by byte; an absent one counts as empty. A trusted session accepts all. Compares
    // both to their ends, so that the time that it takes doesn't show how many bytes of them are right.
    fn accepts(&self, message: &Message) -> bool
        ensures { result ≡ accepts self.now.login message.now }
    {
        match &self.credentials {
            None => true,
            Some(Credentials { user, secret }) => {
                is_same_text(text_at(message, "Username"), user.as_bytes())
                    & is_same_text(text_at(message, "Secret"), secret.as_bytes())
            }
        }
    }

    // The reply to a refused Login, which uses up a try. It ends the session if that was the last.
    fn refuse(&mut self, reply: Vec<u8>) -> Act
        ensures reaction { reaction_of result ≡ (if is_last_try self.old.tries then Ends reply.items
            else Replies reply.items) }
        ensures after { self.new ≡ record self.old { tries = fewer_tries self.old.tries } }
    {
        let is_last = matches!(self.tries, Some(0 | 1));
        self.tries = self.tries.map(|tries| tries.saturating_sub(1));
        if is_last {
            Act::End(reply)
        } else {
            Act::Reply(reply)
        }
    }

    // The reaction to a Login: accepted, or an error, which uses up a try. Fails only when out of memory, and then the session stays as it
    // was.
    fn login(&mut self, alloc: Global, message: &Message, id: &Bytes) -> Result<Act, Memory>
        requires { id.now ≡ id_of message.now }
        ensures reaction { IfOk result
            (λ act. reaction_of act ≡ login_reaction self.old message.now) }
        ensures accepted { OnOk result
            (accepts self.old.login message.now ≡ true
            → self.new ≡ record self.old { logged_in = true }) }
        ensures refused { OnOk result
            (accepts self.old.login message.now ≡ false
            → self.new ≡ record self.old { tries = fewer_tries self.old.tries }) }
        ensures err { OnErr result (self.new ≡ self.old) }
    {
        if !self.accepts(message) {
            let bytes = message_reply(alloc, Response::Error, id, b"Authentication failed")?;
            return Ok(self.refuse(bytes));
        }
        let bytes = message_reply(alloc, Response::Success, id, b"Authentication accepted")?;
        self.logged_in = true;
        Ok(Act::Reply(bytes))
    }

    // The session's reaction to a message of this action. Fails only when out of memory, and then the session stays as it was.
    fn react(
        &mut self,
        alloc: Global,
        message: &Message,
        name: &[u8],
        id: Bytes,
    ) -> Result<Act, Memory>
        requires { id ≡ id_of message.now }
        ensures reaction { IfOk result
            (λ act. reaction_of act ≡ reaction_to self.old message.now (Some name.now)) }
        ensures after { OnOk result (self.new ≡ after_action self.old message.now (Some name.now)) }
        ensures err { OnErr result (self.new ≡ self.old) }
    {
        if is_word(name, b"Logoff") {
            return goodbye(alloc, &id);
        }
        if is_word(name, b"Login") {
            return self.login(alloc, message, &id);
        }
        if !self.logged_in {
            return error(alloc, &id, "Permission denied");
        }
        match Action::named(name) {
            None => error(alloc, &id, "Invalid/unknown command"),
            Some(action) => asked(alloc, action, message, id),
        }
    }

    /// Returns the session's reaction to a message. The checks, in order:
    ///
    /// 1. A message with no `Action` is an error.
    /// 2. `Logoff` ends the session.
    /// 3. `Login` is accepted if user and secret are the session's. Otherwise it is an error and uses up a try (`with_tries`); the
    ///    last try ends the session.
    /// 4. Before a Login every other action is an error.
    /// 5. An unknown action is an error.
    /// 6. A required field that is absent is an error, and then a field that can't be read.
    /// 7. Otherwise the session asks the site.
    ///
    /// Fails only with `Memory`, which leaves the session as it was.
    pub fn handle(&mut self, alloc: Global, message: &Message) -> Result<Act, Memory>
        ensures reaction { IfOk result (λ act. reaction_of act ≡ reaction self.old message.now) }
        ensures after { OnOk result (self.new ≡ after self.old message.now) }
        ensures err { OnErr result (self.new ≡ self.old) }
    {
        let id = action_id(alloc, message)?;
        match message.get(b"Action") {
            None => error(alloc, &id, "Missing action in request"),
            Some(name) => self.react(alloc, message, name, id),
        }
    }
}
