ghost use Rattle.std.specs.Prelude.{◌≡◌, ◌*◌, IsSomeAnd, None, false};
ghost use Rattle.std.specs.Duration.{as_nanos};
ghost use Rattle.serving_clients.specs.ServedClients.{session_of};
ghost use Rattle.serving_clients.specs.declared.place_count.TheConstants.{PLACES};

use crate::PlaceCount;
use ami_session::Session;
use dots::Text80;
use std::time::Duration;

/// How long a client may take to log in, and may read too little, in seconds.
pub const PATIENCE_SECONDS: u64 = 30;

/// With how many refused logins a session ends.
pub const LOGIN_TRIES: u32 = 5;

/// How long a client may be silent where nothing else is set, in seconds.
pub const IDLE_SECONDS: u64 = 3_600;

/// Who may log in, how many clients a site answers at once, how they are greeted, and the times that they must keep (this project's own).
#[derive(Drop)]
pub struct SessionSettings {
    /// Who may log in.
    pub user: Text80,
    /// The user's secret.
    pub secret: Text80,
    /// How many clients a site answers at once; further ones wait, in order.
    pub places: PlaceCount,
    /// The line that greets a client. `None`: the line of `ami_session`.
    pub greeting: Option<Text80>,
    /// How long a client may take from its connection until it has logged in, whatever it sends.
    pub login: Duration,
    /// How long a client may be silent while the server waits for it. `None`: without end. 0: each session ends after its greeting.
    pub idle: Option<Duration>,
    /// A client is given up that reads fewer than 4,096 bytes in this time, while the server waits to write to it. A time under 100
    /// microseconds counts as 100 microseconds.
    pub write: Duration,
    /// Whether clients that log in, and those of them that leave, are logged.
    pub is_verbose: bool,
}

// A copy of a text, if there is one.
fn copy_of(text: &Option<Text80>) -> Option<Text80>
    ensures { result ≡ text.now }
{
    match text {
        None => None,
        Some(text) => Some(text.copy()),
    }
}

impl SessionSettings {
    /// Sessions for this user and secret, `PLACES` at once, with the greeting of `ami_session`. A client has 30 seconds to log in, may be
    /// silent for `IDLE_SECONDS`, and may read too little for 30 seconds. They are not verbose.
    pub fn new(user: Text80, secret: Text80) -> SessionSettings
        ensures user { result.user ≡ user }
        ensures secret { result.secret ≡ secret }
        ensures places { result.places ≡ PLACES }
        ensures greeting { result.greeting ≡ None }
        ensures login { as_nanos result.login ≡ 30_000_000_000 }
        ensures idle { IsSomeAnd result.idle (λ time.
            as_nanos time ≡ IDLE_SECONDS * 1_000_000_000) }
        ensures write { as_nanos result.write ≡ 30_000_000_000 }
        ensures is_verbose { result.is_verbose ≡ false }
    {
        SessionSettings {
            user,
            secret,
            places: PlaceCount::usual(),
            greeting: None,
            login: Duration::from_secs(PATIENCE_SECONDS),
            idle: Some(Duration::from_secs(IDLE_SECONDS)),
            write: Duration::from_secs(PATIENCE_SECONDS),
            is_verbose: false,
        }
    }

    /// A copy of the settings. It allocates nothing.
    pub fn copy(&self) -> SessionSettings
        ensures { result ≡ self.now }
    {
        SessionSettings {
            user: self.user.copy(),
            secret: self.secret.copy(),
            places: self.places,
            greeting: copy_of(&self.greeting),
            login: self.login,
            idle: self.idle,
            write: self.write,
            is_verbose: self.is_verbose,
        }
    }

    // The session of a client that has just connected.
    pub(crate) fn session(&self) -> Session
        ensures { result ≡ session_of self.now }
    {
        let session = Session::new(self.user.copy(), self.secret.copy()).with_tries(LOGIN_TRIES);
        match &self.greeting {
            None => session,
            Some(greeting) => session.with_greeting(greeting.copy()),
        }
    }
}
