//! The bytes that a client sends within its times.
ghost use Rattle.std.specs.Prelude.{◌≡◌, ◌<◌, ◌≤◌, ◌-◌, ◌==◌, ℕ, Bool, Option, IfOk, OnErr, OnOk};
ghost use Rattle.std.specs.Prelude.{false, length, true};
ghost use Rattle.std.specs.Time.{instant_nanos};
ghost use Rattle.std.specs.declared.time.Duration.{Duration};
ghost use Rattle.serving_clients.specs.ReadWaits.{IsReadWait};

use crate::SessionSettings;
use crate::client_log::Late;
use crate::deadlines::read_wait;
use crate::message_count::MessageCount;
use crate::timed_read::{StreamFault, TimedRead};
use ami_text::{Failed, Source};
use std::cell::Cell;
use std::time::{Clock, Duration, Instant};

// What a client sends over a stream. A read fails where the client is silent for longer than it may be, and where the time is over in which
// it must log in.
pub(crate) struct ClientSource<'a, 'c, R, S> {
    rt: &'a R,
    stream: &'a S,
    // The time at which the client was connected.
    connected: Instant,
    login: Duration,
    idle: Option<Duration>,
    is_logged_in: &'c Cell<bool>,
    // What it has sent.
    pub sent: MessageCount,
    // Why it is given up, once it is.
    pub late: Option<Late>,
    ended: bool,
    failed: bool,
}

impl<'a, 'c, R, S> Drop for ClientSource<'a, 'c, R, S> {
    // Drops nothing: what it has are copies and things that it has borrowed.
    fn drop(self) {
        let ClientSource {
            rt: _,
            stream: _,
            connected: _,
            login: _,
            idle: _,
            is_logged_in: _,
            sent: _,
            late: _,
            ended: _,
            failed: _,
        } = self;
    }
}

// Which time a client has not kept whose read waited for `wait`, as long as it may: the time to log in, if it hasn't logged in and that was
// the shorter one; else that for which it may be silent.
fn late_by(is_logged_in: bool, idle: Option<Duration>, wait: Option<Duration>) -> Late {
    if is_logged_in || wait == idle {
        Late::Silent
    } else {
        Late::Login
    }
}

impl<'a, 'c, R: Clock, S: TimedRead> ClientSource<'a, 'c, R, S> {
    // A source of what a client sends from now on, of which nothing was read. The cell holds whether it has logged in.
    pub fn new(
        rt: &'a R,
        stream: &'a S,
        connected: Instant,
        settings: &SessionSettings,
        is_logged_in: &'c Cell<bool>,
    ) -> ClientSource<'a, 'c, R, S>
        ensures connected { result.connected ≡ connected }
        ensures login { result.login ≡ settings.now.login }
        ensures idle { result.idle ≡ settings.now.idle }
        ensures failed { result.failed ≡ false }
    {
        ClientSource {
            rt,
            stream,
            connected,
            login: settings.login,
            idle: settings.idle,
            is_logged_in,
            sent: MessageCount::new(),
            late: None,
            ended: false,
            failed: false,
        }
    }

    // Reads once at this time, for as long as the client may be waited for then. Errors, in order: `Some`, the time that the client has not
    // kept; `None`, the stream failed.
    fn read_at(
        &self,
        is_logged_in: bool,
        now: Instant,
        piece: &mut [u8],
    ) -> Result<usize, Option<Late>>
        ensures count { IfOk result (λ n. n ≤ length piece.new) }
        ensures gives { IfOk result (λ n. (wait : Option Duration)
            × IsReadWait is_logged_in self.now.login self.now.idle
            (instant_nanos now - instant_nanos self.now.connected) wait
            × S.gives self.now.stream.now wait n piece.new) }
    {
        let passed = now.duration_since(self.connected);
        let Ok(wait) = read_wait(is_logged_in, self.login, self.idle, passed) else {
            return Err(Some(Late::Login));
        };
        match self.stream.read_within(wait, piece) {
            Ok(count) => Ok(count),
            Err(StreamFault::Late) => Err(Some(late_by(is_logged_in, self.idle, wait))),
            Err(StreamFault::Failed) => Err(None),
        }
    }

    // Reads once, and counts the messages that end in what was read. `Failed`: the client is given up, since the clock can't be read or it
    // has not kept a time, which is then in `late`; or the stream failed.
    fn read_more(&mut self, piece: &mut [u8]) -> Result<usize, Failed>
        requires { self.old.failed ≡ false }
        ensures count { IfOk result (λ n. n ≤ length piece.new) }
        ensures end { IfOk result (λ n. 0 < length piece.old → self.new.ended ≡ (n == 0)) }
        ensures no_room { OnOk result (length piece.old ≡ 0 → self.new.ended ≡ self.old.ended) }
        ensures works { OnOk result (self.new.failed ≡ false) }
        ensures fails { OnErr result (self.new.failed ≡ true) }
        ensures err_end { OnErr result (self.new.ended ≡ self.old.ended) }
        ensures gives { IfOk result (λ n. (logged_in : Bool) × (passed : ℕ)
            × (wait : Option Duration)
            × IsReadWait logged_in self.old.login self.old.idle passed wait
            × S.gives self.old.stream.now wait n piece.new) }
        ensures connected { self.new.connected ≡ self.old.connected }
        ensures login { self.new.login ≡ self.old.login }
        ensures idle { self.new.idle ≡ self.old.idle }
    {
        let Ok(now) = Instant::now(self.rt) else {
            self.late = Some(Late::NoClock);
            self.failed = true;
            return Err(Failed);
        };
        match self.read_at(self.is_logged_in.get(), now, piece) {
            Ok(count) => {
                self.sent = self.sent.after(piece, count);
                if !piece.is_empty() {
                    self.ended = count == 0;
                }
                Ok(count)
            }
            Err(late) => {
                self.late = late;
                self.failed = true;
                Err(Failed)
            }
        }
    }
}

impl<'a, 'c, R: Clock, S: TimedRead> Source for ClientSource<'a, 'c, R, S> {
    ghost use Rattle.std.specs.Prelude.{None};

    ghost left = { λ s. None };

    ghost ended = { λ s. s.ended };

    ghost failed = { λ s. s.failed };

    // Reads as `read_more` does; 0 is the end, unless the piece is empty.
    fn read(&mut self, piece: &mut [u8]) -> Result<usize, Failed> {
        self.read_more(piece)
    }
}
