//! How long a client's next read or write may wait.
ghost use Rattle.std.specs.Prelude.{◌≡◌, ◌+◌, ◌/◌, ◌<◌, ◌≤◌, IfOk, MatchOption, OnErr, max, min};
ghost use Rattle.std.specs.Duration.{as_nanos};
ghost use Rattle.std.specs.Option.{option_map_or};
ghost use Rattle.serving_clients.specs.ReadWaits.{IsReadWait, IsTooLate};

use ami_text::Failed;
use std::time::Duration;

// What is left of a time after `passed`. `None` exactly where nothing is left.
pub(crate) fn time_left(time: Duration, passed: Duration) -> Option<Duration>
    ensures { MatchOption result (as_nanos time ≤ as_nanos passed)
        (λ left. (0 < as_nanos left) × (as_nanos left + as_nanos passed ≡ as_nanos time)) }
{
    match time.checked_sub(passed) {
        Some(left) if !left.is_zero() => Some(left),
        _ => None,
    }
}

// The shorter of two times, or `time` where there is no other.
pub(crate) fn shorter(time: Duration, other: Option<Duration>) -> Duration
    ensures { as_nanos result
        ≡ option_map_or (λ d. min (as_nanos d) (as_nanos time)) other (as_nanos time) }
{
    match other {
        Some(other) if time.checked_sub(other).is_some() => other,
        _ => time,
    }
}

// How long the next read of a client may wait, `passed` after it was connected. `None`: without end. Once it has logged in that is as long
// as it may be silent. Before, it is at most until the time is over in which it must log in. `Failed` where that time is over.
pub(crate) fn read_wait(
    is_logged_in: bool,
    login: Duration,
    idle: Option<Duration>,
    passed: Duration,
) -> Result<Option<Duration>, Failed>
    ensures wait { IfOk result (IsReadWait is_logged_in login idle (as_nanos passed)) }
    ensures over { OnErr result (IsTooLate is_logged_in login (as_nanos passed)) }
{
    if is_logged_in {
        return Ok(idle);
    }
    match time_left(login, passed) {
        None => Err(Failed),
        Some(left) => Ok(Some(shorter(left, idle))),
    }
}

// How long each of `waits` waits of a write lasts: that part of the time for it, and at least 1 microsecond.
pub(crate) fn write_wait(write: Duration, waits: u32) -> Duration
    requires { 0 < waits }
    ensures { as_nanos result ≡ max (as_nanos write / waits) 1000 }
{
    let part = write / waits;
    let least = Duration::from_micros(1);
    if part.checked_sub(least).is_some() {
        part
    } else {
        least
    }
}
