use std::random::RandomSource;
use std::time::Clock;

// Milliseconds since an arbitrary start, at most 2^60. `None`: the clock can't be read.
pub(crate) fn millis<R: Clock>(rt: &R) -> Option<u64> {
    match rt.monotonic() {
        Ok(now) => Some(now.as_millis().min(1 << 60) as u64),
        Err(_) => None,
    }
}

// A random number; 0 where the system gives none.
pub(crate) fn random<R: RandomSource>(rt: &R) -> u64 {
    let mut bytes = [0u8; 8];
    if rt.fill_bytes(&mut bytes).is_err() {
        return 0;
    }
    u64::from_be_bytes(bytes)
}
