use ami_session::Session;

/// Observes a session. `R` is the handle that its calls take, where they wait for another thread.
pub trait SessionWatch<R> {
    /// Called after each reply to a message, with the session's state at that time.
    fn after_message(&mut self, rt: &R, session: &Session);
}

/// A watch that does nothing.
#[derive(Clone, Copy)]
pub struct NoWatch;

impl<R> SessionWatch<R> for NoWatch {
    // Does nothing.
    fn after_message(&mut self, _rt: &R, _session: &Session) {}
}
