ghost use Rattle.std.specs.Prelude.{◌≡◌};

use ami_text::Sink;
use link_keys::Key;

/// The sink of a link to a peer that is dialed: it takes the hello, and then items (this project's own).
pub trait LinkSink: Sink {
    /// Begins the items: the peer acknowledges what is written from now on, with tags under this key. The call writes nothing.
    fn begin(&mut self, acknowledgements: Key)
        ensures taken { Self.taken self.new ≡ Self.taken self.old }
        ensures failed { Self.failed self.new ≡ Self.failed self.old };
}
