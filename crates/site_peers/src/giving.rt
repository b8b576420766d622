//! The calls of an inlet of a link.
ghost use Rattle.std.specs.Prelude.{◌≡◌, [], None, false};
ghost use Rattle.site_peers.specs.Links.{inlet_fault, inlet_source, inlet_stream};

use crate::receiving::next_frame;
use crate::{Acknowledge, InletFault, LinkInlet};
use ami_text::Source;
use dots::SharedBytes;
use link_keys::Key;
use link_stream::ItemReceiver;
use site_pumps::Inlet;
use std::alloc::Global;
use std::sync::Wait;

impl<S: Source + Drop, A: Drop> LinkInlet<S, A> {
    /// The inlet of a link whose items have tags under this key, and of whose bytes none was read. It takes no memory.
    pub fn new(alloc: Global, key: Key, source: S, acknowledger: A) -> LinkInlet<S, A>
        requires { S.failed source ≡ false }
        ensures source { inlet_source result ≡ source }
        ensures stream { inlet_stream result ≡ record { key = key; taken = 0; held = [] } }
        ensures fault { inlet_fault result ≡ None }
    {
        LinkInlet {
            receiver: ItemReceiver::new(alloc, key),
            source,
            acknowledger,
            fault: None,
        }
    }

    /// Why it gives nothing more. `None`: it hasn't ended.
    pub fn fault(&self) -> Option<InletFault>
        ensures { result ≡ inlet_fault self.now }
    {
        self.fault
    }

    /// Ends the inlet, and returns what acknowledges its bytes; no contract says this. Bytes that were read and not given are dropped.
    pub fn into_acknowledger(self) -> A {
        let LinkInlet {
            receiver,
            source,
            acknowledger,
            fault: _,
        } = self;
        drop(receiver);
        drop(source);
        acknowledger
    }
}

impl<R: Wait, S: Source + Drop, A: Acknowledge<R> + Drop> Inlet<R> for LinkInlet<S, A> {
    ghost use Rattle.std.specs.Prelude.{◌≡◌, IsSomeAnd, None};
    ghost use Rattle.site_peers.specs.Links.{inlet_fault, inlet_source, inlet_stream};
    ghost use Rattle.site_peers.specs.Received.{HasGivenFrame, HasStopped};

    ghost gives = { λ old item new. HasGivenFrame (S.left (inlet_source old))
        (S.left (inlet_source new)) (inlet_stream old) item (inlet_stream new)
        × (inlet_fault new ≡ None) };

    ghost ends = { λ old new. inlet_fault old ≡ None → IsSomeAnd (inlet_fault new) (λ fault.
        HasStopped (S.left (inlet_source old)) (inlet_stream old) fault
        (S.ended (inlet_source new)) (S.failed (inlet_source new))) };

    // Waits for the next frame, and has each read and each item noted by the acknowledger. `None`: it has ended, for `fault`, and
    // reads no more.
    fn next(&mut self, rt: &R) -> Option<SharedBytes> {
        if self.fault.is_some() {
            return None;
        }
        match next_frame(
            rt,
            &mut self.receiver,
            &mut self.source,
            &mut self.acknowledger,
        ) {
            Ok(frame) => Some(frame),
            Err(fault) => {
                self.fault = Some(fault);
                None
            }
        }
    }
}
