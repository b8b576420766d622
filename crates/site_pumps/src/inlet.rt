ghost use Rattle.std.specs.Prelude.{IfNone, IfSome};

use dots::SharedBytes;
use site_links::LinkReceiver;
use std::sync::Wait;

/// An end that receives a site's frames from another site, as a pump sees it (this project's own).
pub trait Inlet<R> {
    ghost use Rattle.std.specs.Prelude.{ℕ, List};

    /// `gives old item new`: a receive gives the bytes `item`, and leads the inlet from `old` to `new`.
    ghost gives: { Self → List ℕ → Self → Type 0 };

    /// `ends old new`: a receive finds the end, and leads the inlet from `old` to `new`.
    ghost ends: { Self → Self → Type 0 };

    /// Waits for the next item, and returns it. `None`: the inlet has ended.
    fn next(&mut self, rt: &R) -> Option<SharedBytes>
        ensures given { IfSome result (λ item. gives self.old item self.new) }
        ensures ended { IfNone result (ends self.old self.new) };
}

impl<R: Wait> Inlet<R> for LinkReceiver {
    ghost use Rattle.site_pumps.specs.Inlets.{ReceiverEnds, ReceiverGives};

    ghost gives = { ReceiverGives };

    ghost ends = { ReceiverEnds };

    fn next(&mut self, rt: &R) -> Option<SharedBytes> {
        self.recv(rt)
    }
}
