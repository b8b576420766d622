ghost use Rattle.std.specs.Prelude.{◌≡◌, ◌↔◌, ◌++◌, ◌<◌, [], Err, IfErr, IfOk, IfSome, IsErrOf, None, OnErr};
ghost use Rattle.std.specs.Prelude.{OnOk, Ok, Some, length};
ghost use Rattle.link_stream.specs.Items.{IsAcknowledgement, acknowledgement_bytes};
ghost use Rattle.link_stream.specs.Tagged.{IsTagFault, TakesTagged};

use crate::acknowledgement::acknowledgement_in;
use crate::tagged_bytes::TaggedBytes;
use crate::{ACKNOWLEDGEMENT_BYTES, Acknowledgement, ReceiveFault};
use link_keys::{Key, TAG_BYTES};
use std::alloc::Global;
use std::marker::Model;

// The next acknowledgement, taken from the front of what is held. `None` exactly where less than one and its tag is held. A fault
// changes nothing. Errors, in order: 1 `WrongTag`; 2 `Exhausted`, if no counter is left.
fn next_held(stream: &mut TaggedBytes) -> Result<Option<Acknowledgement>, ReceiveFault>
    ensures given { IfOk result (λ next. IfSome next (λ given. IsAcknowledgement given
        × TakesTagged stream.old (acknowledgement_bytes given) stream.new)) }
    ensures part { (result ≡ Ok None) ↔ (length stream.old.held < 24) }
    ensures same { (result ≡ Ok None) → stream.new ≡ stream.old }
    ensures err { OnErr result (stream.new ≡ stream.old) }
    ensures cause { IfErr result (λ fault. IsTagFault fault stream.old 8) }
    ensures memory { IsErrOf result ReceiveFault.Memory → ⊥ }
{
    let held = stream.held();
    if held.len() < ACKNOWLEDGEMENT_BYTES + TAG_BYTES {
        return Ok(None);
    }
    let (bytes, _) = held.split_at(ACKNOWLEDGEMENT_BYTES);
    let acknowledgement = acknowledgement_in(bytes);
    match stream.pass(ACKNOWLEDGEMENT_BYTES) {
        Ok(()) => Ok(Some(acknowledgement)),
        Err(fault) => Err(fault),
    }
}

/// The end of a link that receives acknowledgements: what it was fed and has not yet given, and how many of them it has given. Contracts
/// see the first fault that it has returned, too.
#[derive(Drop)]
pub struct AcknowledgementReceiver {
    stream: TaggedBytes,
    fault: Option<ReceiveFault>,
}

impl Model for AcknowledgementReceiver {
    ghost use Rattle.link_stream.specs.Receiving.{ReceiverState};

    ghost Value = { ReceiverState };

    ghost view = { λ r. record { stream = r.stream; fault = r.fault } };
}

impl AcknowledgementReceiver {
    /// A receiver under this key that was fed nothing. It takes no memory.
    pub fn new(alloc: Global, key: Key) -> AcknowledgementReceiver
        ensures stream { result.stream ≡ record { key = key; taken = 0; held = [] } }
        ensures works { result.fault ≡ None }
    {
        AcknowledgementReceiver {
            stream: TaggedBytes::new(alloc, key),
            fault: None,
        }
    }

    /// Takes the next bytes of the stream, as many as came. A fault leaves what is held as it is, loses the piece, and is the fault from
    /// then on. Errors, in order: 1 the first fault once more, if there was one; 2 `Memory`.
    pub fn feed(&mut self, piece: &[u8]) -> Result<(), ReceiveFault>
        ensures fed { OnOk result (self.new.stream
            ≡ record self.old.stream { held = self.old.stream.held ++ piece.now }) }
        ensures works { OnOk result (self.new.fault ≡ None) }
        ensures memory { IfErr result (λ fault.
            self.old.fault ≡ None → fault ≡ ReceiveFault.Memory) }
        ensures err { OnErr result (self.new.stream ≡ self.old.stream) }
        ensures kept { IfErr result (λ fault. self.new.fault ≡ Some fault) }
        ensures again { IfSome self.old.fault (λ fault. (result ≡ Err fault)
            × (self.new ≡ self.old)) }
    {
        if let Some(fault) = self.fault {
            return Err(fault);
        }
        match self.stream.feed(piece) {
            Ok(()) => Ok(()),
            Err(_) => {
                self.fault = Some(ReceiveFault::Memory);
                Err(ReceiveFault::Memory)
            }
        }
    }

    /// The next acknowledgement: the eight bytes that come first, if the tag after them is right under the number of those given before.
    /// `None` exactly where less than one and its tag is there.
    ///
    /// Errors, in order: the first fault once more, if there was one; `WrongTag`, `Exhausted`. None is given after a fault. It takes no
    /// memory.
    pub fn next_acknowledgement(&mut self) -> Result<Option<Acknowledgement>, ReceiveFault>
        ensures given { IfOk result (λ next. IfSome next (λ given. IsAcknowledgement given
            × TakesTagged self.old.stream (acknowledgement_bytes given) self.new.stream)) }
        ensures part { self.old.fault ≡ None
            → (result ≡ Ok None) ↔ (length self.old.stream.held < 24) }
        ensures same { (result ≡ Ok None) → self.new ≡ self.old }
        ensures works { OnOk result ((self.old.fault ≡ None) × (self.new.fault ≡ None)) }
        ensures stopped { IfErr result (λ fault. self.old.fault ≡ None
            → IsTagFault fault self.old.stream 8) }
        ensures memory { self.old.fault ≡ None → IsErrOf result ReceiveFault.Memory → ⊥ }
        ensures err { OnErr result (self.new.stream ≡ self.old.stream) }
        ensures kept { IfErr result (λ fault. self.new.fault ≡ Some fault) }
        ensures again { IfSome self.old.fault (λ fault. (result ≡ Err fault)
            × (self.new ≡ self.old)) }
    {
        if let Some(fault) = self.fault {
            return Err(fault);
        }
        match next_held(&mut self.stream) {
            Ok(next) => Ok(next),
            Err(fault) => {
                self.fault = Some(fault);
                Err(fault)
            }
        }
    }
}
