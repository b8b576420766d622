ghost use Rattle.std.specs.Prelude.{◌≡◌, ◌⊎◌, ◌↔◌, ◌<◌, [], Bool, Err, IfErr, IfOk, IfSome};
ghost use Rattle.std.specs.Prelude.{IsErrOf, None, OnErr, OnOk, Ok, Some, false, length, true};
ghost use Rattle.link_stream.specs.Items.{HasWholeItem, IsItem, IsPart, item_bytes};
ghost use Rattle.link_stream.specs.Receiving.{GivesAt, HasRead, IsCause};
ghost use Rattle.link_stream.specs.Tagged.{IsTagFault, TakesTagged};

use crate::item::{is_beat, whole_item};
use crate::tagged_bytes::TaggedBytes;
use crate::{Item, ReceiveFault};
use ami_text::Source;
use link_keys::Key;
use std::alloc::Global;
use std::marker::Model;

// Takes the whole item of this size that is held first; no memory is needed for a beat. A fault changes nothing. Errors, in order:
// `WrongTag`, `Exhausted`, `Memory`.
fn take_item(stream: &mut TaggedBytes, size: usize) -> Result<Item, ReceiveFault>
    requires { HasWholeItem stream.old.held size }
    ensures item { IfOk result (λ item. IsItem item
        × TakesTagged stream.old (item_bytes item) stream.new) }
    ensures err { OnErr result (stream.new ≡ stream.old) }
    ensures fault { IfErr result (λ fault. IsTagFault fault stream.old size) }
{
    if is_beat(size) {
        stream.pass(size)?;
        return Ok(Item::Beat);
    }
    let bytes = stream.take(size)?;
    Ok(Item::Frame(bytes))
}

// The next item, taken from the front of what is held. `None` where that is less than an item and its tag. A fault changes nothing.
// Errors, in order: `BadLength`, `WrongTag`, `Exhausted`, `Memory`.
#[tactic(auto, using(crate::proofs::Causes::cause_of_tag))]
fn next_held(stream: &mut TaggedBytes) -> Result<Option<Item>, ReceiveFault>
    ensures item { IfOk result (λ next. IfSome next (λ item. IsItem item
        × TakesTagged stream.old (item_bytes item) stream.new)) }
    ensures part { (result ≡ Ok None) → IsPart stream.old.held × (stream.new ≡ stream.old) }
    ensures err { OnErr result (stream.new ≡ stream.old) }
    ensures cause { IfErr result (λ fault. (ended failed : Bool)
        → IsCause fault stream.old ended failed) }
    ensures works { IsErrOf result ReceiveFault.Failed → ⊥ }
{
    let size = match whole_item(stream.held()) {
        Ok(None) => return Ok(None),
        Ok(Some(size)) => size,
        Err(_) => return Err(ReceiveFault::BadLength),
    };
    match take_item(stream, size) {
        Ok(item) => Ok(Some(item)),
        Err(fault) => Err(fault),
    }
}

// The fault at the end of a stream of which less than an item and its tag is held: `Ended` if nothing is held, otherwise `CutOff`.
fn end_fault(stream: &TaggedBytes) -> ReceiveFault
    requires { IsPart stream.now.held }
    ensures cause { (failed : Bool) → IsCause result stream.now true failed }
    ensures works { result ≡ ReceiveFault.Failed → ⊥ }
{
    if stream.held().is_empty() {
        ReceiveFault::Ended
    } else {
        ReceiveFault::CutOff
    }
}

// The next item of a stream, if it is held; else one read, after which no item is returned. A fault leaves the stream as it is.
// The errors are those of `recv` after its first.
#[tactic(auto, using(crate::proofs::Giving::gives_of_keeps, crate::proofs::Giving::gives_none))]
fn advance<S: Source>(
    stream: &mut TaggedBytes,
    source: &mut S,
) -> Result<Option<Item>, ReceiveFault>
    requires { S.failed source.old ≡ false }
    ensures item { IfOk result (λ next. IfSome next (λ item. IsItem item × (source.new ≡ source.old)
        × TakesTagged stream.old (item_bytes item) stream.new)) }
    ensures part { (result ≡ Ok None) → IsPart stream.old.held }
    ensures read { (result ≡ Ok None) → HasRead (S.left source.old) (S.left source.new)
        stream.old stream.new }
    ensures more { (result ≡ Ok None) → length stream.old.held < length stream.new.held }
    ensures works { OnOk result (S.failed source.new ≡ false) }
    ensures fails { IsErrOf result ReceiveFault.Failed ↔ (S.failed source.new ≡ true) }
    ensures cause { IfErr result (λ fault.
        IsCause fault stream.old (S.ended source.new) (S.failed source.new)) }
    ensures unread { OnErr result (IsPart stream.old.held ⊎ (source.new ≡ source.old)) }
    ensures same { OnErr result (stream.new ≡ stream.old) }
    ensures given { IfErr result (λ fault.
        GivesAt fault (S.left source.old) (S.left source.new)) }
{
    match next_held(stream) {
        Ok(Some(item)) => return Ok(Some(item)),
        Ok(None) => {}
        Err(fault) => return Err(fault),
    }
    match stream.read_piece(source) {
        Ok(true) => Ok(None),
        Ok(false) => Err(end_fault(stream)),
        Err(fault) => Err(fault),
    }
}

/// The end of a link that receives items: what it has read and not yet given, and how many items it has given. Contracts see the first
/// fault that it has returned, too.
#[derive(Drop)]
pub struct ItemReceiver {
    stream: TaggedBytes,
    fault: Option<ReceiveFault>,
}

impl Model for ItemReceiver {
    ghost use Rattle.link_stream.specs.Receiving.{ReceiverState};

    ghost Value = { ReceiverState };

    ghost view = { λ r. record { stream = r.stream; fault = r.fault } };
}

impl ItemReceiver {
    /// A receiver under this key that has read nothing. It takes no memory.
    pub fn new(alloc: Global, key: Key) -> ItemReceiver
        ensures stream { result.stream ≡ record { key = key; taken = 0; held = [] } }
        ensures works { result.fault ≡ None }
    {
        ItemReceiver {
            stream: TaggedBytes::new(alloc, key),
            fault: None,
        }
    }

    /// How many bytes are held: those that were read after the last item that was given and its tag.
    pub fn held(&self) -> usize
        ensures { result ≡ length self.now.stream.held }
    {
        self.stream.held().len()
    }

    /// Returns the next item of the stream, if it and its tag are held, and reads nothing then: the bytes that stand first, up to the end
    /// of an item whose tag is right under the number of items given before. Else reads `source` once, at most 16,384 bytes, and returns
    /// `None`: the caller calls again. The source has not failed, unless this receiver has returned a fault.
    ///
    /// Errors, in order: the first fault again, if there was one, and nothing is read; `BadLength`, `WrongTag`, `Exhausted` and `Memory`,
    /// by the bytes that are held; if those are less than an item and its tag, `Failed` if the source fails, `Ended` or `CutOff` if it has
    /// ended, and `Memory` if there is none to hold what came. No item is given after a fault. A fault leaves what is held as it is; the
    /// bytes of a read for which there is no memory are lost.
    pub fn recv<S: Source>(&mut self, source: &mut S) -> Result<Option<Item>, ReceiveFault>
        requires { self.old.fault ≡ None → S.failed source.old ≡ false }
        ensures item { IfOk result (λ next. IfSome next (λ item. IsItem item
            × (source.new ≡ source.old)
            × TakesTagged self.old.stream (item_bytes item) self.new.stream)) }
        ensures part { (result ≡ Ok None) → IsPart self.old.stream.held }
        ensures read { (result ≡ Ok None) → HasRead (S.left source.old) (S.left source.new)
            self.old.stream self.new.stream }
        ensures more { (result ≡ Ok None)
            → length self.old.stream.held < length self.new.stream.held }
        ensures works { OnOk result (S.failed source.new ≡ false) }
        ensures first { OnOk result ((self.old.fault ≡ None) × (self.new.fault ≡ None)) }

        // Each fault has its cause, and is kept.
        ensures fails { self.old.fault ≡ None
            → (IsErrOf result ReceiveFault.Failed ↔ (S.failed source.new ≡ true)) }
        ensures cause { self.old.fault ≡ None → IfErr result (λ fault.
            IsCause fault self.old.stream (S.ended source.new) (S.failed source.new)) }
        ensures unread { OnErr result (IsPart self.old.stream.held ⊎ (source.new ≡ source.old)) }

        // It takes no item from what is held, and loses no byte of the source but at `Memory`.
        ensures same { OnErr result (self.new.stream ≡ self.old.stream) }
        ensures given { self.old.fault ≡ None → IfErr result (λ fault.
            GivesAt fault (S.left source.old) (S.left source.new)) }
        ensures kept { IfErr result (λ fault. self.new.fault ≡ Some fault) }
        ensures again { IfSome self.old.fault (λ fault. (result ≡ Err fault)
            × (self.new ≡ self.old) × (source.new ≡ source.old)) }
    {
        match self.fault {
            Some(fault) => return Err(fault),
            None => {}
        }
        match advance(&mut self.stream, source) {
            Ok(next) => Ok(next),
            Err(fault) => {
                self.fault = Some(fault);
                Err(fault)
            }
        }
    }
}
