ghost use Rattle.std.specs.Prelude.{◌≡◌, ◌≢◌, ℕ, List, ◌<◌, ◌≤◌, ◌⊎◌, ◌++◌, [], ◌∷◌, None, Some};
ghost use Rattle.std.specs.Prelude.{Ok, Err, length, IsOk, IsErrOf, OnErr, OnOk, IfErr, IfOk};
ghost use Rattle.std.specs.Prelude.{IfSome};
ghost use Rattle.ami_text.specs.declared.feed_fault.FeedFault.{FeedFault};
ghost use Rattle.ami_text.specs.MessageFields.{NameAndValue};
ghost use Rattle.ami_text.specs.FeedStates.{IsStreamFault};
ghost use Rattle.ami_text.specs.Stream.{FirstMessage, Gives, HasFault, IsRest};

use crate::found::Found;
use crate::progress::Progress;
use crate::scan::scan;
use crate::{FeedFault, Memory, Message};
use held_bytes::HeldBytes;
use std::alloc::Global;
use std::marker::Model;

/// Cuts a stream of bytes, which arrives in pieces of any size, into messages.
///
/// LF ends a line, and one CR right before it belongs to the end. An empty line ends a message; an
/// empty line before the first line of a message is ignored. A line's content has at most 1,024
/// bytes, and a message at most 128 lines that aren't empty.
///
/// It holds the bytes that belong to no message yet: after a `None` at most 128 lines and a part of
/// one, 132,353 bytes in all. Each byte is read and moved a bounded number of times, whatever the
/// pieces.
#[derive(Drop)]
pub struct Feed {
    alloc: Global,
    held: HeldBytes,
    progress: Progress,
    fault: Option<FeedFault>,
}

impl Model for Feed {
    ghost use Rattle.ami_text.specs.FeedStates.{FeedState, IsStreamFault};
    ghost use Rattle.ami_text.specs.Progress.{IsProgress};

    ghost Value = { FeedState };

    ghost view = { λ f. record { held = f.held; fault = f.fault } };

    ghost invariant = { λ f. IsProgress f.held f.progress × IsStreamFault f.fault };
}

impl Feed {
    /// An empty feed. Takes no memory.
    pub fn new(alloc: Global) -> Self
        ensures { result ≡ record { held = []; fault = None } }
    {
        Feed {
            alloc,
            held: HeldBytes::new(alloc),
            progress: Progress::START,
            fault: None,
        }
    }

    /// Takes the next piece of the stream, of any length. A feed that has failed ignores it.
    ///
    /// `Memory`: memory was refused, and the feed is as before.
    pub fn feed(&mut self, piece: &[u8]) -> Result<(), Memory>
        ensures fed { OnOk result
            (self.old.fault ≡ None → self.new.held ≡ self.old.held ++ piece.now) }
        ensures failed { self.old.fault ≢ None → IsOk result × (self.new ≡ self.old) }
        ensures fault { self.new.fault ≡ self.old.fault }
        ensures err { OnErr result (self.new ≡ self.old) }
    {
        if self.fault.is_some() {
            return Ok(());
        }
        self.held.append(piece)
    }

    /// The next message of the stream, taken from the front of the held bytes. `None` if these are
    /// no whole message and show no fault; empty lines in front of them are dropped.
    ///
    /// Errors: the first of 1 and 2 that the stream shows, or 3 where a message is whole:
    /// 1. `LineTooLong`: the next line's content has more than 1,024 bytes, seen as soon as the
    ///    held bytes show it. The feed has failed: each later call returns the same fault. It holds
    ///    no bytes then, though no contract says this.
    /// 2. `TooManyFields`: a 129th line that isn't empty has ended before the message did. The feed
    ///    has failed, as after 1.
    /// 3. `Memory`: memory was refused, and the feed is as before.
    pub fn next_message(&mut self) -> Result<Option<Message>, FeedFault>
        ensures message { IfOk result (λ next. IfSome next (λ m.
            FirstMessage self.old.held m self.new.held)) }
        ensures shorter { IfOk result (λ next. IfSome next (λ _.
            length self.new.held < length self.old.held)) }
        ensures rest { result ≡ Ok None
            → Gives self.old.held [] self.new.held × IsRest self.new.held }
        ensures rest_length { result ≡ Ok None → length self.new.held ≤ 132353 }
        ensures fault { IfErr result (λ f. IsStreamFault (Some f) →
            (self.old.fault ≡ Some f) ⊎ HasFault f self.old.held) }

        // Each of the three results is returned wherever the held bytes show it.
        ensures message_shown { self.old.fault ≡ None → (m : List NameAndValue) (rest : List ℕ) →
            FirstMessage self.old.held m rest →
            (result ≡ Ok (Some m)) ⊎ (result ≡ Err FeedFault.Memory) }
        ensures rest_shown { self.old.fault ≡ None → (rest : List ℕ) →
            Gives self.old.held [] rest → IsRest rest → result ≡ Ok None }
        ensures fault_shown { self.old.fault ≡ None → (f : FeedFault) →
            HasFault f self.old.held → result ≡ Err f }

        // A fault of the stream stays, and a refusal of memory changes nothing.
        ensures works { OnOk result ((self.old.fault ≡ None) × (self.new.fault ≡ None)) }
        ensures fails { IfErr result (λ f. IsStreamFault (Some f) → self.new.fault ≡ Some f) }
        ensures failed { IfSome self.old.fault (λ f. (result ≡ Err f) × (self.new ≡ self.old)) }
        ensures memory { IsErrOf result FeedFault.Memory → self.new ≡ self.old }
    {
        if let Some(fault) = self.fault {
            return Err(fault);
        }
        match scan(self.held.as_slice(), self.progress) {
            Found::Message { end, next } => {
                let message = Message::parse(self.alloc, &self.held.as_slice()[..end])?;
                self.held.take_front(next);
                self.progress = Progress::START;
                Ok(Some(message))
            }
            Found::Rest { empty, progress } => {
                self.held.take_front(empty);
                self.progress = progress;
                Ok(None)
            }
            Found::Fault { fault } => {
                self.held.clear();
                self.progress = Progress::START;
                self.fault = Some(fault);
                Err(fault)
            }
        }
    }
}
