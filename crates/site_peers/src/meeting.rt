//! The hello of a link over any source and sink: both sites' cards are judged by this site's roll.
ghost use Rattle.std.specs.Prelude.{◌≡◌, ◌⊎◌, IfOk, IfSome, OnOk, Some, false};
ghost use Rattle.site_peers.specs.Meetings.{HasBeenDialed, HasDialed};

use crate::{EndReason, SharedRoll};
use ami_text::{Sink, Source};
use dots::SiteId;
use link_hello::{
    Card, HelloFault, LinkKeys, Refusal, accept_hello, begin_hello, end_hello, give_verdict,
};
use link_keys::Key;
use std::sync::Wait;

/// What a hello leads to where both sites welcome each other.
#[derive(Drop)]
pub struct Meeting {
    /// The peer.
    pub site: SiteId,
    /// The keys of the link.
    pub keys: LinkKeys,
}

// Whether this site refuses the peer of a hello that ended by this fault. It has sent that as far as it could, unless the peer's verdict,
// its last message, had a wrong code.
pub(crate) fn is_own_refusal(fault: HelloFault) -> bool {
    matches!(fault, HelloFault::Refuses(_) | HelloFault::WrongSecret)
}

// Why the site ends after a hello that has ended by this fault, if it does: the peer has refused it so.
pub(crate) fn end_reason(fault: HelloFault) -> Option<EndReason>
    ensures taken { fault ≡ HelloFault.IsRefused Refusal.TakenNumber
        → result ≡ Some EndReason.TakenNumber }
    ensures older { fault ≡ HelloFault.IsRefused Refusal.OlderCopy
        → result ≡ Some EndReason.OlderCopy }
    ensures second { fault ≡ HelloFault.IsRefused Refusal.SecondCopy
        → result ≡ Some EndReason.SecondCopy }
    ensures only { IfSome result (λ _. (fault ≡ HelloFault.IsRefused Refusal.TakenNumber)
        ⊎ ((fault ≡ HelloFault.IsRefused Refusal.OlderCopy)
        ⊎ (fault ≡ HelloFault.IsRefused Refusal.SecondCopy))) }
{
    match fault {
        HelloFault::IsRefused(Refusal::TakenNumber) => Some(EndReason::TakenNumber),
        HelloFault::IsRefused(Refusal::OlderCopy) => Some(EndReason::OlderCopy),
        HelloFault::IsRefused(Refusal::SecondCopy) => Some(EndReason::SecondCopy),
        _ => None,
    }
}

/// Runs the hello of the site that dials. At Ok the peer's card came with the code of the secret and was admitted by the roll, the peer has
/// welcomed this site, and both have the same keys. `nonce` is 32 random bytes that no other hello has.
///
/// Errors, in order: those of `begin_hello`, then those of `end_hello`; these include `Refuses`, if the roll refuses the peer's card. A
/// card that the roll has admitted stays on it after an error of `end_hello`.
pub fn meet_acceptor<R: Wait, S: Source, W: Sink>(
    rt: &R,
    source: &mut S,
    sink: &mut W,
    roll: &SharedRoll,
    key: &Key,
    nonce: &[u8; 32],
    own: &Card,
) -> Result<Meeting, HelloFault>
    requires source { S.failed source.old ≡ false }
    requires sink { W.failed sink.old ≡ false }
    ensures met { IfOk result (λ meeting. HasDialed (S.left source.old) (S.left source.new)
        (W.taken sink.old) (W.taken sink.new) key.now nonce.now own.now meeting) }
    ensures source { OnOk result (S.failed source.new ≡ false) }
    ensures sink { OnOk result (W.failed sink.new ≡ false) }
{
    let transcript = begin_hello(source, sink, key, nonce, own)?;
    let site = match roll.admit(rt, own, &transcript.acceptor) {
        Ok(site) => site,
        Err(refusal) => {
            return match end_hello(source, sink, key, &transcript, Some(refusal)) {
                Ok(_) => Err(HelloFault::Refuses(refusal)),
                Err(fault) => Err(fault),
            };
        }
    };
    let keys = end_hello(source, sink, key, &transcript, None)?;
    Ok(Meeting { site, keys })
}

/// Runs the hello of the site that accepts. At Ok the peer's card came with a welcome and the code of the secret and was admitted by the
/// roll, and both have the same keys. `nonce` is 32 random bytes that no other hello has.
///
/// Errors, in order: those of `accept_hello`, then those of `give_verdict`; these include `Refuses`, if the roll refuses the peer's card. A
/// card that the roll has admitted stays on it after an error of `give_verdict`.
pub fn meet_dialer<R: Wait, S: Source, W: Sink>(
    rt: &R,
    source: &mut S,
    sink: &mut W,
    roll: &SharedRoll,
    key: &Key,
    nonce: &[u8; 32],
    own: &Card,
) -> Result<Meeting, HelloFault>
    requires source { S.failed source.old ≡ false }
    requires sink { W.failed sink.old ≡ false }
    ensures met { IfOk result (λ meeting. HasBeenDialed (S.left source.old) (S.left source.new)
        (W.taken sink.old) (W.taken sink.new) key.now nonce.now own.now meeting) }
    ensures source { OnOk result (S.failed source.new ≡ false) }
    ensures sink { OnOk result (W.failed sink.new ≡ false) }
{
    let transcript = accept_hello(source, sink, key, nonce, own)?;
    let site = match roll.admit(rt, own, &transcript.dialer) {
        Ok(site) => site,
        Err(refusal) => {
            return match give_verdict(sink, key, &transcript, Some(refusal)) {
                Ok(_) => Err(HelloFault::Refuses(refusal)),
                Err(fault) => Err(fault),
            };
        }
    };
    let keys = give_verdict(sink, key, &transcript, None)?;
    Ok(Meeting { site, keys })
}
