//! The hello of the site that dials, and that of the site that accepts.
ghost use Rattle.std.specs.Prelude.{◌≡◌, ◌≢◌, ◌≤◌, ◌⊎◌, ◌+◌, ◌++◌, ◌∷◌, [], length, Err, IfErr, IfOk};
ghost use Rattle.std.specs.Prelude.{IfSome, None, OnErr, OnOk, Some, false, true};
ghost use Rattle.std.specs.Io.KnownBytes.{Appends, Consumes};
ghost use Rattle.ami_text.specs.Devices.{HasGivenUpTo, HasTaken};
ghost use Rattle.link_hello.specs.Cards.{IsCard, card_bytes};
ghost use Rattle.link_hello.specs.Codes.{acceptor_code, acknowledgement_key, item_key};
ghost use Rattle.link_hello.specs.Hellos.{AcceptFails, AcceptWaits, AcceptWrites, BeginFails};
ghost use Rattle.link_hello.specs.Hellos.{BeginWrites, HasAccepted, HasBegun, HasCutOffer};
ghost use Rattle.link_hello.specs.Hellos.{IsSilence, VerdictFails};
ghost use Rattle.link_hello.specs.Hellos.{answer_bytes, opening, verdict_bytes};
ghost use Rattle.link_hello.specs.Refusals.{verdict_number};

use crate::card::{CARD_BYTES, card_in, put_card};
use crate::codes::{DIALS, VERDICT, code_of_acceptor, code_of_transcript, keys_of};
use crate::messages::{Message, put, read_exactly, read_opening, write_message, write_opening};
use crate::refusal::{number_of_verdict, refusal_of};
use crate::{Card, HelloFault, LinkKeys, Refusal, Transcript};
use ami_text::{Sink, Source, write_all};
use link_keys::{Key, same_bytes};

// How many bytes a card and a code have.
const CARD_AND_CODE: usize = 105;

// Sends the refusal of a wrong code, a byte of its own. A failed write is ignored, since the hello ends anyway.
fn send_wrong_secret<W: Sink>(sink: &mut W)
    requires { W.failed sink.old ≡ false }
    ensures { (W.failed sink.new ≡ true) ⊎ Appends (W.taken sink.old) (W.taken sink.new) (6 ∷ []) }
{
    let _ = write_all(sink, &[Refusal::WrongSecret.number()]);
}

// Writes the offer of the site that accepts: its card and its code. `NotSent`: the sink failed, and has taken a prefix of them.
fn write_offer<W: Sink>(
    sink: &mut W,
    key: &Key,
    dialer_nonce: &[u8; 32],
    nonce: &[u8; 32],
    own: &Card,
) -> Result<(), HelloFault>
    requires { W.failed sink.old ≡ false }
    ensures written { OnOk result (Appends (W.taken sink.old) (W.taken sink.new)
        (card_bytes own.now ++ acceptor_code key.now dialer_nonce.now nonce.now own.now)) }
    ensures begun { OnErr result (HasTaken (W.taken sink.old) (W.taken sink.new)
        (card_bytes own.now ++ acceptor_code key.now dialer_nonce.now nonce.now own.now)) }
    ensures works { OnOk result (W.failed sink.new ≡ false) }
    ensures fails { OnErr result (W.failed sink.new ≡ true) }
    ensures fault { OnErr result (result ≡ Err HelloFault.NotSent) }
{
    let mut message = Message::new();
    put_card(&mut message, own);
    put(
        &mut message,
        &code_of_acceptor(key, dialer_nonce, nonce, own),
    );
    write_message(sink, &message)
}

// Reads a card and a code. `Silent`: the source failed or ended, or gave too little.
fn read_card<S: Source>(source: &mut S) -> Result<(Card, [u8; 32]), HelloFault>
    requires { S.failed source.old ≡ false }
    ensures read { IfOk result (λ (card, code). Consumes (S.left source.old) (S.left source.new)
        (card_bytes card ++ code)) }
    ensures lengths { IfOk result (λ (card, code). IsCard card × (length code ≡ 32)) }
    ensures works { OnOk result (S.failed source.new ≡ false) }
    ensures fault { OnErr result (result ≡ Err HelloFault.Silent) }
    ensures silent { OnErr result (IsSilence (S.left source.old) (S.left source.new)
        (S.ended source.new) (S.failed source.new)) }
    ensures few { OnErr result (HasGivenUpTo (S.left source.old) (S.left source.new) 104) }
    ensures reads { S.reads_left source.old ≤ S.reads_left source.new + 16 }
{
    let mut bytes = [0u8; CARD_AND_CODE];
    read_exactly(source, &mut bytes)?;
    let (front, rest) = bytes.split_at(CARD_BYTES);
    let mut code = [0u8; 32];
    code.copy_from_slice(rest);
    Ok((card_in(front), code))
}

// Reads the byte of a verdict. Errors, in order: 1 `Silent`, if none came; 2 `IsRefused` with `WrongSecret`, if the byte refuses
// this site's code: nothing follows it then.
fn read_verdict<S: Source>(source: &mut S) -> Result<u8, HelloFault>
    requires { S.failed source.old ≡ false }
    ensures read { IfOk result (λ verdict. Consumes (S.left source.old) (S.left source.new)
        (verdict ∷ []) × (verdict ≢ 6)) }
    ensures works { OnOk result (S.failed source.new ≡ false) }
    ensures silent { IfErr result (λ fault. (fault ≡ HelloFault.Silent)
        ⊎ ((fault ≡ HelloFault.IsRefused Refusal.WrongSecret)
        × Consumes (S.left source.old) (S.left source.new) (6 ∷ []))) }
    ensures silence { (result ≡ Err HelloFault.Silent) → IsSilence (S.left source.old)
        (S.left source.new) (S.ended source.new) (S.failed source.new) }
    ensures few { (result ≡ Err HelloFault.Silent)
        → HasGivenUpTo (S.left source.old) (S.left source.new) 0 }
    ensures reads { S.reads_left source.old ≤ S.reads_left source.new + 16 }
{
    let mut verdict = [0u8; 1];
    read_exactly(source, &mut verdict)?;
    let [verdict] = verdict;
    if verdict == Refusal::WrongSecret.number() {
        return Err(HelloFault::IsRefused(Refusal::WrongSecret));
    }
    Ok(verdict)
}

/// Runs the hello of the site that dials, up to the card of the site that accepts. At Ok that card came with the code of the secret, over
/// both nonces and the card. The caller judges the card and continues with `end_hello`. `nonce` is 32 random bytes that no other hello
/// has.
///
/// The opening is written before anything is read. The source is read at most 48 times, and gives at most 141 bytes before `Silent`. At
/// `NotSent` nothing was read, and the sink has taken a prefix of the opening.
///
/// Errors: `NotSent`; then each part is judged once it has come, and it is `Silent` if the next one doesn't come; in order:
/// `OtherProtocol`, `OtherVersion`, `WrongSecret`. At `WrongSecret` the refusal is sent to the other site.
pub fn begin_hello<S: Source, W: Sink>(
    source: &mut S,
    sink: &mut W,
    key: &Key,
    nonce: &[u8; 32],
    own: &Card,
) -> Result<Transcript, HelloFault>
    requires source { S.failed source.old ≡ false }
    requires sink { W.failed sink.old ≡ false }
    ensures begun { IfOk result (λ transcript. HasBegun (S.left source.old) (S.left source.new)
        (W.taken sink.old) (W.taken sink.new) key.now nonce.now own.now transcript) }
    ensures source { OnOk result (S.failed source.new ≡ false) }
    ensures sink { OnOk result (W.failed sink.new ≡ false) }
    ensures fault { IfErr result (λ fault. BeginFails (S.left source.old) (S.left source.new)
        key.now nonce.now fault) }
    ensures wrote { IfErr result (λ fault. BeginWrites (W.taken sink.old) (W.taken sink.new)
        (W.failed sink.new) nonce.now fault) }
    ensures silent { (result ≡ Err HelloFault.Silent) → IsSilence (S.left source.old)
        (S.left source.new) (S.ended source.new) (S.failed source.new) }
    ensures not_sent { (result ≡ Err HelloFault.NotSent) → W.failed sink.new ≡ true }
    ensures unread { (result ≡ Err HelloFault.NotSent) → source.new ≡ source.old }
    ensures few { (result ≡ Err HelloFault.Silent)
        → HasGivenUpTo (S.left source.old) (S.left source.new) 141 }
    ensures reads { S.reads_left source.old ≤ S.reads_left source.new + 48 }
{
    write_opening(sink, nonce)?;
    let theirs = read_opening(source)?;
    let (card, code) = read_card(source)?;
    if !same_bytes(&code, &code_of_acceptor(key, nonce, &theirs, &card)) {
        send_wrong_secret(sink);
        return Err(HelloFault::WrongSecret);
    }
    Ok(Transcript {
        dialer_nonce: *nonce,
        acceptor_nonce: theirs,
        acceptor: card,
        dialer: *own,
    })
}

// Reads the verdict of the site that accepts. Errors: `Silent` if its byte, or the code that it needs, didn't come; else, in order:
// `IsRefused` with `WrongSecret` if it refuses this site's code, which needs no code; `WrongSecret` if it has another code; `IsRefused` if
// it is a refusal.
fn read_welcome<S: Source>(
    source: &mut S,
    key: &Key,
    transcript: &Transcript,
) -> Result<(), HelloFault>
    requires { S.failed source.old ≡ false }
    ensures welcome { OnOk result (Consumes (S.left source.old) (S.left source.new)
        (verdict_bytes key.now transcript.now 0)) }
    ensures works { OnOk result (S.failed source.new ≡ false) }
    ensures fault { IfErr result (λ fault. VerdictFails (S.left source.old) (S.left source.new)
        key.now transcript.now fault) }
    ensures silent { (result ≡ Err HelloFault.Silent) → IsSilence (S.left source.old)
        (S.left source.new) (S.ended source.new) (S.failed source.new) }
    ensures few { (result ≡ Err HelloFault.Silent)
        → HasGivenUpTo (S.left source.old) (S.left source.new) 32 }
    ensures reads { S.reads_left source.old ≤ S.reads_left source.new + 32 }
{
    let verdict = read_verdict(source)?;
    let mut code = [0u8; 32];
    read_exactly(source, &mut code)?;
    if !same_bytes(
        &code,
        &code_of_transcript(key, VERDICT, transcript, verdict),
    ) {
        return Err(HelloFault::WrongSecret);
    }
    match refusal_of(verdict) {
        None => Ok(()),
        Some(refusal) => Err(HelloFault::IsRefused(refusal)),
    }
}

/// Runs the rest of the hello of the site that dials: it sends the verdict on the other site's card and its own card, and reads the other
/// site's verdict. At Ok both verdicts are welcomes, the other one came with the code of the secret over both nonces and both cards, and
/// the link has these keys. `refusal` is not `WrongSecret`, which is sent without a card.
///
/// The answer is written before anything is read. The source is read at most 32 times, and gives at most 32 bytes before `Silent`. At
/// `NotSent` nothing was read, and the sink has taken a prefix of the answer.
///
/// Errors: `NotSent`; `Refuses` if `refusal` is one, after it was sent, and nothing is read; `Silent` if the verdict, or the code that it
/// needs, didn't come; else, in order: `IsRefused` with `WrongSecret` if the other site refuses this site's code, which needs no code;
/// `WrongSecret` if its verdict has another code; `IsRefused` if its verdict is a refusal.
pub fn end_hello<S: Source, W: Sink>(
    source: &mut S,
    sink: &mut W,
    key: &Key,
    transcript: &Transcript,
    refusal: Option<Refusal>,
) -> Result<LinkKeys, HelloFault>
    requires source { S.failed source.old ≡ false }
    requires sink { W.failed sink.old ≡ false }
    requires judged { refusal ≡ Some Refusal.WrongSecret → ⊥ }
    ensures welcome { OnOk result (Consumes (S.left source.old) (S.left source.new)
        (verdict_bytes key.now transcript.now 0)) }
    ensures asked { OnOk result (refusal ≡ None) }
    ensures answered { (result ≡ Err HelloFault.NotSent → ⊥) → Appends (W.taken sink.old)
        (W.taken sink.new) (answer_bytes key.now transcript.now (verdict_number refusal)) }
    ensures keys { IfOk result (λ keys. (keys.items ≡ item_key key.now transcript.now)
        × (keys.acknowledgements ≡ acknowledgement_key key.now transcript.now)) }
    ensures source { OnOk result (S.failed source.new ≡ false) }
    ensures sink { OnOk result (W.failed sink.new ≡ false) }
    ensures refuses { IfSome refusal (λ cause. ((result ≡ Err HelloFault.NotSent)
        ⊎ (result ≡ Err (HelloFault.Refuses cause))) × (source.new ≡ source.old)) }
    ensures fault { refusal ≡ None → IfErr result (λ fault. (fault ≡ HelloFault.NotSent)
        ⊎ VerdictFails (S.left source.old) (S.left source.new) key.now transcript.now fault) }
    ensures silent { (result ≡ Err HelloFault.Silent) → IsSilence (S.left source.old)
        (S.left source.new) (S.ended source.new) (S.failed source.new) }
    ensures not_sent { (result ≡ Err HelloFault.NotSent) → W.failed sink.new ≡ true }
    ensures begun { (result ≡ Err HelloFault.NotSent) → HasTaken (W.taken sink.old)
        (W.taken sink.new) (answer_bytes key.now transcript.now (verdict_number refusal)) }
    ensures unread { (result ≡ Err HelloFault.NotSent) → source.new ≡ source.old }
    ensures few { (result ≡ Err HelloFault.Silent)
        → HasGivenUpTo (S.left source.old) (S.left source.new) 32 }
    ensures reads { S.reads_left source.old ≤ S.reads_left source.new + 32 }
{
    let verdict = number_of_verdict(refusal);
    let mut message = Message::new();
    put(&mut message, &[verdict]);
    put_card(&mut message, &transcript.dialer);
    put(
        &mut message,
        &code_of_transcript(key, DIALS, transcript, verdict),
    );
    write_message(sink, &message)?;
    if let Some(refusal) = refusal {
        return Err(HelloFault::Refuses(refusal));
    }
    read_welcome(source, key, transcript)?;
    Ok(keys_of(key, transcript))
}

/// Runs the hello of the site that accepts, up to the card of the site that dials. At Ok that card came with a welcome and with the code
/// of the secret, over both nonces and both cards. The caller judges the card and continues with `give_verdict`. `nonce` is 32 random
/// bytes that no other hello has.
///
/// The opening is written before anything is read, so that a site of another version learns this one's, and the offer before anything is
/// read after the dialer's opening. The source is read at most 64 times. Before `Silent` it gives at most 36 bytes without an offer, and at
/// most 142 with one. At `NotSent` the sink has taken a prefix of the opening, and nothing was read; or the opening and a prefix of the
/// offer, and the dialer's opening was read.
///
/// Errors: `NotSent`; then each part is judged once it has come, and it is `Silent` if the next one doesn't come; in order:
/// `OtherProtocol`; `OtherVersion`; `IsRefused` with `WrongSecret` if the other site refuses this site's code; `WrongSecret`, after the
/// refusal is sent to the other site; `IsRefused` if the other site's verdict is a refusal.
pub fn accept_hello<S: Source, W: Sink>(
    source: &mut S,
    sink: &mut W,
    key: &Key,
    nonce: &[u8; 32],
    own: &Card,
) -> Result<Transcript, HelloFault>
    requires source { S.failed source.old ≡ false }
    requires sink { W.failed sink.old ≡ false }
    ensures accepted { IfOk result (λ transcript. HasAccepted (S.left source.old)
        (S.left source.new) (W.taken sink.old) (W.taken sink.new) key.now nonce.now own.now
        transcript) }
    ensures source { OnOk result (S.failed source.new ≡ false) }
    ensures sink { OnOk result (W.failed sink.new ≡ false) }
    ensures fault { IfErr result (λ fault. AcceptFails (S.left source.old) (S.left source.new)
        key.now nonce.now own.now fault) }
    ensures wrote { IfErr result (λ fault. AcceptWrites (W.taken sink.old) (W.taken sink.new)
        (W.failed sink.new) key.now nonce.now own.now fault) }
    ensures silent { (result ≡ Err HelloFault.Silent) → IsSilence (S.left source.old)
        (S.left source.new) (S.ended source.new) (S.failed source.new) }
    ensures not_sent { (result ≡ Err HelloFault.NotSent) → W.failed sink.new ≡ true }
    ensures unsent { (result ≡ Err HelloFault.NotSent) → ((source.new ≡ source.old)
        × HasTaken (W.taken sink.old) (W.taken sink.new) (opening nonce.now))
        ⊎ HasCutOffer (S.left source.old) (S.left source.new) (W.taken sink.old)
        (W.taken sink.new) key.now nonce.now own.now }
    ensures waits { (result ≡ Err HelloFault.Silent) → AcceptWaits (S.left source.old)
        (S.left source.new) (W.taken sink.old) (W.taken sink.new) key.now nonce.now own.now }
    ensures reads { S.reads_left source.old ≤ S.reads_left source.new + 64 }
{
    write_opening(sink, nonce)?;
    let theirs = read_opening(source)?;
    write_offer(sink, key, &theirs, nonce, own)?;
    let verdict = read_verdict(source)?;
    let (card, code) = read_card(source)?;
    let transcript = Transcript {
        dialer_nonce: theirs,
        acceptor_nonce: *nonce,
        acceptor: *own,
        dialer: card,
    };
    if !same_bytes(&code, &code_of_transcript(key, DIALS, &transcript, verdict)) {
        send_wrong_secret(sink);
        return Err(HelloFault::WrongSecret);
    }
    match refusal_of(verdict) {
        None => Ok(transcript),
        Some(refusal) => Err(HelloFault::IsRefused(refusal)),
    }
}

/// Runs the rest of the hello of the site that accepts: it sends the verdict on the other site's card. At Ok the link has these keys.
/// `refusal` is not `WrongSecret`, which is sent without a code.
///
/// Errors: `NotSent`, and the sink has taken a prefix of the verdict and its code; `Refuses` if `refusal` is one, after it was sent.
pub fn give_verdict<W: Sink>(
    sink: &mut W,
    key: &Key,
    transcript: &Transcript,
    refusal: Option<Refusal>,
) -> Result<LinkKeys, HelloFault>
    requires sink { W.failed sink.old ≡ false }
    requires judged { refusal ≡ Some Refusal.WrongSecret → ⊥ }
    ensures welcome { OnOk result (refusal ≡ None) }
    ensures written { (result ≡ Err HelloFault.NotSent → ⊥) → Appends (W.taken sink.old)
        (W.taken sink.new) (verdict_bytes key.now transcript.now (verdict_number refusal)) }
    ensures keys { IfOk result (λ keys. (keys.items ≡ item_key key.now transcript.now)
        × (keys.acknowledgements ≡ acknowledgement_key key.now transcript.now)) }
    ensures works { OnOk result (W.failed sink.new ≡ false) }
    ensures refuses { IfSome refusal (λ cause. (result ≡ Err HelloFault.NotSent)
        ⊎ (result ≡ Err (HelloFault.Refuses cause))) }
    ensures fault { refusal ≡ None → OnErr result (result ≡ Err HelloFault.NotSent) }
    ensures not_sent { (result ≡ Err HelloFault.NotSent) → W.failed sink.new ≡ true }
    ensures begun { (result ≡ Err HelloFault.NotSent) → HasTaken (W.taken sink.old)
        (W.taken sink.new) (verdict_bytes key.now transcript.now (verdict_number refusal)) }
{
    let verdict = number_of_verdict(refusal);
    let mut message = Message::new();
    put(&mut message, &[verdict]);
    put(
        &mut message,
        &code_of_transcript(key, VERDICT, transcript, verdict),
    );
    write_message(sink, &message)?;
    match refusal {
        None => Ok(keys_of(key, transcript)),
        Some(refusal) => Err(HelloFault::Refuses(refusal)),
    }
}
