//! The codes and keys of a hello: HMAC-SHA-256 under the secret's key, of a label and what both sides said.
ghost use Rattle.std.specs.Prelude.{◌≡◌, ◌++◌};
ghost use Rattle.link_keys.specs.Macs.{HoldsMessage};
ghost use Rattle.link_hello.specs.Cards.{card_bytes};
ghost use Rattle.link_hello.specs.Codes.{acceptor_code, acknowledgement_key, item_key};
ghost use Rattle.link_hello.specs.Codes.{transcript_bytes, transcript_code};

use crate::card::put_card;
use crate::messages::Message;
use crate::{Card, Transcript};
use link_keys::{Key, Mac};

// The label of the code of the site that accepts.
const ACCEPTS: &[u8] = b"queue sites link 2, accepts";

// The label of the code of the site that dials.
pub(crate) const DIALS: &[u8] = b"queue sites link 2, dials";

// The label of the code of a verdict.
pub(crate) const VERDICT: &[u8] = b"queue sites link 2, verdict";

// The label of the key of items.
const ITEMS: &[u8] = b"queue sites link 2, items";

// The label of the key of acknowledgements.
const ACKNOWLEDGEMENTS: &[u8] = b"queue sites link 2, acknowledgements";

/// The keys of a link, one for each direction.
#[derive(Drop)]
pub struct LinkKeys {
    /// The key of items, which the site that dialed sends.
    pub items: Key,
    /// The key of acknowledgements, which the site that accepted sends.
    pub acknowledgements: Key,
}

// The bytes of a card.
pub(crate) fn bytes_of_card(card: &Card) -> Message
    ensures { result.items ≡ card_bytes card.now }
{
    let mut bytes = Message::new();
    put_card(&mut bytes, card);
    bytes
}

// The code of the site that accepts: of both nonces and its card.
pub(crate) fn code_of_acceptor(
    key: &Key,
    dialer_nonce: &[u8; 32],
    acceptor_nonce: &[u8; 32],
    card: &Card,
) -> [u8; 32]
    ensures { result ≡ acceptor_code key.now dialer_nonce.now acceptor_nonce.now card.now }
{
    let mut mac = Mac::new(key);
    mac.add(ACCEPTS);
    mac.add(dialer_nonce);
    mac.add(acceptor_nonce);
    mac.add(&bytes_of_card(card));
    mac.finish()
}

// A message under a label, of both nonces and both cards.
fn transcript_mac(key: &Key, label: &[u8], transcript: &Transcript) -> Mac
    ensures { HoldsMessage key.now (label.now ++ transcript_bytes transcript.now) result }
{
    let mut mac = Mac::new(key);
    mac.add(label);
    mac.add(&transcript.dialer_nonce);
    mac.add(&transcript.acceptor_nonce);
    mac.add(&bytes_of_card(&transcript.acceptor));
    mac.add(&bytes_of_card(&transcript.dialer));
    mac
}

// The code of both nonces, both cards and a verdict's byte, under a label.
pub(crate) fn code_of_transcript(
    key: &Key,
    label: &[u8],
    transcript: &Transcript,
    verdict: u8,
) -> [u8; 32]
    ensures { result ≡ transcript_code key.now label.now transcript.now verdict }
{
    let mut mac = transcript_mac(key, label, transcript);
    mac.add(&[verdict]);
    mac.finish()
}

// The keys of a link: a code of both nonces and both cards, under a label for each direction.
pub(crate) fn keys_of(key: &Key, transcript: &Transcript) -> LinkKeys
    ensures items { result.items ≡ item_key key.now transcript.now }
    ensures acknowledgements { result.acknowledgements
        ≡ acknowledgement_key key.now transcript.now }
{
    LinkKeys {
        items: Key::new(transcript_mac(key, ITEMS, transcript).finish()),
        acknowledgements: Key::new(transcript_mac(key, ACKNOWLEDGEMENTS, transcript).finish()),
    }
}
