//! The card of a site: how it names itself in a hello.
ghost use Rattle.std.specs.Prelude.{ℕ, ◌≡◌, ◌↔◌, ◌+◌, ◌≤◌, ◌∷◌, ◌++◌, IfSome, IsSome, List, length};
ghost use Rattle.std.specs.Int.{to_be_bytes, w64};
ghost use Rattle.arrayvec.specs.ArrayVec.{array_vec_len};
ghost use Rattle.dots.specs.Values.{IsSite};
ghost use Rattle.sha2.specs.Hashers.{Holds256};
ghost use Rattle.sha2.specs.Sha256.{sha256};
ghost use Rattle.link_hello.specs.Cards.{IsCard, card_bytes, queues_bytes};

use crate::messages::{MESSAGE_BYTES, Message, put};
use dots::{QueueName, SiteId};
use replica::QueueList;
use sha2::{Digest, Sha256};

/// How many bytes a card has.
pub const CARD_BYTES: usize = 73;

/// Which site it is, of which store, which start of it and which process, and of which queues.
#[derive(Clone, Copy, PartialEq, Eq)]
pub struct Card {
    /// The site's number. On a card of another site it may be that of no site.
    pub number: u8,
    /// The 16 bytes that name the site's store.
    pub store: [u8; 16],
    /// How often the store was started.
    pub starts: u64,
    /// The 16 random bytes that name the process of this start.
    pub process: [u8; 16],
    /// The digest of the site's queues, by [`queues_digest`].
    pub queues: [u8; 32],
}

// Adds the length of a name, one byte, and its bytes to what is hashed.
fn add_name(hasher: &mut Sha256, name: &QueueName)
    ensures { (m : List ℕ) → Holds256 hasher.old m
        → Holds256 hasher.new (m ++ length name.now ∷ name.now) }
{
    let bytes = name.as_bytes();
    hasher.update([bytes.len() as u8]);
    hasher.update(bytes);
}

/// The SHA-256 digest of the names of queues in their order: of each name its length, one byte, and its bytes.
pub fn queues_digest(list: &QueueList) -> [u8; 32]
    ensures { result ≡ sha256 (queues_bytes list.now) }
{
    let mut hasher = Sha256::new();
    'names: for place in 0..list.len() {
        match list.name(place) {
            Some(name) => add_name(&mut hasher, name),
            None => {}
        }
    }
    hasher.finalize()
}

impl Card {
    /// The site of this card. `None` exactly where its number is that of no site.
    pub fn site(&self) -> Option<SiteId>
        ensures within { IsSome result ↔ IsSite self.now.number }
        ensures value { IfSome result (λ site. site ≡ self.now.number) }
    {
        SiteId::new(u16::from(self.number))
    }
}

// Adds the bytes of a card to a message.
pub(crate) fn put_card(out: &mut Message, card: &Card)
    requires { array_vec_len out.old + CARD_BYTES ≤ MESSAGE_BYTES }
    ensures written { out.new.items ≡ out.old.items ++ card_bytes card.now }
    ensures len { array_vec_len out.new ≡ array_vec_len out.old + CARD_BYTES }
{
    put(out, &[card.number]);
    put(out, &card.store);
    put(out, &card.starts.to_be_bytes());
    put(out, &card.process);
    put(out, &card.queues);
}

// The number that eight bytes spell.
fn number_in(bytes: &[u8]) -> u64
    requires { length bytes.now ≡ 8 }
    ensures { to_be_bytes w64 result ≡ bytes.now }
{
    let mut number = [0u8; 8];
    number.copy_from_slice(bytes);
    u64::from_be_bytes(number)
}

// The card that these bytes are.
pub(crate) fn card_in(bytes: &[u8]) -> Card
    requires { length bytes.now ≡ CARD_BYTES }
    ensures bytes { card_bytes result ≡ bytes.now }
    ensures lengths { IsCard result }
{
    let (front, queues) = bytes.split_at(41);
    let (front, process) = front.split_at(25);
    let (front, starts) = front.split_at(17);
    let (number, store) = front.split_at(1);
    let mut card = Card {
        number: number[0],
        store: [0u8; 16],
        starts: number_in(starts),
        process: [0u8; 16],
        queues: [0u8; 32],
    };
    card.store.copy_from_slice(store);
    card.process.copy_from_slice(process);
    card.queues.copy_from_slice(queues);
    card
}
