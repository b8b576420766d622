ghost use Rattle.std.specs.Prelude.{◌≡◌, ◌↔◌, IfSome, None};
ghost use Rattle.link_hello.specs.Refusals.{IsNumberOf, refusal_number, verdict_number};

use thiserror::Error;

/// Why a site refuses another one's card or code. If several causes hold, the first of this list is sent.
#[derive(Clone, Copy, Debug, PartialEq, Eq, Error)]
pub enum Refusal {
    /// The other one has another secret.
    #[error("wrong secret")]
    WrongSecret,
    /// The card's number is that of no site.
    #[error("no such site number")]
    NoSuchSite,
    /// The card's queues are others, or in another order.
    #[error("other queues")]
    OtherQueues,
    /// The card is the refusing site's own.
    #[error("it is this site itself")]
    Itself,
    /// The card has the refusing site's number, and another store, or of its store a later start or another process of the same start.
    #[error("another site has this site's number")]
    SameNumber,
    /// The card's number belongs to another store.
    #[error("its site number belongs to another store")]
    TakenNumber,
    /// The card's number belongs to its store, of which a greater start count was seen: it is an older copy, or an earlier start.
    #[error("its store is an older copy")]
    OlderCopy,
    /// The card's number belongs to its store, of which another process was seen with the same start count: two copies were started, or
    /// a start was lost.
    #[error("its store was copied: another process has this start of it")]
    SecondCopy,
    /// For a cause that this version doesn't know.
    #[error("unknown cause")]
    Unknown,
}

impl Refusal {
    /// The byte of this refusal, 1 to 255. A byte of 0 is a welcome.
    pub fn number(self) -> u8
        ensures { result ≡ refusal_number self }
    {
        match self {
            Refusal::NoSuchSite => 1,
            Refusal::OtherQueues => 2,
            Refusal::Itself => 3,
            Refusal::SameNumber => 4,
            Refusal::TakenNumber => 5,
            Refusal::WrongSecret => 6,
            Refusal::OlderCopy => 7,
            Refusal::SecondCopy => 8,
            Refusal::Unknown => 255,
        }
    }
}

// The refusal of a byte. `None` if the byte is a welcome; `Unknown` if it is the number of no other refusal.
pub(crate) fn refusal_of(number: u8) -> Option<Refusal>
    ensures welcome { (result ≡ None) ↔ (number ≡ 0) }
    ensures refusal { IfSome result (λ refusal. IsNumberOf refusal number) }
{
    match number {
        0 => None,
        1 => Some(Refusal::NoSuchSite),
        2 => Some(Refusal::OtherQueues),
        3 => Some(Refusal::Itself),
        4 => Some(Refusal::SameNumber),
        5 => Some(Refusal::TakenNumber),
        6 => Some(Refusal::WrongSecret),
        7 => Some(Refusal::OlderCopy),
        8 => Some(Refusal::SecondCopy),
        _ => Some(Refusal::Unknown),
    }
}

// The byte of a verdict: 0 for a welcome, else the refusal's number.
pub(crate) fn number_of_verdict(refusal: Option<Refusal>) -> u8
    ensures { result ≡ verdict_number refusal }
{
    match refusal {
        None => 0,
        Some(refusal) => refusal.number(),
    }
}
