ghost use Rattle.std.specs.Prelude.{◌≡◌, ◌⊎◌, ◌≤◌, IfSome, IsOk, ◌≢◌, ◌↔◌, ◌<◌, IfOk, IsErrOf};
ghost use Rattle.std.specs.Prelude.{IsSomeAnd, None, OnErr, OnOk, Some, replicate, slice_set};
ghost use Rattle.dots.specs.Values.{IsSite};
ghost use Rattle.link_hello.specs.Cards.{IsOfOurs, IsOlder};
ghost use Rattle.roll.specs.Rolls.{IsPeer, identity_of, seen_with};

use dots::{SITES, SiteId};
use link_hello::{Card, Refusal, judge};
use std::marker::Model;

// How many site numbers there are.
const NUMBERS: usize = SITES as usize;

/// Which store a site is of, the greatest start count that was seen of it, and the process of that start.
#[derive(Clone, Copy)]
pub struct Identity {
    /// The 16 bytes that name the store.
    pub store: [u8; 16],
    /// How often the store was started.
    pub starts: u64,
    /// The 16 bytes that name the process.
    pub process: [u8; 16],
}

/// The stores that were seen, one for each of the 64 site numbers. As long as the roll lasts a number stays that of the first store that
/// was seen with it, its start count never falls, and each start stays that of the first process that was seen with it. A new process
/// begins with a roll on which no store was seen.
#[derive(Drop)]
pub struct Roll {
    seen: [Option<Identity>; NUMBERS],
}

impl Model for Roll {
    ghost use Rattle.std.specs.Prelude.{List, Option};
    ghost use Rattle.roll.specs.declared.roll.Identity.{Identity};

    ghost Value = { List (Option Identity) };

    ghost view = { λ r. r.seen };
}

// Why a site isn't admitted whose number was seen with this store, start count and process. `None`: it is admitted. In order: `TakenNumber`,
// `OlderCopy`, `SecondCopy`.
fn refusal_by(seen: &Identity, card: &Card) -> Option<Refusal>
    ensures none { (result ≡ None) ↔ ((seen.now.store ≡ card.now.store)
        × (seen.now.starts ≤ card.now.starts)
        × (seen.now.starts ≡ card.now.starts → seen.now.process ≡ card.now.process)) }
    ensures taken_number { (result ≡ Some Refusal.TakenNumber)
        ↔ (seen.now.store ≢ card.now.store) }
    ensures older_copy { (result ≡ Some Refusal.OlderCopy) ↔ ((seen.now.store ≡ card.now.store)
        × (card.now.starts < seen.now.starts)) }
    ensures second_copy { (result ≡ Some Refusal.SecondCopy)
        ↔ ((seen.now.store ≡ card.now.store) × (seen.now.starts ≡ card.now.starts)
        × (seen.now.process ≢ card.now.process)) }
    ensures other { IfSome result (λ refusal. (refusal ≡ Refusal.TakenNumber)
        ⊎ ((refusal ≡ Refusal.OlderCopy) ⊎ (refusal ≡ Refusal.SecondCopy))) }
{
    if seen.store != card.store {
        return Some(Refusal::TakenNumber);
    }
    if card.starts < seen.starts {
        return Some(Refusal::OlderCopy);
    }
    if card.starts == seen.starts && card.process != seen.process {
        return Some(Refusal::SecondCopy);
    }
    None
}

impl Roll {
    /// A roll on which no store was seen.
    pub fn new() -> Roll
        ensures { result ≡ replicate SITES None }
    {
        Roll {
            seen: [None; NUMBERS],
        }
    }

    /// Judges another site's card, keeps its store, start count and process where nothing is wrong with it, and returns its site. `own`
    /// is this site's card.
    ///
    /// Errors, in order: `NoSuchSite`, `OtherQueues`, `Itself`, `OlderCopy`, `SameNumber`, by `judge`; `TakenNumber` if the card's number
    /// was seen with another store; `OlderCopy` if it was seen with this store and a greater start count; `SecondCopy` if it was seen with
    /// this store, this start count and another process. They change nothing.
    pub fn admit(&mut self, own: &Card, card: &Card) -> Result<SiteId, Refusal>
        ensures site { IfOk result (λ site. site ≡ card.now.number) }
        ensures kept { OnOk result (self.new
            ≡ slice_set self.old card.now.number (Some (identity_of card.now))) }
        ensures admitted { IsOk result ↔ (IsPeer own.now card.now
            × IfSome (seen_with self.old card.now.number) (λ seen.
            (seen.store ≡ card.now.store) × (seen.starts ≤ card.now.starts)
            × (seen.starts ≡ card.now.starts → seen.process ≡ card.now.process))) }
        ensures err { OnErr result (self.new ≡ self.old) }
        ensures judged { IsErrOf result Refusal.WrongSecret → ⊥ }
        ensures no_such_site { IsErrOf result Refusal.NoSuchSite
            ↔ (IsSite card.now.number → ⊥) }
        ensures other_queues { IsErrOf result Refusal.OtherQueues
            ↔ (IsSite card.now.number × (card.now.queues ≢ own.now.queues)) }
        ensures itself { IsErrOf result Refusal.Itself
            ↔ (IsOfOurs own.now card.now × (card.now ≡ own.now)) }
        ensures same_number { IsErrOf result Refusal.SameNumber ↔ (IsOfOurs own.now card.now
            × (card.now.number ≡ own.now.number) × (card.now ≢ own.now)
            × (IsOlder own.now card.now → ⊥)) }
        ensures taken_number { IsErrOf result Refusal.TakenNumber ↔ (IsPeer own.now card.now
            × IsSomeAnd (seen_with self.old card.now.number) (λ seen.
            seen.store ≢ card.now.store)) }
        ensures older_copy { IsErrOf result Refusal.OlderCopy
            ↔ ((IsOfOurs own.now card.now × IsOlder own.now card.now)
            ⊎ (IsPeer own.now card.now
            × IsSomeAnd (seen_with self.old card.now.number) (λ seen.
            (seen.store ≡ card.now.store) × (card.now.starts < seen.starts)))) }
        ensures second_copy { IsErrOf result Refusal.SecondCopy ↔ (IsPeer own.now card.now
            × IsSomeAnd (seen_with self.old card.now.number) (λ seen.
            (seen.store ≡ card.now.store) × (seen.starts ≡ card.now.starts)
            × (seen.process ≢ card.now.process))) }
    {
        if let Some(refusal) = judge(own, card) {
            return Err(refusal);
        }
        let Some(site) = card.site() else {
            unreachable!();
        };
        let place = usize::from(card.number);
        if let Some(seen) = &self.seen[place] {
            if let Some(refusal) = refusal_by(seen, card) {
                return Err(refusal);
            }
        }
        self.seen[place] = Some(Identity {
            store: card.store,
            starts: card.starts,
            process: card.process,
        });
        Ok(site)
    }
}
