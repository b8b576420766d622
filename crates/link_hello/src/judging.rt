ghost use Rattle.std.specs.Prelude.{◌≡◌, ◌≢◌, ◌↔◌, None, Some};
ghost use Rattle.dots.specs.Values.{IsSite};
ghost use Rattle.link_hello.specs.Cards.{IsOfOurs, IsOlder};

use crate::{Card, Refusal};
use dots::SITES;

/// Returns what is wrong with another site's card, compared with this site's own. In order: `NoSuchSite`; `OtherQueues`; `Itself` if it is
/// this site's own card; `OlderCopy` if it has this site's number and store, and a smaller start count; `SameNumber` if it has this site's
/// number. `None` if none of them holds.
pub fn judge(own: &Card, other: &Card) -> Option<Refusal>
    ensures no_such_site { (result ≡ Some Refusal.NoSuchSite) ↔ (IsSite other.now.number → ⊥) }
    ensures other_queues { (result ≡ Some Refusal.OtherQueues)
        ↔ (IsSite other.now.number × (other.now.queues ≢ own.now.queues)) }
    ensures itself { (result ≡ Some Refusal.Itself)
        ↔ (IsOfOurs own.now other.now × (other.now ≡ own.now)) }
    ensures older_copy { (result ≡ Some Refusal.OlderCopy)
        ↔ (IsOfOurs own.now other.now × IsOlder own.now other.now) }
    ensures same_number { (result ≡ Some Refusal.SameNumber) ↔ (IsOfOurs own.now other.now
        × (other.now.number ≡ own.now.number) × (other.now ≢ own.now)
        × (IsOlder own.now other.now → ⊥)) }
    ensures none { (result ≡ None)
        ↔ (IsOfOurs own.now other.now × (other.now.number ≢ own.now.number)) }
{
    if u16::from(other.number) >= SITES {
        return Some(Refusal::NoSuchSite);
    }
    if other.queues != own.queues {
        return Some(Refusal::OtherQueues);
    }
    if other == own {
        return Some(Refusal::Itself);
    }
    if other.number != own.number {
        return None;
    }
    if other.store == own.store && other.starts < own.starts {
        Some(Refusal::OlderCopy)
    } else {
        Some(Refusal::SameNumber)
    }
}
