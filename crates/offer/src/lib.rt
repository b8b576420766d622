//! Offers: the member of a queue that gets the next call (this project's own).
//!
//! That is the member of the least penalty, and for equal penalties the one whose interface has the least bytes. Paused
//! members and tried ones are left out. Ring in use has no effect.
#![tactic(auto)]

ghost use Rattle.std.specs.Prelude.{◌≡◌};
ghost use Rattle.std.specs.Result.{result_ok};
ghost use Rattle.operations.specs.Rows.{dot_view, rows_of as rows_read};
ghost use Rattle.replica.specs.Site.{rows_of};
ghost use Rattle.replica.specs.Standing.{StandsFor};
ghost use Rattle.replica.specs.Steps.{SiteKnowledge};
ghost use Rattle.offer.specs.Offers.{offered as offered_of};

mod first;
pub mod laws;
mod no_such_queue;
mod offered;

use crate::first::first_offer;
pub use dots::Interface;
use dots::QueueName;
pub use no_such_queue::NoSuchQueue;
pub use offered::Offer;
use replica::Replica;

/// The member of the queue that is offered the next call: of those that aren't paused and whose interfaces aren't among the
/// tried ones, the one of the least penalty, and for equal penalties that of the least interface, by its bytes. `None`
/// exactly if there is no such member.
///
/// Takes no memory, and changes nothing. Visits each row once, and the tried ones for each row that isn't paused and precedes
/// the first offer so far; they may be in any order, and may repeat.
///
/// Fails only with `NoSuchQueue`, exactly where the queue isn't in the list.
pub fn offer(
    replica: &Replica,
    queue: &QueueName,
    tried: &[Interface],
) -> Result<Option<Offer>, NoSuchQueue>
    ensures value { result_ok result
        ≡ offered_of replica.now.names (rows_of replica.now) queue.now tried.now }
    ensures meaning { (s : SiteKnowledge) → StandsFor replica.now s → result_ok result
        ≡ offered_of replica.now.names (rows_read (dot_view s.known)) queue.now tried.now }
{
    match replica.list().position(queue) {
        None => Err(NoSuchQueue),
        Some(number) => Ok(first_offer(replica.rows(number), tried)),
    }
}
