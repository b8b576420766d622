//! What the threads of a linked site do.
ghost use Rattle.std.specs.Prelude.{◌≡◌, ◌≤◌, IfOk, vec_capacity, vec_len};
ghost use Rattle.linked_site.specs.Tasks.{tasks_for};
ghost use Rattle.dots.specs.declared.limits.TheConstants.{MOST_PEERS};

use dots::Memory;
use serving_clients::{PlaceCount, answering_threads};
use site_peers::EndReason;
use site_threads::TaskOutput;
use std::alloc::Global;

// How many more threads accept links than there are peers, so that connections that say nothing don't keep out a peer.
const MORE_HEARING: usize = 4;

// What a thread of a linked site does.
#[derive(Clone, Copy)]
pub(crate) enum LinkedTask {
    // It answers one client after another.
    Answer,
    // It makes the site's frames.
    Spread,
    // It dials the peer at this place of the list, and sends the frames.
    Dial(usize),
    // It accepts one link after another, and lets the site take the frames that come over it.
    Hear,
    // It saves what the site has taken.
    Save,
}

impl TaskOutput for LinkedTask {
    ghost use Rattle.std.specs.Prelude.{⊤};

    // Why the site ends.
    type Output = Option<EndReason>;

    ghost gives = { λ task site names old output new. ⊤ };
}

// How many tasks of a site accept clients or links.
pub(crate) fn accepting_tasks(places: PlaceCount, peers: usize) -> u64 {
    let hearing = (peers as u64).saturating_add(MORE_HEARING as u64);
    u64::from(answering_threads(places)).saturating_add(hearing)
}

// The tasks of a site with this number of places and of peers. With a store one `saves`. It fails only when out of
// memory.
pub(crate) fn tasks_of(
    alloc: Global,
    places: PlaceCount,
    peers: usize,
    saves: bool,
) -> Result<Vec<LinkedTask>, Memory>
    requires { peers ≤ MOST_PEERS }
    ensures tasks { IfOk result (λ tasks. tasks.items ≡ tasks_for places peers saves) }
    ensures some { IfOk result (λ tasks. 1 ≤ vec_len tasks) }
    ensures few { IfOk result (λ tasks. vec_len tasks ≤ 256) }
{
    let number = usize::from(places.get()) + 2 * peers + MORE_HEARING + 3;
    let mut tasks = Vec::with_capacity(alloc, number)?;
    'answering: for _i in 0..answering_threads(places) {
        tasks.push_reserved(LinkedTask::Answer);
    }
    tasks.push_reserved(LinkedTask::Spread);
    'dialing: for place in 0..peers {
        tasks.push_reserved(LinkedTask::Dial(place));
    }
    'hearing: for _i in 0..peers + MORE_HEARING {
        tasks.push_reserved(LinkedTask::Hear);
    }
    if saves {
        tasks.push_reserved(LinkedTask::Save);
    }
    Ok(tasks)
}
