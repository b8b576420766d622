//! The tasks of the threads of a linked site with a store.
ghost use Rattle.std.specs.Prelude.{◌≡◌};

use crate::linked_site::LinkedSite;
use crate::tasks::LinkedTask;
use crate::working::{answer, dial, hear, spread_news};
use pass_desk::RingingDesk;
use site_desk::Pass;
use site_journal::DeskFault;
use site_peers::EndReason;
use std::alloc::Global;
use std::net::{Net, TcpListener, TcpStream};
use std::random::RandomSource;
use std::sync::Wait;
use std::time::{Clock, Duration};
use stored_desk::{StepStore, StoredDesk, StoredLedger, StoredPort};
use stored_pass_desk::{StoredPassDesk, save_all};
use stored_threads::{StoredTask, TaskEnd};

// The time between two saves of what the site has taken, in milliseconds.
const SAVE_MILLIS: u64 = 50;

// How often it is looked whether a frame of each peer was taken, and the time between two looks, in milliseconds.
const LOOKS: u32 = 80;

const LOOK_MILLIS: u64 = 50;

// Waits until a frame of each peer was taken that the site dials, itself not counted, for at most 4 seconds, or until the site ends. So
// a site whose store is an older copy mostly finds that out before it makes adds anew that its store lacks.
fn await_peers<R: Wait + Clock>(rt: &R, site: &LinkedSite) {
    let pause = Duration::from_millis(LOOK_MILLIS);
    for _ in 0..LOOKS {
        if !site.links.awaits_peers(rt) || site.links.ending().wait_within(rt, pause) {
            return;
        }
    }
}

// Answers the clients of a site by this pass, as `answer` does, once `await_peers` has returned, and none if the site ends by then. Each
// change rings the site's bell, and its reply leaves once its step is durable. Gives the pass back.
fn answer_by<
    D: StepStore,
    L: StoredLedger,
    R: Net<Listener = TcpListener, Stream = TcpStream> + Wait + Clock,
>(rt: &R, alloc: Global, site: &LinkedSite, desk: &StoredDesk<D, L>, pass: Pass<L>) -> Pass<L>
    ensures { result.ordinal ≡ pass.ordinal }
{
    await_peers(rt, site);
    if site.links.ending().reason(rt).is_some() {
        site.clients().stop(rt);
    }
    let mut ringing = RingingDesk::new(StoredPassDesk::new(desk, pass), site.bell());
    answer(rt, alloc, site, &mut ringing);
    ringing.into_inner().into_pass()
}

// Makes the frames of a site by this pass, as `spread_news` does, until the site's bell has ended; then the site ends.
fn spread_by<
    D: StepStore,
    L: StoredLedger,
    R: Net<Listener = TcpListener, Stream = TcpStream> + Wait + Clock,
>(rt: &R, alloc: Global, site: &LinkedSite, desk: &StoredDesk<D, L>, pass: &mut Pass<L>)
    ensures { pass.new.ordinal ≡ pass.old.ordinal }
{
    let port = StoredPort::new(desk, pass);
    spread_news(rt, alloc, site, desk, port);
}

// Hears the peers of a site by this pass, as `hear` does, until the site ends.
fn hear_by<
    D: StepStore,
    L: StoredLedger,
    R: Net<Listener = TcpListener, Stream = TcpStream> + Wait + Clock + RandomSource,
>(rt: &R, alloc: Global, site: &LinkedSite, desk: &StoredDesk<D, L>, pass: &mut Pass<L>)
    ensures { pass.new.ordinal ≡ pass.old.ordinal }
{
    let port = StoredPort::new(desk, pass);
    hear(rt, alloc, site, desk, port);
}

// Logs why a commit of a site's store has failed, if the desk knows, and ends the site as `StoreFailed`.
fn end_failed<
    D: StepStore,
    L: StoredLedger,
    R: Net<Listener = TcpListener, Stream = TcpStream> + Wait,
>(rt: &R, alloc: Global, site: &LinkedSite, desk: &StoredDesk<D, L>) {
    if let Some(fault) = desk.fault(rt) {
        let clients = site.clients();
        let number = clients.number().number();
        let line = format!(in alloc; "queue_sites: site {number}: store failed: {fault}");
        clients.events().add(rt, line);
    }
    site.end(rt, alloc, EndReason::StoreFailed);
}

// Saves what the site has done, and gives its store a new base if one is due, 50 ms after the save before, until the site ends;
// then it saves no more. Out of memory, it leaves that to the next save. If the store has failed, it ends the site and returns.
fn save_to_the_end<
    D: StepStore,
    L: StoredLedger,
    R: Net<Listener = TcpListener, Stream = TcpStream> + Wait + Clock,
>(rt: &R, alloc: Global, site: &LinkedSite, desk: &StoredDesk<D, L>) {
    let pause = Duration::from_millis(SAVE_MILLIS);
    for _ in rt.forever() {
        if site.links.ending().wait_within(rt, pause) {
            return;
        }
        if let Err(DeskFault::Unsaved) = save_all(rt, desk) {
            end_failed(rt, alloc, site, desk);
            return;
        }
    }
}

impl<R: Net<Listener = TcpListener, Stream = TcpStream> + Wait + Clock + RandomSource> StoredTask<
    LinkedSite,
    R,
> for LinkedTask {
    // The output is why the site ends, if it does by then.
    fn run<D: StepStore, L: StoredLedger>(
        self,
        rt: &R,
        alloc: Global,
        shared: &LinkedSite,
        desk: &StoredDesk<D, L>,
        pass: Pass<L>,
    ) -> TaskEnd<L, Option<EndReason>> {
        let mut pass = pass;
        match self {
            LinkedTask::Answer => {
                pass = answer_by(rt, alloc, shared, desk, pass);
                shared.end_accepting();
            }
            LinkedTask::Spread => {
                spread_by(rt, alloc, shared, desk, &mut pass);
                shared.end_accepting_threads(rt, alloc);
            }
            LinkedTask::Dial(place) => dial(rt, alloc, shared, place),
            LinkedTask::Hear => {
                hear_by(rt, alloc, shared, desk, &mut pass);
                shared.end_accepting();
            }
            LinkedTask::Save => save_to_the_end(rt, alloc, shared, desk),
        }
        let output = shared.links.ending().reason(rt);
        TaskEnd { pass, output }
    }
}
