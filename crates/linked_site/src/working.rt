//! The tasks of a linked site's threads.
ghost use Rattle.std.specs.Prelude.{◌≡◌};
ghost use Rattle.serving_clients.specs.Answering.{HasAnsweredClients};
ghost use Rattle.site_pumps.specs.Calls.{HasCalled};

use crate::linked_site::LinkedSite;
use crate::tasks::LinkedTask;
use dots::Memory;
use pass_desk::{Ear, PassDesk, RingingDesk};
use serve::Desk;
use serving_clients::answer_clients;
use site_desk::{DeskPort, Pass, SiteDesk, SiteLedger};
use site_journal::{DeskFault, Port};
use site_peers::{EndReason, SharedOutbox, dial_peer, hear_peers, spread};
use site_threads::{Task, TaskEnd};
use std::alloc::Global;
use std::net::{Net, TcpListener, TcpStream};
use std::random::RandomSource;
use std::sync::Wait;
use std::time::{Clock, Duration};
use stored_pass_desk::{KeepingPort, Upkeep};

// How long the thread that makes frames waits after a fault, in milliseconds.
const PAUSE_MILLIS: u64 = 20;

// Answers one client after another over this desk, until the site takes no more. The last of these threads ends the site's bell.
pub(crate) fn answer<R: Net<Listener = TcpListener, Stream = TcpStream> + Wait + Clock, D: Desk<R>>(
    rt: &R,
    alloc: Global,
    site: &LinkedSite,
    desk: &mut D,
)
    ensures { HasAnsweredClients D.answers D.refuses desk.old desk.new }
{
    if answer_clients(rt, alloc, site.clients(), desk) {
        site.bell().end(rt);
    }
}

// Waits for 20 ms after a fault of the thread that makes frames, or until the site ends. If it doesn't end the bell rings, so that what
// it had to make is made; but not where the site has used up its frame numbers.
fn recover<R: Wait + Clock>(rt: &R, site: &LinkedSite, fault: DeskFault) {
    let pause = Duration::from_millis(PAUSE_MILLIS);
    let ends = site.links.ending().wait_within(rt, pause);
    match fault {
        DeskFault::Exhausted => {}
        _ if ends => {}
        _ => site.bell().ring(rt),
    }
}

// Makes the frames of a site by this port at each ring of its bell, and hands them to these outboxes, until the bell has ended. After a
// fault it does as `recover`, and goes on.
fn spread_to_the_end<R: Wait + Clock, P: Port<R>>(
    rt: &R,
    site: &LinkedSite,
    port: &mut P,
    outboxes: &mut [SharedOutbox<'_>],
)
    ensures { HasCalled P.makes P.refuses port.old port.new }
{
    let mut ear = Ear::new(site.bell());
    for _ in rt.forever() {
        let spreads = spread(rt, port, outboxes, &mut ear);
        if ear.has_bell_ended() {
            drop(ear);
            return;
        }
        if let Err(fault) = spreads {
            recover(rt, site, fault);
        }
        ear.begin_round(rt);
    }
    unreachable!()
}

// The outboxes of a site's peers. While it is out of memory it tries again, each 20 ms. `None`: the site ended before there was memory.
fn outboxes_of<'s, R: Wait + Clock>(
    rt: &R,
    alloc: Global,
    site: &'s LinkedSite,
) -> Option<Vec<SharedOutbox<'s>>> {
    for _ in rt.forever() {
        match site.links.outboxes(alloc) {
            Ok(outboxes) => return Some(outboxes),
            Err(Memory) => {}
        }
        let pause = Duration::from_millis(PAUSE_MILLIS);
        if site.links.ending().wait_within(rt, pause) {
            return None;
        }
    }
    unreachable!()
}

// Makes the frames of a site by this port until its bell has ended, and then ends the site as `Asked`, unless it ends already. Makes
// none if the site ends before there is memory for the outboxes. The journal is kept within its limits. Gives the port back.
pub(crate) fn spread_news<
    R: Net<Listener = TcpListener, Stream = TcpStream> + Wait + Clock,
    P: Port<R>,
    U: Upkeep<R>,
>(rt: &R, alloc: Global, site: &LinkedSite, upkeep: &U, port: P) -> P
    ensures { HasCalled P.makes P.refuses port result }
{
    let Some(mut outboxes) = outboxes_of(rt, alloc, site) else {
        return port;
    };
    let mut keeping = KeepingPort::new(port, upkeep);
    spread_to_the_end(rt, site, &mut keeping, outboxes.as_mut_slice());
    drop(outboxes);
    site.end(rt, alloc, EndReason::Asked);
    keeping.into_inner()
}

// Dials the peer at this place, and sends the site's frames, until the site ends.
pub(crate) fn dial<
    R: Net<Listener = TcpListener, Stream = TcpStream> + Wait + Clock + RandomSource,
>(rt: &R, alloc: Global, site: &LinkedSite, place: usize) {
    dial_peer(rt, alloc, &site.links, site.log(alloc), place);
}

// Accepts one link after another, and lets the site take the frames by this port, until the site ends. The journal is kept within its
// limits. Gives the port back.
pub(crate) fn hear<
    R: Net<Listener = TcpListener, Stream = TcpStream> + Wait + Clock + RandomSource,
    P: Port<R>,
    U: Upkeep<R>,
>(rt: &R, alloc: Global, site: &LinkedSite, upkeep: &U, port: P) -> P
    ensures { HasCalled P.makes P.refuses port result }
{
    let mut keeping = KeepingPort::new(port, upkeep);
    let log = site.log(alloc);
    hear_peers(rt, alloc, &site.links, log, &site.heard, &mut keeping);
    keeping.into_inner()
}

// Answers the clients of a site without a store by this pass, as `answer` does. Each change rings the site's bell. Gives the pass back.
fn answer_by<L: SiteLedger, R: Net<Listener = TcpListener, Stream = TcpStream> + Wait + Clock>(
    rt: &R,
    alloc: Global,
    site: &LinkedSite,
    desk: &SiteDesk<L>,
    pass: Pass<L>,
) -> Pass<L>
    ensures { result.ordinal ≡ pass.ordinal }
{
    let mut ringing = RingingDesk::new(PassDesk::new(desk, pass), site.bell());
    answer(rt, alloc, site, &mut ringing);
    ringing.into_inner().into_pass()
}

// Makes the frames of a site without a store by this pass, as `spread_news` does, until the site's bell has ended; then the site ends.
fn spread_by<L: SiteLedger, R: Net<Listener = TcpListener, Stream = TcpStream> + Wait + Clock>(
    rt: &R,
    alloc: Global,
    site: &LinkedSite,
    desk: &SiteDesk<L>,
    pass: &mut Pass<L>,
)
    ensures { pass.new.ordinal ≡ pass.old.ordinal }
{
    let port = DeskPort::new(desk, pass);
    spread_news(rt, alloc, site, desk, port);
}

// Hears the peers of a site without a store by this pass, as `hear` does, until the site ends.
fn hear_by<
    L: SiteLedger,
    R: Net<Listener = TcpListener, Stream = TcpStream> + Wait + Clock + RandomSource,
>(rt: &R, alloc: Global, site: &LinkedSite, desk: &SiteDesk<L>, pass: &mut Pass<L>)
    ensures { pass.new.ordinal ≡ pass.old.ordinal }
{
    let port = DeskPort::new(desk, pass);
    hear(rt, alloc, site, desk, port);
}

impl<R: Net<Listener = TcpListener, Stream = TcpStream> + Wait + Clock + RandomSource> Task<
    LinkedSite,
    R,
> for LinkedTask {
    // A site without a store has nothing to save. The output is why the site ends, if it does by then.
    fn run<L: SiteLedger>(
        self,
        rt: &R,
        alloc: Global,
        shared: &LinkedSite,
        desk: &SiteDesk<L>,
        pass: Pass<L>,
    ) -> TaskEnd<L, Option<EndReason>> {
        let mut pass = pass;
        match self {
            LinkedTask::Answer => {
                pass = answer_by(rt, alloc, shared, desk, pass);
                shared.end_accepting();
            }
            LinkedTask::Spread => {
                spread_by(rt, alloc, shared, desk, &mut pass);
                shared.end_accepting_threads(rt, alloc);
            }
            LinkedTask::Dial(place) => dial(rt, alloc, shared, place),
            LinkedTask::Hear => {
                hear_by(rt, alloc, shared, desk, &mut pass);
                shared.end_accepting();
            }
            LinkedTask::Save => {}
        }
        let output = shared.links.ending().reason(rt);
        TaskEnd { pass, output }
    }
}
