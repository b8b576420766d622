//! The tasks of a site's threads.
ghost use Rattle.std.specs.Prelude.{◌≡◌, ◌+◌, ◌<◌, ◌≤◌, IfOk, vec_capacity, vec_len};
ghost use Rattle.serving_clients.specs.Answering.{HasAnsweredClients};
ghost use Rattle.server.specs.Tasks.{peer_at, tasks_for};

use crate::peer_link::PeerLink;
use crate::pumping::{send_news, take_news};
use crate::site::Site;
use dots::{Memory, SiteId};
use pass_desk::{PassDesk, RingingDesk};
use serve::Desk;
use serving_clients::answer_clients;
use site_desk::{DeskPort, Pass, SiteDesk, SiteLedger};
use site_links::{LinkEnds, LinkReceiver, LinkSender};
use site_threads::{Task, TaskEnd, TaskOutput};
use std::alloc::Global;
use std::net::{Net, TcpListener, TcpStream};
use std::sync::Wait;
use std::time::Clock;

// What a thread of a site does.
#[derive(Drop)]
pub(crate) enum SiteTask {
    // It answers one client after another.
    Answer,
    // It sends on these links what the site does.
    Send(Vec<LinkSender>),
    // It takes the frames of this peer, which this link brings.
    Take(SiteId, LinkReceiver),
}

// The site from which a link comes that stands at this place among those of the site `own`: they stand by the numbers of the other sites.
fn peer_of(own: SiteId, place: usize) -> SiteId
    requires { place < 63 }
    ensures { result ≡ peer_at own place }
{
    let place = place as u16;
    let number = if place < own.number() {
        place
    } else {
        place + 1
    };
    let Some(peer) = SiteId::new(number) else {
        unreachable!();
    };
    peer
}

// The tasks of the site `own`: `answering` threads answer, one sends, and one takes for each link that receives, at most 63. It fails
// only when out of memory, and drops the links.
pub(crate) fn tasks_of(
    alloc: Global,
    own: SiteId,
    answering: u32,
    links: LinkEnds,
) -> Result<Vec<SiteTask>, Memory>
    requires { vec_len links.from ≤ 63 }
    ensures number { IfOk result (λ tasks.
        vec_len tasks ≡ vec_len links.from + (answering + 1)) }
    ensures tasks { IfOk result (λ tasks. tasks.items ≡ tasks_for own answering links) }
{
    let LinkEnds { to, from } = links;
    let mut from = from;
    let mut tasks = match Vec::with_capacity(alloc, from.len() + answering as usize + 1) {
        Ok(tasks) => tasks,
        Err(_) => {
            drop(to);
            drop(from);
            return Err(Memory);
        }
    };
    for _i in 0..answering {
        tasks.push_reserved(SiteTask::Answer);
    }
    tasks.push_reserved(SiteTask::Send(to));
    while let Some(link) = from.pop() {
        tasks.push_reserved(SiteTask::Take(peer_of(own, from.len()), link));
    }
    drop(from);
    Ok(tasks)
}

impl TaskOutput for SiteTask {
    ghost use Rattle.std.specs.Prelude.{⊤};

    type Output = ();

    ghost gives = { λ task site names old output new. ⊤ };
}

// Answers one client of a site after another over this desk, until the site takes no more or was stopped. The last thread that does ends
// the site's bell.
pub(crate) fn answer_over<
    R: Net<Listener = TcpListener, Stream = TcpStream> + Wait + Clock,
    D: Desk<R>,
>(rt: &R, alloc: Global, site: &Site, desk: &mut D)
    ensures { HasAnsweredClients D.answers D.refuses desk.old desk.new }
{
    let is_last = answer_clients(rt, alloc, &site.clients, desk);
    if is_last {
        site.bell.end(rt);
    }
}

// Answers the clients of a site without a store by this pass, as `answer_over` does. Each change rings the site's bell. Gives the pass
// back.
fn answer_by<L: SiteLedger, R: Net<Listener = TcpListener, Stream = TcpStream> + Wait + Clock>(
    rt: &R,
    alloc: Global,
    site: &Site,
    desk: &SiteDesk<L>,
    pass: Pass<L>,
) -> Pass<L>
    ensures { result.ordinal ≡ pass.ordinal }
{
    let mut ringing = RingingDesk::new(PassDesk::new(desk, pass), &site.bell);
    answer_over(rt, alloc, site, &mut ringing);
    ringing.into_inner().into_pass()
}

// Sends on these links by this pass what a site without a store does, until its bell has ended. The journal is kept within its limits.
fn send_by<L: SiteLedger, R: Wait + Clock>(
    rt: &R,
    alloc: Global,
    site: &Site,
    desk: &SiteDesk<L>,
    pass: &mut Pass<L>,
    links: Vec<LinkSender>,
)
    ensures { pass.new.ordinal ≡ pass.old.ordinal }
{
    let port = DeskPort::new(desk, pass);
    send_news(rt, alloc, site, desk, port, links, false);
}

// Takes the frames of a peer by this pass, at a site without a store, until the link has ended, and gives the link up. The journal is
// kept within its limits.
fn take_by<'a, L: SiteLedger, R: Wait>(
    rt: &R,
    alloc: Global,
    site: &'a Site,
    peer: SiteId,
    desk: &'a SiteDesk<L>,
    pass: &mut Pass<L>,
    link: LinkReceiver,
)
    ensures { pass.new.ordinal ≡ pass.old.ordinal }
{
    let mut link = PeerLink::new(alloc, site, peer, link, None);
    let port = DeskPort::new(desk, pass);
    take_news(rt, desk, port, &mut link);
    link.give_up(rt);
}

impl<R: Net<Listener = TcpListener, Stream = TcpStream> + Wait + Clock> Task<Site, R> for SiteTask {
    // Does the task until it ends by itself. There is no output.
    fn run<L: SiteLedger>(
        self,
        rt: &R,
        alloc: Global,
        shared: &Site,
        desk: &SiteDesk<L>,
        pass: Pass<L>,
    ) -> TaskEnd<L, ()> {
        let mut pass = pass;
        match self {
            SiteTask::Answer => pass = answer_by(rt, alloc, shared, desk, pass),
            SiteTask::Send(links) => send_by(rt, alloc, shared, desk, &mut pass, links),
            SiteTask::Take(peer, link) => take_by(rt, alloc, shared, peer, desk, &mut pass, link),
        }
        TaskEnd { pass, output: () }
    }
}
