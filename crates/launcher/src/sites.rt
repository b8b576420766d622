//! All sites, each in a thread of its own.
ghost use Rattle.std.specs.List.{All};
ghost use Rattle.std.specs.Prelude.{◌≡◌, ℕ, IfOk, List, OnOk, length, vec_len};
ghost use Rattle.launcher.specs.Ends.{GivesEnds, HaveAllEnded};
ghost use Rattle.launcher.specs.Places.{AtEach};
ghost use Rattle.launcher.specs.Promises.{IsEndPromisedAt};
ghost use Rattle.launcher.specs.Rooms.{IsRoomFor};

use crate::site_fault::SiteFault;
use crate::start::Start;
use crate::{Launch, LaunchFault};
use dots::Memory;
use std::alloc::Global;
use std::snapshot::Snapshot;
use std::sync::Wait;
use std::thread;
use std::thread::{Promise, PromisedHandle, Scope, Threads};

// What the thread of a site promises: an output that the site ends with under this limit of its
// journal, or a fault.
#[derive(Drop)]
pub(crate) struct EndPromise<X> {
    limit: u32,
    site: Snapshot<X>,
}

impl<X: Launch> Promise<Result<X::Output, SiteFault>> for EndPromise<X> {
    ghost use Rattle.std.specs.Prelude.{IfOk};

    ghost kept_by = { λ promise ended.
        IfOk ended (λ output. X.ends promise.site.value promise.limit output) };
}

// The thread of a site.
type Site<X> = PromisedHandle<Result<<X as Launch>::Output, SiteFault>, EndPromise<X>>;

// The threads of sites, the last of which is that of the first site.
type Sites<X> = Vec<Site<X>>;

// Runs a site, and returns what it gives. If that is a fault, lets no site begin and wakes the threads
// that wait to begin, though no contract says this.
fn run_or_fail<R: Wait, X: Launch, F: Fn(X) -> Result<X::Output, SiteFault>>(
    rt: &R,
    start: &Start,
    run: &F,
    site: X,
) -> Result<X::Output, SiteFault>
    requires { F.pre run.now site }
    ensures { F.post run.now site result }
{
    let ended = run(site);
    if ended.is_err() {
        start.fail(rt);
    }
    ended
}

// Starts the thread of a site, of which the premises of `launch_sites` hold. Fails with `NoThread` if
// the system can't start it, and then drops the site.
fn start_site<
    's,
    'e: 's,
    R: Wait + Sync,
    X: Launch + Send + Drop + 's,
    F: Fn(X) -> Result<X::Output, SiteFault> + Sync + 's,
>(
    scope: &'s Scope<'s, &'e ()>,
    rt: &'s R,
    start: &'s Start,
    limit: u32,
    run: &'s F,
    site: X,
) -> Result<Site<X>, SiteFault>
    requires ready { F.pre run.now site }
    requires ends { GivesEnds (F.post run.now) X.ends limit }
    ensures limit { IfOk result (λ handle. handle.promise.limit ≡ limit) }
    ensures site { IfOk result (λ handle. handle.promise.site.value ≡ site) }
{
    let promise = EndPromise {
        limit,
        site: Snapshot::of(&site),
    };
    let job = move || -> Result<X::Output, SiteFault>
        requires { F.pre run.now site }
        ensures { F.post run.entry.now site result }
    { run_or_fail(rt, start, run, site) };
    match scope.spawn_with(promise, job) {
        Ok(handle) => Ok(handle),
        Err(refused) => {
            drop(refused);
            Err(SiteFault::NoThread)
        }
    }
}

// Starts a thread for each site, from the last down, where the premises of `launch_sites` hold; `sites`
// is empty, and has room for them. If one can't be started, fails with its fault and drops the other
// sites; `sites` keeps the threads that run.
fn start_sites<
    's,
    'e: 's,
    R: Wait + Sync,
    X: Launch + Send + Drop + 's,
    F: Fn(X) -> Result<X::Output, SiteFault> + Sync + 's,
>(
    scope: &'s Scope<'s, &'e ()>,
    rt: &'s R,
    start: &'s Start,
    limit: u32,
    run: &'s F,
    all: Vec<X>,
    sites: &mut Sites<X>,
) -> Result<(), SiteFault>
    requires ready { All (λ site. F.pre run.now site) all.items }
    requires ends { GivesEnds (F.post run.now) X.ends limit }
    requires room { IsRoomFor (vec_len all) sites.old }
    ensures number { OnOk result (vec_len sites.new ≡ vec_len all) }
    ensures promised { OnOk result (AtEach (λ k site.
        IsEndPromisedAt limit all.items k site.promise) sites.new.items) }
{
    let mut all = all;
    while let Some(site) = all.pop() {
        match start_site(scope, rt, start, limit, run, site) {
            Ok(handle) => sites.push_reserved(handle),
            Err(fault) => {
                drop(all);
                return Err(fault);
            }
        }
    }
    drop(all);
    Ok(())
}

// Joins sites that can't begin: the start has failed before, else they would wait without end. Returns
// the first in order of this fault and theirs; no contract says which.
fn end_sites<R: Threads, X: Launch>(rt: &R, sites: Sites<X>, fault: SiteFault) -> LaunchFault {
    let mut first = fault;
    for site in sites {
        match site.join(rt) {
            Ok(end) => drop(end),
            Err(fault) => first = first.first(fault),
        }
    }
    first.of_all()
}

// Joins sites in their order, and adds their ends to `ends`, which is empty and has room for them. If
// one has a fault, joins the others, drops all ends, and returns the first fault in order.
fn join_sites<R: Threads, X: Launch>(
    rt: &R,
    sites: Sites<X>,
    ends: Vec<X::Output>,
) -> Result<Vec<X::Output>, LaunchFault>
    requires { IsRoomFor (vec_len sites) ends }
    ensures number { IfOk result (λ ends. vec_len ends ≡ vec_len sites) }
    ensures ends { IfOk result (λ ends. (limit : ℕ) (all : List X)
        → length all ≡ vec_len sites
        → AtEach (λ k site. IsEndPromisedAt limit all k site.promise) sites.items
        → HaveAllEnded X.ends limit all ends.items) }
{
    let mut sites = sites;
    let mut ends = ends;
    while let Some(site) = sites.pop() {
        match site.join(rt) {
            Ok(end) => ends.push_reserved(end),
            Err(fault) => {
                drop(ends);
                return Err(end_sites(rt, sites, fault));
            }
        }
    }
    drop(sites);
    Ok(ends)
}

// Room for the threads of `number` sites, and for their ends. Fails only when out of memory.
fn room_for<X: Launch>(alloc: Global, number: usize) -> Result<(Vec<X::Output>, Sites<X>), Memory>
    ensures ends { IfOk result (λ room. IsRoomFor number room.0) }
    ensures sites { IfOk result (λ room. IsRoomFor number room.1) }
{
    let ends = Vec::with_capacity(alloc, number)?;
    match Vec::with_capacity(alloc, number) {
        Ok(sites) => Ok((ends, sites)),
        Err(_) => {
            drop(ends);
            Err(Memory)
        }
    }
}

// Starts all sites, and joins them. If a site can't be started no site begins, and the others end
// first. The premises and errors are those of `launch_sites`.
fn run_all<
    's,
    'e: 's,
    R: Threads + Wait + Sync,
    X: Launch + Send + Drop + 's,
    F: Fn(X) -> Result<X::Output, SiteFault> + Sync + 's,
>(
    scope: &'s Scope<'s, &'e ()>,
    rt: &'s R,
    alloc: Global,
    start: &'s Start,
    limit: u32,
    run: &'s F,
    all: Vec<X>,
) -> Result<Vec<X::Output>, LaunchFault>
    requires ready { All (λ site. F.pre run.now site) all.items }
    requires ends { GivesEnds (F.post run.now) X.ends limit }
    ensures number { IfOk result (λ ends. vec_len ends ≡ vec_len all) }
    ensures ends { IfOk result (λ ends. HaveAllEnded X.ends limit all.items ends.items) }
{
    let (ends, mut sites) = match room_for(alloc, all.len()) {
        Ok(room) => room,
        Err(_) => {
            drop(all);
            return Err(LaunchFault::Memory);
        }
    };
    if let Err(fault) = start_sites(scope, rt, start, limit, run, all, &mut sites) {
        start.fail(rt);
        drop(ends);
        return Err(end_sites(rt, sites, fault));
    }
    join_sites::<R, X>(rt, sites, ends)
}

/// Runs sites at once, each by a call of `run` in a thread of its own, and returns when all have ended:
/// what each gives, in order. `start` is new, of as many sites, and `run` hands it to `run_threads`: so
/// no task of a site begins before all threads of all sites run. No contract asks for this: with a
/// start of more sites the threads would wait without end. If a site can't begin, none does, and all
/// are dropped. `limit`, the most steps of a site's journal, only stands in contracts. `run` may be
/// called for each site, and gives no output but one that the site ends with under this limit
/// (`Launch::ends`).
///
/// Errors, in order: 1 `Memory`, if there is no memory to start sites; 2 `NoThread`, if the system
/// could not start a thread of some site; 3 `Memory`, if a site had none (this project's own). No
/// contract says which it is.
pub fn launch_sites<
    R: Threads + Wait + Sync,
    X: Launch + Send + Drop,
    F: Fn(X) -> Result<X::Output, SiteFault> + Sync,
>(
    rt: &R,
    alloc: Global,
    start: &Start,
    limit: u32,
    run: &F,
    all: Vec<X>,
) -> Result<Vec<X::Output>, LaunchFault>
    requires ready { All (λ site. F.pre run.now site) all.items }
    requires ends { GivesEnds (F.post run.now) X.ends limit }
    ensures number { IfOk result (λ outputs. vec_len outputs ≡ vec_len all) }
    ensures ends { IfOk result (λ outputs. HaveAllEnded X.ends limit all.items outputs.items) }
{
    thread::scope(
        thread::scope_env(),
        rt,
        move |scope| -> Result<Vec<X::Output>, LaunchFault>
            requires ready { All (λ site. F.pre run.now site) all.items }
            requires ends { GivesEnds (F.post run.now) X.ends limit }
            ensures number { IfOk result (λ outputs. vec_len outputs ≡ vec_len all) }
            ensures ends { IfOk result (λ outputs.
                HaveAllEnded X.ends limit all.items outputs.items) }
        { run_all(scope, rt, alloc, start, limit, run, all) },
    )
}
