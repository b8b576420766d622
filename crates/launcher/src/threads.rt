//! The tasks of one site, each in a thread of its own.
ghost use Rattle.std.specs.Prelude.{◌≡◌, IfOk, vec_len};
ghost use Rattle.launcher.specs.Rooms.{IsRoomFor};
ghost use Rattle.launcher.specs.Tasks.{AreAllDone};

use crate::Workplace;
use crate::site_fault::SiteFault;
use crate::start::Start;
use crate::tasks::{TaskResults, Workers, end_tasks, join_tasks, start_tasks};
use crate::tasks_with_passes::TasksWithPasses;
use dots::Memory;
use std::alloc::Global;
use std::sync::Wait;
use std::thread;
use std::thread::{Scope, Threads};

// Room for `number` threads, and for what they give. Fails only when out of memory.
fn room_for<R, S, T, P: Drop, O: Drop, W: Workplace<S, R, T, P, O>>(
    alloc: Global,
    number: usize,
) -> Result<(Workers<S, R, T, P, O, W>, TaskResults<P, O>), Memory>
    ensures workers { IfOk result (λ room. IsRoomFor number room.0) }
    ensures passes { IfOk result (λ room. IsRoomFor number room.1.passes) }
    ensures outputs { IfOk result (λ room. IsRoomFor number room.1.outputs) }
{
    let workers = Vec::with_capacity(alloc, number)?;
    let passes = match Vec::with_capacity(alloc, number) {
        Ok(passes) => passes,
        Err(_) => {
            drop(workers);
            return Err(Memory);
        }
    };
    match Vec::with_capacity(alloc, number) {
        Ok(outputs) => Ok((workers, TaskResults { passes, outputs })),
        Err(_) => {
            drop(workers);
            drop(passes);
            Err(Memory)
        }
    }
}

// Starts all threads of a site, and joins them. If it can't start them all, for lack of memory too, no
// site begins, and the site's other threads end first. The errors are those of `run_threads`.
fn run_tasks<
    's,
    'e: 's,
    R: Threads + Wait + Sync,
    S: Sync,
    T: Send + Drop + 's,
    P: Send + Drop + 's,
    O: Send + Drop + 's,
    W: Workplace<S, R, T, P, O> + Sync + 's,
>(
    scope: &'s Scope<'s, &'e ()>,
    rt: &'s R,
    alloc: Global,
    start: &'s Start,
    shared: &'s S,
    place: &'s W,
    given: TasksWithPasses<T, P>,
) -> Result<TaskResults<P, O>, SiteFault>
    ensures { IfOk result (λ all. AreAllDone W.does given.tasks.items given.passes.items
        all.passes.items all.outputs.items) }
{
    let (mut workers, room) = match room_for(alloc, given.tasks.len()) {
        Ok(room) => room,
        Err(_) => {
            start.fail(rt);
            drop(given);
            return Err(SiteFault::Memory);
        }
    };
    let started = start_tasks(scope, rt, alloc, start, shared, place, given, &mut workers);
    if let Err(fault) = started {
        start.fail(rt);
        end_tasks(rt, workers);
        drop(room);
        return Err(fault);
    }
    start.one_ready(rt);
    join_tasks(rt, workers, room)
}

/// Does each of a site's tasks at this place, by the pass of the task's place and in a thread of its
/// own, and returns when all have ended. No task begins before all threads of all sites run: until each
/// site of `start` has its call, the threads of the others wait. `launch_sites` ends that wait if its
/// `run` returns an error, also before this call.
///
/// Errors, in order: 1 `Memory`; 2 `NoThread`, if the system could not start a thread; 3 `NotBegun`,
/// if another site can't have its threads. After each no site of `start` begins. No task of the site is
/// then done, and all are dropped with their passes (this project's own). No contract says which error
/// it is.
pub fn run_threads<
    R: Threads + Wait + Sync,
    S: Sync,
    T: Send + Drop,
    P: Send + Drop,
    O: Send + Drop,
    W: Workplace<S, R, T, P, O> + Sync,
>(
    rt: &R,
    alloc: Global,
    start: &Start,
    shared: &S,
    place: &W,
    passes: Vec<P>,
    tasks: Vec<T>,
) -> Result<TaskResults<P, O>, SiteFault>
    requires { vec_len passes ≡ vec_len tasks }
    ensures done { IfOk result (λ all.
        AreAllDone W.does tasks.items passes.items all.passes.items all.outputs.items) }
{
    let given = TasksWithPasses { tasks, passes };
    thread::scope(
        thread::scope_env(),
        rt,
        move |scope| -> Result<TaskResults<P, O>, SiteFault>
            ensures { IfOk result (λ all. AreAllDone W.does given.tasks.items given.passes.items
                all.passes.items all.outputs.items) }
        { run_tasks(scope, rt, alloc, start, shared, place, given) },
    )
}
