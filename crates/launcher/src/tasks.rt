//! The threads of one site: how they are started, and how they are joined.
ghost use Rattle.std.specs.Prelude.{◌≡◌, IfOk, List, MatchOption, OnOk, length, vec_len};
ghost use Rattle.launcher.specs.Places.{AtEach};
ghost use Rattle.launcher.specs.Promises.{IsTaskPromisedAt};
ghost use Rattle.launcher.specs.Rooms.{IsRoomFor};
ghost use Rattle.launcher.specs.Tasks.{AreAllDone};

use crate::Workplace;
use crate::site_fault::SiteFault;
use crate::start::Start;
use crate::tasks_with_passes::TasksWithPasses;
use std::alloc::Global;
use std::marker::PhantomData;
use std::snapshot::Snapshot;
use std::sync::Wait;
use std::thread::{Promise, PromisedHandle, Scope, Threads};

// What the thread of a task gives back: the task's pass, and its output if all sites begin.
#[derive(Drop)]
pub(crate) struct TaskEnd<P, O> {
    pass: P,
    output: Option<O>,
}

// What the thread of a task promises: if it gives an output, the task was done at its place by this
// pass.
#[derive(Drop)]
pub(crate) struct TaskPromise<S, R, T, P, O, W> {
    task: Snapshot<T>,
    pass: Snapshot<P>,
    place: PhantomData<(S, R, O, W)>,
}

impl<S, R, T, P, O, W: Workplace<S, R, T, P, O>> Promise<TaskEnd<P, O>>
    for TaskPromise<S, R, T, P, O, W> {
    ghost use Rattle.std.specs.Prelude.{IfSome};

    ghost kept_by = { λ promise end. IfSome end.output (λ output.
        W.does promise.task.value promise.pass.value output end.pass) };
}

// The thread of a task.
type Worker<S, R, T, P, O, W> = PromisedHandle<TaskEnd<P, O>, TaskPromise<S, R, T, P, O, W>>;

// The threads of a site, the last of which does the first task.
pub(crate) type Workers<S, R, T, P, O, W> = Vec<Worker<S, R, T, P, O, W>>;

// Waits until all threads of all sites run, and does a task at this place by this pass. If a site
// can't begin, drops the task and gives its pass back without an output.
fn do_task<R: Wait, S, T: Drop, P, O, W: Workplace<S, R, T, P, O>>(
    rt: &R,
    alloc: Global,
    start: &Start,
    shared: &S,
    place: &W,
    task: T,
    pass: P,
) -> TaskEnd<P, O>
    ensures { MatchOption result.output (result.pass ≡ pass)
        (λ output. W.does task pass output result.pass) }
{
    if !start.wait(rt) {
        drop(task);
        return TaskEnd { pass, output: None };
    }
    let (pass, output) = place.do_task(rt, alloc, shared, task, pass);
    TaskEnd {
        pass,
        output: Some(output),
    }
}

// Starts the thread of a task, which does it by this pass. Fails with `NoThread` if the system can't
// start it, and then drops the task and the pass.
fn start_task<
    's,
    'e: 's,
    R: Wait + Sync,
    S: Sync,
    T: Send + Drop + 's,
    P: Send + Drop + 's,
    O: Send + Drop + 's,
    W: Workplace<S, R, T, P, O> + Sync + 's,
>(
    scope: &'s Scope<'s, &'e ()>,
    rt: &'s R,
    alloc: Global,
    start: &'s Start,
    shared: &'s S,
    place: &'s W,
    task: T,
    pass: P,
) -> Result<Worker<S, R, T, P, O, W>, SiteFault>
    ensures task { IfOk result (λ worker. worker.promise.task.value ≡ task) }
    ensures pass { IfOk result (λ worker. worker.promise.pass.value ≡ pass) }
{
    let promise = TaskPromise {
        task: Snapshot::of(&task),
        pass: Snapshot::of(&pass),
        place: PhantomData,
    };
    let job = move || -> TaskEnd<P, O>
        ensures { MatchOption result.output (result.pass ≡ pass)
            (λ output. W.does task pass output result.pass) }
    { do_task(rt, alloc, start, shared, place, task, pass) };
    match scope.spawn_with(promise, job) {
        Ok(worker) => Ok(worker),
        Err(refused) => {
            drop(refused);
            Err(SiteFault::NoThread)
        }
    }
}

// Starts a thread for each task, from the last down, with the pass of the task's place; `workers` is
// empty, and has room for them. If one can't be started, fails with `NoThread` and drops its task
// and pass and those left; `workers` keeps the threads that run.
pub(crate) fn start_tasks<
    's,
    'e: 's,
    R: Wait + Sync,
    S: Sync,
    T: Send + Drop + 's,
    P: Send + Drop + 's,
    O: Send + Drop + 's,
    W: Workplace<S, R, T, P, O> + Sync + 's,
>(
    scope: &'s Scope<'s, &'e ()>,
    rt: &'s R,
    alloc: Global,
    start: &'s Start,
    shared: &'s S,
    place: &'s W,
    given: TasksWithPasses<T, P>,
    workers: &mut Workers<S, R, T, P, O, W>,
) -> Result<(), SiteFault>
    requires { IsRoomFor (vec_len given.tasks) workers.old }
    ensures number { OnOk result (vec_len workers.new ≡ vec_len given.tasks) }
    ensures promised { OnOk result (AtEach (λ k worker.
        IsTaskPromisedAt given.tasks.items given.passes.items k worker.promise)
        workers.new.items) }
{
    let TasksWithPasses {
        mut tasks,
        mut passes,
    } = given;
    while let Some(task) = tasks.pop() {
        let Some(pass) = passes.pop() else {
            unreachable!();
        };
        match start_task(scope, rt, alloc, start, shared, place, task, pass) {
            Ok(worker) => workers.push_reserved(worker),
            Err(fault) => {
                drop(passes);
                drop(tasks);
                return Err(fault);
            }
        }
    }
    drop(passes);
    drop(tasks);
    Ok(())
}

// Joins threads whose site doesn't begin, and drops their passes. The start has failed before, else
// they would wait without end.
pub(crate) fn end_tasks<R: Threads, S, T, P: Drop, O: Drop, W: Workplace<S, R, T, P, O>>(
    rt: &R,
    workers: Workers<S, R, T, P, O, W>,
) {
    for worker in workers {
        drop(worker.join(rt));
    }
}

/// What the threads of a site give back (this project's own).
#[derive(Drop)]
pub struct TaskResults<P: Drop, O: Drop> {
    /// The passes that the tasks were done by, in the order of the tasks.
    pub passes: Vec<P>,
    /// What the tasks gave, in their order.
    pub outputs: Vec<O>,
}

// Joins the threads of a site, and adds what they give to `results`, whose lists are empty and have
// room for it. If a thread gives no output, no site begins: joins the others, drops all results, and
// fails with `NotBegun`.
pub(crate) fn join_tasks<R: Threads, S, T, P: Drop, O: Drop, W: Workplace<S, R, T, P, O>>(
    rt: &R,
    workers: Workers<S, R, T, P, O, W>,
    results: TaskResults<P, O>,
) -> Result<TaskResults<P, O>, SiteFault>
    requires passes { IsRoomFor (vec_len workers) results.passes }
    requires outputs { IsRoomFor (vec_len workers) results.outputs }
    ensures done { IfOk result (λ all. (tasks : List T) (old : List P)
        → length tasks ≡ vec_len workers
        → AtEach (λ k worker. IsTaskPromisedAt tasks old k worker.promise) workers.items
        → AreAllDone W.does tasks old all.passes.items all.outputs.items) }
{
    let TaskResults {
        mut passes,
        mut outputs,
    } = results;
    let mut workers = workers;
    while let Some(worker) = workers.pop() {
        let TaskEnd { pass, output } = worker.join(rt);
        let Some(output) = output else {
            drop(pass);
            drop(passes);
            drop(outputs);
            end_tasks(rt, workers);
            return Err(SiteFault::NotBegun);
        };
        passes.push_reserved(pass);
        outputs.push_reserved(output);
    }
    drop(workers);
    Ok(TaskResults { passes, outputs })
}
