ghost use Rattle.std.specs.Prelude.{◌≡◌, ◌≢◌, ◌+◌, ◌≤◌, ◌<◌, ◌↔◌, [], ◌∷◌, true, IfErr, IfOk, IsOk, IsTrue};
ghost use Rattle.std.specs.Prelude.{OnErr, OnOk, length};
ghost use Rattle.std.specs.FinSet as set;
ghost use Rattle.std.specs.List.{All};
ghost use Rattle.std.specs.Slice.Iter.{iter_rest};
ghost use Rattle.dots.specs.DotSets.{IsRunsOf, IsPrefix, dots_between, run_count, set_of};
ghost use Rattle.dots.specs.WithinLimits.{AreDots};
ghost use Rattle.causal_context.specs.Contexts.{IsPrepared, IsRunWithinLimits};

use crate::run_list::RunList;
use crate::{ContextFault, Run};
use dots::{Dot, MOST_COUNT, MOST_RUNS, SiteId};
use std::alloc::Global;
use std::marker::Model;
use std::slice::Iter;

/// A finite set of dots, with at most 65,536 runs: the dots that a replica knows. With it the optimized observed-remove set needs
/// no tombstones (RR-8083): a dot that is known and not live was removed. Equal sets have equal runs.
#[derive(Drop)]
pub struct Context {
    runs: RunList,
}

impl Model for Context {
    ghost use Rattle.std.specs.Prelude.{◌≤◌};
    ghost use Rattle.dots.specs.declared.limits.TheConstants.{MOST_RUNS};
    ghost use Rattle.dots.specs.DotSets.{run_count, set_of};
    ghost use Rattle.causal_context.specs.Contexts.{Known, known_code};

    ghost Value = { Known };

    ghost coded = { known_code };

    ghost view = { λ c. record { dots = set_of c.runs.items; room = c.runs.room } };

    ghost invariant = { λ c. run_count (set_of c.runs.items) ≤ MOST_RUNS };
}

impl Context {
    /// The empty set. Takes no memory.
    pub fn new(alloc: Global) -> Context
        ensures { result.dots ≡ set.empty }
    {
        Context {
            runs: RunList::new(alloc),
        }
    }

    /// Whether the dot is in. Takes no memory, like every function that only reads and can't fail.
    pub fn contains(&self, dot: Dot) -> bool
        ensures { result ≡ set.contains self.now.dots dot }
    {
        self.runs.run_with(dot.site(), dot.count()).is_some()
    }

    /// Whether all dots of the other context are in.
    pub fn covers(&self, other: &Context) -> bool
        ensures { result ≡ set.is_subset other.now.dots self.now.dots }
    {
        self.runs.covers(&other.runs)
    }

    /// The greatest n such that the counts 1 to n of the site are all in: 0 where the first isn't.
    pub fn prefix(&self, site: SiteId) -> u64
        ensures value { IsPrefix self.now.dots site result }
        ensures limit { result ≤ MOST_COUNT }
    {
        match self.runs.run_with(site, 1) {
            Some(run) => run.last,
            None => 0,
        }
    }

    /// The number of runs of the dots. Each dot is within the limits of sites and counts.
    pub fn runs(&self) -> usize
        ensures value { result ≡ run_count self.now.dots }
        ensures limit { result ≤ MOST_RUNS }
        ensures dots { AreDots self.now.dots }
    {
        self.as_slice().len()
    }

    /// The runs, each as long as it can be, in order by site, then first.
    pub fn as_slice(&self) -> &[Run]
        ensures value { IsRunsOf result.now self.now.dots }
        ensures limits { All IsRunWithinLimits result.now }
        ensures few { length result.now ≤ MOST_RUNS }
    {
        self.runs.as_slice()
    }

    /// The runs of `as_slice`, one by one.
    pub fn iter(&self) -> Iter<'_, Run>
        ensures value { IsRunsOf (iter_rest result) self.now.dots }
        ensures limits { All IsRunWithinLimits (iter_rest result) }
        ensures few { length (iter_rest result) ≤ MOST_RUNS }
    {
        self.as_slice().iter()
    }

    /// Adds one dot. A fault leaves the dots as they are. Errors, in order: 1 `RunsFull`, exactly where there would be more than
    /// 65,536 runs; 2 `Memory`, never for a dot that is in, nor if there is room for one more run.
    pub fn insert(&mut self, dot: Dot) -> Result<(), ContextFault>
        ensures ok { OnOk result (self.new.dots ≡ set.insert self.old.dots dot) }
        ensures full { (result ≡ Err ContextFault.RunsFull)
            ↔ (MOST_RUNS < run_count (set.insert self.old.dots dot)) }
        ensures known_dot { set.contains self.old.dots dot ≡ true → IsOk result }
        ensures with_room { run_count self.old.dots < self.old.room
            → result ≢ Err ContextFault.Memory }
        ensures err { OnErr result (self.new.dots ≡ self.old.dots) }
    {
        let run = Run {
            site: dot.site(),
            first: dot.count(),
            last: dot.count(),
        };
        self.unite(run)
    }

    /// Adds the dots of a site from a first count to a last; 1 ≤ first ≤ last ≤ 2^40. A fault leaves the dots as they are. Errors,
    /// in order: 1 `RunsFull`, exactly where there would be more than 65,536 runs; 2 `Memory`, never if there are no more runs than
    /// before, or if there is room for one more run.
    pub fn insert_run(&mut self, site: SiteId, first: u64, last: u64) -> Result<(), ContextFault>
        requires least { 1 ≤ first }
        requires ordered { first ≤ last }
        requires most { last ≤ MOST_COUNT }
        ensures ok { OnOk result
            (self.new.dots ≡ set.union self.old.dots (dots_between site first last)) }
        ensures full { (result ≡ Err ContextFault.RunsFull)
            ↔ (MOST_RUNS < run_count (set.union self.old.dots (dots_between site first last))) }
        ensures no_more { run_count (set.union self.old.dots (dots_between site first last))
            ≤ run_count self.old.dots → IsOk result }
        ensures with_room { run_count self.old.dots < self.old.room
            → result ≢ Err ContextFault.Memory }
        ensures err { OnErr result (self.new.dots ≡ self.old.dots) }
    {
        self.unite(Run { site, first, last })
    }

    /// Makes room for the dots of another context, which `absorb` then adds. Leaves the dots as they are. Errors, in order: 1
    /// `RunsFull`, exactly where the union has more than 65,536 runs; 2 `Memory`, never if `prepared` is true.
    pub fn prepare(&mut self, other: &Context) -> Result<(), ContextFault>
        ensures ready { OnOk result (IsPrepared self.new other.now.dots) }
        ensures full { (result ≡ Err ContextFault.RunsFull)
            ↔ (MOST_RUNS < run_count (set.union self.old.dots other.now.dots)) }
        ensures again { IsPrepared self.old other.now.dots → IsOk result }
        ensures kept { self.new.dots ≡ self.old.dots }
        ensures room { self.old.room ≤ self.new.room }
    {
        if self.runs.united_count(&other.runs) > MOST_RUNS {
            return Err(ContextFault::RunsFull);
        }
        if self.runs.reserve(other.runs.len()).is_err() {
            return Err(ContextFault::Memory);
        }
        Ok(())
    }

    /// Whether the dots of another context can be absorbed: the union has at most 65,536 runs, and there is room for the runs of
    /// both.
    pub fn prepared(&self, other: &Context) -> bool
        ensures { IsTrue result ↔ IsPrepared self.now other.now.dots }
    {
        self.runs.united_count(&other.runs) <= MOST_RUNS
            && self.runs() + other.runs() <= self.runs.room()
    }

    /// Adds the dots of another context that was prepared. Takes no memory and can't fail.
    pub fn absorb(&mut self, other: &Context)
        requires { IsPrepared self.old other.now.dots }
        ensures dots { self.new.dots ≡ set.union self.old.dots other.now.dots }
        ensures room { self.old.room ≤ self.new.room }
    {
        self.runs.absorb(&other.runs);
    }

    /// Adds the dots of another context. A fault leaves the dots as they are. Errors, in order: 1 `RunsFull`, exactly where the
    /// union has more than 65,536 runs; 2 `Memory`, never if `prepared` is true.
    pub fn join(&mut self, other: &Context) -> Result<(), ContextFault>
        ensures ok { OnOk result (self.new.dots ≡ set.union self.old.dots other.now.dots) }
        ensures full { (result ≡ Err ContextFault.RunsFull)
            ↔ (MOST_RUNS < run_count (set.union self.old.dots other.now.dots)) }
        ensures prepared { IsPrepared self.old other.now.dots → IsOk result }
        ensures err { OnErr result (self.new.dots ≡ self.old.dots) }
    {
        self.prepare(other)?;
        self.absorb(other);
        Ok(())
    }

    /// Returns a copy. Fails only when out of memory.
    pub fn copy(&self) -> Result<Context, ContextFault>
        ensures ok { IfOk result (λ copy. copy.dots ≡ self.now.dots) }
        ensures err { IfErr result (λ fault. fault ≡ ContextFault.Memory) }
    {
        match self.runs.copy() {
            Ok(runs) => Ok(Context { runs }),
            Err(_) => Err(ContextFault::Memory),
        }
    }

    /// The number of runs of the dots of both contexts and one more dot. The count may be one past the greatest of a dot, 2^40 + 1,
    /// as of a site that has used up its counts. Takes no memory.
    pub fn runs_with(&self, other: &Context, site: SiteId, count: u64) -> u64
        requires least { 1 ≤ count }
        requires most { count ≤ MOST_COUNT + 1 }
        ensures { result
            ≡ run_count (set.insert (set.union self.now.dots other.now.dots)
            (record { site = site; count = count })) }
    {
        let runs = self.runs.united_count(&other.runs) as u64;
        if self.has(other, site, count) {
            return runs;
        }
        let next = self.has(other, site, count + 1);
        let before = self.has(other, site, count - 1);
        runs + 1 - u64::from(next) - u64::from(before)
    }

    // Adds the dots of a run. A fault leaves the dots as they are. The errors are those of `insert_run`.
    fn unite(&mut self, run: Run) -> Result<(), ContextFault>
        ensures ok { OnOk result
            (self.new.dots ≡ set.union self.old.dots (set_of (run ∷ []))) }
        ensures full { (result ≡ Err ContextFault.RunsFull)
            ↔ (MOST_RUNS < run_count (set.union self.old.dots (set_of (run ∷ [])))) }
        ensures no_more { run_count (set.union self.old.dots (set_of (run ∷ [])))
            ≤ run_count self.old.dots → IsOk result }
        ensures with_room { run_count self.old.dots < self.old.room
            → result ≢ Err ContextFault.Memory }
        ensures err { OnErr result (self.new.dots ≡ self.old.dots) }
    {
        let united = self.runs.unite(run);
        let len = self.runs.len();
        if united.start == united.end && len >= MOST_RUNS {
            return Err(ContextFault::RunsFull);
        }
        if self.runs.replace(united).is_err() {
            return Err(ContextFault::Memory);
        }
        Ok(())
    }

    // Whether one of two contexts has a dot.
    fn has(&self, other: &Context, site: SiteId, count: u64) -> bool
        ensures { result ≡ set.contains (set.union self.now.dots other.now.dots)
            (record { site = site; count = count }) }
    {
        self.runs.run_with(site, count).is_some() || other.runs.run_with(site, count).is_some()
    }
}
