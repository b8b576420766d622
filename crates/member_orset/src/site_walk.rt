//! A walk over the dots of a site: which of them are given or dead. It passes the site's runs and its runs of live dots
//! once.
ghost use Rattle.std.specs.Prelude.{ℕ, ◌≡◌, ◌+◌, ◌-◌, ◌*◌, ◌<◌, ◌≤◌, ◌^◌, length, true, false};
ghost use Rattle.std.specs.List.{AllWithin};
ghost use Rattle.std.specs.Ordering.{is_lt};
ghost use Rattle.std.specs.FinSet as set;
ghost use Rattle.dots.specs.Orders.{dot_cmp};
ghost use Rattle.dots.specs.DotSets.{IsRunsOf, in_runs};
ghost use Rattle.causal_context.specs.RunLists.{is_below};
ghost use Rattle.live_cells.specs.PlacedLists.{is_placed};
ghost use Rattle.member_orset.specs.Gathering.{AreToName, IsAhead, IsGathered, IsPiece};
ghost use Rattle.member_orset.specs.Gathering.{is_to_name, part_before};

use crate::gathered::Gathered;
use crate::given_dots::GivenDots;
use crate::known_runs::{KnownRuns, ends_before};
use crate::piece::Piece;
use causal_context::Run;
use dots::Dot;
use live_cells::{PlacedDots, live_run_end};

// A walk over the dots of a site up to a last one: the dot that it has reached, how many runs end before it, and how many
// live dots are before it.
#[derive(Drop)]
struct SiteWalk<'a> {
    runs: KnownRuns<'a>,
    dots: PlacedDots<'a>,
    given: GivenDots<'a>,
    last: Dot,
    from: Dot,
    run: usize,
    live: usize,
    ghost of_site: { from.site ≡ last.site },
    ghost order: { from.count ≤ last.count },
    ghost run_within: { run ≤ length runs.list.now },
    ghost run_before: { AllWithin (λ r. is_below from r ≡ true) runs.list.now 0 run },
    ghost run_after: { AllWithin (λ r. is_below from r ≡ false) runs.list.now run
        (length runs.list.now) },
    ghost live_within: { live ≤ length dots.list.now },
    ghost live_before: { AllWithin (λ p. is_lt (dot_cmp p.dot from) ≡ true) dots.list.now 0 live },
    ghost live_after: { AllWithin (λ p. is_lt (dot_cmp p.dot from) ≡ false) dots.list.now live
        (length dots.list.now) },
}

impl<'a> SiteWalk<'a> {
    // The number of runs that end before a dot that lies ahead.
    fn run_at(&self, dot: Dot) -> usize
        requires { IsAhead self.now.from self.now.last dot }
        ensures within { result ≤ length self.now.runs.list.now }
        ensures before { AllWithin (λ r. is_below dot r ≡ true) self.now.runs.list.now 0 result }
        ensures after { AllWithin (λ r. is_below dot r ≡ false) self.now.runs.list.now result
            (length self.now.runs.list.now) }
    {
        let runs = self.runs.list;
        let mut passed = self.run;
        while passed < runs.len() {
            if !ends_before(runs[passed], dot) {
                return passed;
            }
            passed += 1;
        }
        passed
    }

    // The number of live dots before a dot that lies ahead. Mostly that is at most one more; if it is a whole run more, they
    // are found by bisection.
    fn live_at(&self, dot: Dot) -> usize
        requires { IsAhead self.now.from self.now.last dot }
        ensures within { result ≤ length self.now.dots.list.now }
        ensures before { AllWithin (λ p. is_lt (dot_cmp p.dot dot) ≡ true) self.now.dots.list.now 0
            result }
        ensures after { AllWithin (λ p. is_lt (dot_cmp p.dot dot) ≡ false) self.now.dots.list.now
            result (length self.now.dots.list.now) }
    {
        let (dots, live) = (self.dots, self.live);
        if !dots.is_passed(live, dot) {
            return live;
        }
        if !dots.is_passed(live + 1, dot) {
            return live + 1;
        }
        dots.place(dot)
    }

    // Moves to a dot that lies ahead.
    fn go_to(&mut self, dot: Dot)
        requires { IsAhead self.old.from self.old.last dot }
        ensures from { self.new.from ≡ dot }
        ensures last { self.new.last ≡ self.old.last }
        ensures runs { self.new.runs.list.now ≡ self.old.runs.list.now }
        ensures dots { self.new.dots.list.now ≡ self.old.dots.list.now }
        ensures given { self.new.given.list.now ≡ self.old.given.list.now }
    {
        let (run, live) = (self.run_at(dot), self.live_at(dot));
        self.from = dot;
        self.run = run;
        self.live = live;
    }

    // Whether the dot is in the runs; and up to which count, `last` at most, the dots from it on are in the runs or not, as
    // it is.
    fn known_piece(&self, last: u64) -> Piece
        ensures { IsPiece
            (λ n. in_runs self.now.runs.list.now (record { site = self.now.from.site; count = n }))
            self.now.from.count last result }
    {
        let (runs, from, place) = (self.runs.list, self.from, self.run);
        if place == runs.len() {
            return Piece {
                inside: false,
                last,
            };
        }
        let run = runs[place];
        if run.site != from.site() {
            return Piece {
                inside: false,
                last,
            };
        }
        if from.count() < run.first {
            return Piece {
                inside: false,
                last: last.min(run.first - 1),
            };
        }
        Piece {
            inside: true,
            last: run.last.min(last),
        }
    }

    // Whether the dot is live; and up to which count, `last` at most, the dots from it on are live or not, as it is.
    fn live_piece(&self, last: u64) -> Piece
        ensures { IsPiece
            (λ n. is_placed self.now.dots.list.now (record { site = self.now.from.site; count = n }))
            self.now.from.count last result }
    {
        let (dots, from, below) = (self.dots.list, self.from, self.live);
        if below == dots.len() {
            return Piece {
                inside: false,
                last,
            };
        }
        let next = dots[below].dot;
        if next == from {
            let end = live_run_end(dots, below);
            let count = dots[end].dot.count();
            return Piece {
                inside: true,
                last: last.min(count),
            };
        }
        if next.site() != from.site() {
            return Piece {
                inside: false,
                last,
            };
        }
        Piece {
            inside: false,
            last: last.min(next.count() - 1),
        }
    }

    // Whether the dot is given or dead; and up to which count the dots from it on are so or not, as it is.
    fn piece(&self) -> Piece
        ensures { (known : set.FinSet dot_cmp)
            → IsRunsOf self.now.runs.list.now known
            → IsPiece
            (λ n. is_to_name known (is_placed self.now.dots.list.now) self.now.given.list.now
            (record { site = self.now.from.site; count = n }))
            self.now.from.count self.now.last.count result }
    {
        let given = self.given.piece(self.from, self.last);
        if given.inside {
            return given;
        }
        let known = self.known_piece(given.last);
        if !known.inside {
            return known;
        }
        let live = self.live_piece(known.last);
        Piece {
            inside: !live.inside,
            last: live.last,
        }
    }
}

// Adds the dots of a site that are given or dead, up to a last one, to the gathered ones, which are of earlier sites and
// make at most 2^41 runs for each. Walks the site's runs and live dots once, from the first ones on, which are found by
// bisection.
pub(crate) fn gather_site(
    gathered: &mut Gathered,
    runs: KnownRuns<'_>,
    dots: PlacedDots<'_>,
    given: GivenDots<'_>,
    last: Dot,
)
    requires { gathered.old.runs ≤ last.site * 2 ^ 41 }
    ensures gathered { (known named : set.FinSet dot_cmp)
        → IsRunsOf runs.entry.list.now known
        → AreToName known (is_placed dots.entry.list.now) given.entry.list.now last.site last.count
        named
        → IsGathered gathered.old (part_before named last.site 0)
        → IsGathered gathered.new (part_before named (last.site + 1) 0) }
    ensures few { gathered.new.runs ≤ (last.site + 1) * 2 ^ 41 }
{
    let (site, end) = (last.site(), last.count());
    let Some(start) = Dot::new(site, 1) else {
        return;
    };
    let mut walk = SiteWalk {
        runs,
        dots,
        given,
        last,
        from: start,
        run: runs.before(start),
        live: dots.place(start),
    };
    let mut first = 1;
    let mut goes_on = false;
    while first <= end {
        let Some(from) = Dot::new(site, first) else {
            return;
        };
        walk.go_to(from);
        let piece = walk.piece();
        if piece.inside {
            let run = Run {
                site,
                first,
                last: piece.last,
            };
            gathered.add(run, !goes_on);
        }
        goes_on = piece.inside;
        first = piece.last + 1;
    }
}
