//! Given dots, borrowed: those of a site, and the next one. If they are in order, both are found by bisection.
ghost use Rattle.std.specs.Prelude.{ℕ, ◌≡◌, ◌≤◌, true};
ghost use Rattle.std.specs.List.Sorted.{IsSorted};
ghost use Rattle.dots.specs.Orders.{dot_cmp};
ghost use Rattle.member_orset.specs.Gathering.{AreNext, AreOfSite, IsGreatest, IsPiece, is_given};

use crate::piece::Piece;
use dots::{Dot, MOST_COUNT, SiteId};

// Given dots, and whether they are several in order. A single one isn't searched for.
#[derive(Clone, Copy)]
pub(crate) struct GivenDots<'a> {
    pub(crate) list: &'a [Dot],
    rise: bool,
    ghost order: { rise ≡ true → IsSorted dot_cmp list.now },
}

impl<'a> GivenDots<'a> {
    // Dots in any order. Whether they are sorted is tested once, here.
    pub(crate) fn of(list: &'a [Dot]) -> GivenDots<'a>
        ensures { result.list.now ≡ list.now }
    {
        GivenDots {
            list,
            rise: list.len() > 1 && list.is_sorted(),
        }
    }

    // All dots of a site, perhaps with others: unless the given dots are several in order, all of them.
    fn of_site(self, site: SiteId) -> &'a [Dot]
        ensures { AreOfSite self.entry.list.now site result.now }
    {
        if !self.rise {
            return self.list;
        }
        let start = self.list.partition_point(|dot| dot.site() < site);
        let end = self.list.partition_point(|dot| dot.site() <= site);
        &self.list[start..end]
    }

    // The greatest count of the dots of a site: 0 if none is of it.
    pub(crate) fn greatest(self, site: SiteId) -> u64
        ensures greatest { IsGreatest self.entry.list.now site result }
        ensures limit { result ≤ MOST_COUNT }
    {
        let those = self.of_site(site);
        let mut greatest: u64 = 0;
        for dot in those {
            let count = dot.count();
            if dot.site() != site {
                continue;
            }
            greatest = greatest.max(count);
        }
        greatest
    }

    // If the given dots are several in order, at most one: the first from `from` on, of any site. Otherwise all of
    // them.
    fn next(self, from: Dot) -> &'a [Dot]
        ensures { AreNext self.entry.list.now from result.now }
    {
        if !self.rise {
            return self.list;
        }
        let place = self.list.partition_point(|dot| *dot < from);
        let end = self.list.len().min(place + 1);
        &self.list[place..end]
    }

    // Whether `from` is given; and a count, at most that of `last`, up to which every dot of its site from `from` on
    // is given or not, as `from` is. If `from` is given, that is its own count; otherwise it is the last such count.
    pub(crate) fn piece(self, from: Dot, last: Dot) -> Piece
        requires { from.count ≤ last.count }
        ensures { IsPiece
            (λ n. is_given self.entry.list.now (record { site = from.site; count = n }))
            from.count last.count result }
    {
        let those = self.next(from);
        let mut end = last.count();
        for dot in those {
            if dot.site() != from.site() {
                continue;
            }
            if dot.count() < from.count() {
                continue;
            }
            if dot.count() == from.count() {
                return Piece {
                    inside: true,
                    last: from.count(),
                };
            }
            end = end.min(dot.count() - 1);
        }
        Piece {
            inside: false,
            last: end,
        }
    }
}
