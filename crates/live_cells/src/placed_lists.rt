//! Merges sorted lists of live dots.
ghost use Rattle.std.specs.Prelude.{◌≡◌, ◌≤◌, ◌+◌, ◌++◌, length};
ghost use Rattle.std.specs.List.Sorted.{IsPermutation, IsStrictlySortedBy};
ghost use Rattle.live_cells.specs.Merges.{AreUntied, placed_cmp};

use crate::placed::Placed;
use devector::Devector;

// Merges a sorted list into another, in room that is there. They have no dot in common. Works from the back, and stops
// if none of `others` is left, so that nothing before them is read.
pub(crate) fn merge_dots(own: &mut Devector<Placed>, others: &[Placed])
    requires own { IsStrictlySortedBy placed_cmp own.old.items }
    requires others { IsStrictlySortedBy placed_cmp others.now }
    requires apart { AreUntied placed_cmp own.old.items others.now }
    requires room { length own.old.items + length others.now ≤ own.old.room }
    ensures same { IsPermutation (own.old.items ++ others.now) own.new.items }
    ensures rises { IsStrictlySortedBy placed_cmp own.new.items }
    ensures room { own.old.room ≤ own.new.room }
{
    let mut left = others.len();
    own.append_slice(others);
    let mut end = own.len();
    while left > 0 {
        let kept = end - left;
        end -= 1;
        if kept > 0 && others[left - 1].dot < own.as_slice()[kept - 1].dot {
            own.set(end, own.as_slice()[kept - 1]);
        } else {
            own.set(end, others[left - 1]);
            left -= 1;
        }
    }
}
