ghost use Rattle.std.specs.Prelude.{◌≡◌};
ghost use Rattle.std.specs.Iterator.{YieldsFirst, item_count};

use crate::rows::Row;
use crate::{CallTotals, TotalKey};
use std::marker::Model;

/// The entries of totals, by site, then by queue: a key with its totals.
#[derive(Drop)]
pub struct Iter<'a> {
    rows: &'a [Row],
}

impl<'a> Model for Iter<'a> {
    ghost use Rattle.std.specs.Prelude.{List};
    ghost use Rattle.dots.specs.declared.call_totals.CallTotals.{CallTotals};
    ghost use Rattle.operations.specs.Totals.{Key};

    ghost Value = { List (Key × CallTotals) };

    ghost view = { λ s. s.rows.now };
}

impl<'a> Iter<'a> {
    // An iterator over these entries.
    pub(crate) fn new(rows: &'a [Row]) -> Iter<'a>
        ensures { result ≡ rows.entry.now }
    {
        Iter { rows }
    }
}

impl<'a> Iterator for Iter<'a> {
    type Item = (TotalKey, CallTotals);

    ghost next_gives = { YieldsFirst (λ s. s) };

    ghost remaining = { item_count (λ s. s) };

    fn next(&mut self) -> Option<(TotalKey, CallTotals)> {
        let (first, rest) = self.rows.split_first()?;
        self.rows = rest;
        Some(*first)
    }
}
