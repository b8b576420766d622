//! The first of the offers of a queue's rows.
ghost use Rattle.std.specs.Prelude.{◌≡◌};
ghost use Rattle.operations.specs.Views.{row_view};
ghost use Rattle.offer.specs.Offers.{first_of, offers_of};
ghost use Rattle.offer.specs.GoingOver.{comes_first, is_next};

use crate::Offer;
use dots::Interface;
use member_orset::Rows;
use operations::Row;
use std::cmp::Ordering;

// Whether the offer of this interface with this penalty precedes `first`, the first so far.
fn comes_first(interface: &Interface, penalty: u32, first: &Option<Offer>) -> bool
    ensures { result
        ≡ comes_first first.now (record { interface = interface.now; penalty = penalty }) }
{
    match first {
        None => true,
        Some(first) => match penalty.cmp(&first.penalty) {
            Ordering::Less => true,
            Ordering::Equal => *interface < first.interface,
            Ordering::Greater => false,
        },
    }
}

// Whether the member of this interface and row may be offered, and precedes `first`, the first so far. The tried interfaces are
// checked last.
fn is_next(interface: &Interface, row: &Row<'_>, first: &Option<Offer>, tried: &[Interface]) -> bool
    ensures { result ≡ is_next tried.now first.now (interface.now, row_view row.now) }
{
    !row.paused && comes_first(interface, row.penalty, first) && !tried.contains(interface)
}

// The first of the offers of rows, without the interfaces that were tried. `None` if there is none.
pub(crate) fn first_offer(rows: Rows<'_>, tried: &[Interface]) -> Option<Offer>
    ensures { result ≡ first_of (offers_of tried.now rows.entry) }
{
    let mut first = None;
    for (interface, row) in rows {
        if is_next(interface, &row, &first, tried) {
            first = Some(Offer {
                interface: interface.copy(),
                penalty: row.penalty,
            });
        }
    }
    first
}
