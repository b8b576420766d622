//! How many bytes the parts of a frame have.
ghost use Rattle.std.specs.Prelude.{◌≡◌, ◌*◌, ◌≤◌, length};
ghost use Rattle.std.specs.List.{flat_map};
ghost use Rattle.std.specs.FinMap as map;
ghost use Rattle.dots.specs.declared.limits.TheConstants.{MOST_LIVE, MOST_RUNS};
ghost use Rattle.delta_codec.specs.declared.limits.TheConstants.{MOST_LENGTH, MOST_TOTALS};
ghost use Rattle.delta_codec.specs.Frames.{Heading, content_bytes, parts_with};
ghost use Rattle.delta_codec.specs.Measures.{most_cell, most_field, most_fields, most_text};
ghost use Rattle.delta_codec.specs.Parts.{cell_bytes, field_bytes, fields_bytes, text_bytes};

use crate::field_bytes::FieldBytes;
use causal_context::Run;
use delta::Delta;
use dots::{Dot, Member, Text80};
use lww_registers::{Fields, Register};
use member_orset::MemberSet;
use site_totals::Totals;

// How many bytes a text has in a frame: one for its length, and its own.
pub(crate) fn text_size(text: &Text80) -> usize
    ensures value { result ≡ length (text_bytes text.now) }
    ensures limit { result ≤ most_text }
{
    1 + text.as_bytes().len()
}

// How many bytes a field has: nine of its stamp and those of its value if it is set, and otherwise none.
fn field_size<T: FieldBytes>(field: &Register<T>) -> usize
    ensures value { result ≡ length (field_bytes T.bytes field.now) }
    ensures limit { result ≤ most_field T.most }
{
    match field.value() {
        Some(value) => 9 + value.size(),
        None => 0,
    }
}

// How many bytes fields have: one of flags, and those of each field.
fn fields_size(fields: &Fields) -> usize
    ensures value { result ≡ length (fields_bytes fields.now) }
    ensures limit { result ≤ most_fields }
{
    let penalty = field_size(&fields.penalty);
    let pause = field_size(&fields.pause);
    let label = field_size(&fields.label);
    let ring = field_size(&fields.ring);
    1 + (penalty + (pause + (label + ring)))
}

// How many bytes a cell has: eleven of dot and queue, the interface, the fields. The contract names the dot.
fn cell_size(dot: Dot, member: &Member, fields: &Fields) -> usize
    ensures value { result ≡ length (cell_bytes (dot, (member.now, fields.now))) }
    ensures limit { result ≤ most_cell }
{
    11 + (text_size(member.interface.text()) + fields_size(fields))
}

// How many bytes the cells of a set have, without the number of cells.
fn cells_size(members: &MemberSet) -> usize
    requires { map.len members.now.live ≤ MOST_LIVE }
    ensures value { result ≡ length (flat_map cell_bytes (map.entries members.now.live)) }
    ensures limit { result ≤ most_cell * MOST_LIVE }
{
    let mut size = 0;
    for (dot, cell) in members.iter() {
        size += cell_size(dot, cell.member, cell.fields);
    }
    size
}

// How many totals there are: at most one for each site and queue.
pub(crate) fn count_of(totals: &Totals) -> usize
    ensures value { result ≡ length (map.entries totals.now.entries) }
    ensures limit { result ≤ MOST_TOTALS }
{
    let mut count = 0;
    for (_key, _) in totals.iter() {
        count += 1;
    }
    count
}

// How many bytes a frame with this delta has after its length, whatever its heading, if its context has these runs:
// 24 of letters, version, heading and the three numbers of elements, 17 of each run, 19 of each total, and the
// cells.
pub(crate) fn content_size(delta: &Delta, runs: &[Run]) -> usize
    requires { length runs.now ≤ MOST_RUNS }
    ensures value { (heading : Heading)
        → result ≡ length (content_bytes (parts_with heading delta.now runs.now)) }
    ensures limit { result ≤ MOST_LENGTH }
{
    let cells = cells_size(delta.members());
    let totals = count_of(delta.totals());
    24 + (17 * runs.len() + (cells + 19 * totals))
}
