//! Appends the parts of a frame to earlier bytes. Each function fails only when out of memory; then some of its
//! bytes may have been appended. Clauses named `within` show that what was written is within its limits.
ghost use Rattle.std.specs.Prelude.{◌≡◌, ◌++◌, ◌≤◌, OnOk, is_some, length};
ghost use Rattle.std.specs.List.{All, flat_map};
ghost use Rattle.std.specs.FinMap as map;
ghost use Rattle.std.specs.Int.{w16, w32, w64, to_be_bytes};
ghost use Rattle.dots.specs.declared.limits.TheConstants.{MOST_RUNS};
ghost use Rattle.operations.specs.Totals.{IsTotal};
ghost use Rattle.dots.specs.Values.{IsSite, IsText};
ghost use Rattle.dots.specs.WithinLimits.{IsDot, IsStamp};
ghost use Rattle.member_orset.specs.Members.{IsWithinLimits};
ghost use Rattle.delta_codec.specs.Frames.{opening_bytes};
ghost use Rattle.delta_codec.specs.Parts.{AreInLimits, IsField, bit_of, byte, cell_bytes};
ghost use Rattle.delta_codec.specs.Parts.{dot_bytes};
ghost use Rattle.delta_codec.specs.Parts.{field_bytes, fields_bytes, flags_of, list_bytes};
ghost use Rattle.delta_codec.specs.Parts.{run_bytes, stamp_bytes, text_bytes, total_bytes};
ghost use Rattle.delta_codec.specs.Written.{IsWritten};
ghost use Rattle.delta_codec.specs.declared.limits.TheConstants.{VERSION};

use crate::field_bytes::FieldBytes;
use crate::sizes::count_of;
use crate::{Memory, VERSION};
use causal_context::Run;
use dots::{CallTotals, Dot, Member, SiteId, Stamp, Text80};
use lww_registers::{Fields, Register};
use member_orset::MemberSet;
use site_totals::{TotalKey, Totals};

// A site, in one byte.
fn put_site(out: &mut Vec<u8>, site: SiteId) -> Result<(), Memory>
    ensures written { OnOk result (out.new.items ≡ out.old.items ++ byte site) }
    ensures within { OnOk result (IsSite site) }
{
    out.push(site.number() as u8)?;
    Ok(())
}

// A number of eight bytes.
fn put_number8(out: &mut Vec<u8>, number: u64) -> Result<(), Memory>
    ensures { OnOk result (out.new.items ≡ out.old.items ++ to_be_bytes w64 number) }
{
    out.extend_from_slice(&number.to_be_bytes())
}

// A number of four bytes.
pub(crate) fn put_number4(out: &mut Vec<u8>, number: u32) -> Result<(), Memory>
    ensures { OnOk result (out.new.items ≡ out.old.items ++ to_be_bytes w32 number) }
{
    out.extend_from_slice(&number.to_be_bytes())
}

// A number of two bytes.
fn put_number2(out: &mut Vec<u8>, number: u16) -> Result<(), Memory>
    ensures { OnOk result (out.new.items ≡ out.old.items ++ to_be_bytes w16 number) }
{
    out.extend_from_slice(&number.to_be_bytes())
}

// A text, after its length.
pub(crate) fn put_text(out: &mut Vec<u8>, text: &Text80) -> Result<(), Memory>
    ensures written { OnOk result (out.new.items ≡ out.old.items ++ text_bytes text.now) }
    ensures within { OnOk result (IsText text.now) }
{
    let bytes = text.as_bytes();
    out.push(bytes.len() as u8)?;
    out.extend_from_slice(bytes)
}

// A stamp.
fn put_stamp(out: &mut Vec<u8>, stamp: Stamp) -> Result<(), Memory>
    ensures written { OnOk result (out.new.items ≡ out.old.items ++ stamp_bytes stamp) }
    ensures within { OnOk result (IsStamp stamp) }
{
    put_number8(out, stamp.time())?;
    put_site(out, stamp.site())
}

// A field: its stamp and its value where it is set, and nothing where it isn't.
fn put_field<T: FieldBytes>(out: &mut Vec<u8>, field: &Register<T>) -> Result<(), Memory>
    ensures written { OnOk result
        (out.new.items ≡ out.old.items ++ field_bytes T.bytes field.now) }
    ensures within { OnOk result (IsField T.is_within field.now) }
{
    if let (Some(stamp), Some(value)) = (field.stamp(), field.value()) {
        put_stamp(out, stamp)?;
        value.put(out)?;
    }
    Ok(())
}

// 1 where a field is set, and 0 where it isn't.
fn flag<T: FieldBytes>(field: &Register<T>) -> u8
    ensures value { result ≡ bit_of (is_some field.now) }
    ensures most { result ≤ 1 }
{
    u8::from(field.stamp().is_some())
}

// Which fields are set: 1 for the penalty, 2 for the pause, 4 for the label, 8 for the ring, added up.
fn flags(fields: &Fields) -> u8
    ensures { result ≡ flags_of fields.now }
{
    let penalty = flag(&fields.penalty);
    let pause = flag(&fields.pause);
    let label = flag(&fields.label);
    let ring = flag(&fields.ring);
    penalty + (2 * pause + (4 * label + 8 * ring))
}

// Fields, after their flags.
fn put_fields(out: &mut Vec<u8>, fields: &Fields) -> Result<(), Memory>
    ensures written { OnOk result (out.new.items ≡ out.old.items ++ fields_bytes fields.now) }
    ensures within { OnOk result (AreInLimits fields.now) }
{
    out.push(flags(fields))?;
    put_field(out, &fields.penalty)?;
    put_field(out, &fields.pause)?;
    put_field(out, &fields.label)?;
    put_field(out, &fields.ring)
}

// A dot.
fn put_dot(out: &mut Vec<u8>, dot: Dot) -> Result<(), Memory>
    ensures written { OnOk result (out.new.items ≡ out.old.items ++ dot_bytes dot) }
    ensures within { OnOk result (IsDot dot) }
{
    put_site(out, dot.site())?;
    put_number8(out, dot.count())
}

// A cell: dot, queue, interface and fields.
fn put_cell(out: &mut Vec<u8>, dot: Dot, member: &Member, fields: &Fields) -> Result<(), Memory>
    ensures written { OnOk result
        (out.new.items ≡ out.old.items ++ cell_bytes (dot, (member.now, fields.now))) }
    ensures within { OnOk result (IsWritten (dot, (member.now, fields.now))) }
{
    put_dot(out, dot)?;
    put_number2(out, member.queue)?;
    put_text(out, member.interface.text())?;
    put_fields(out, fields)?;
    Ok(())
}

// A run: site, first count and last.
fn put_run(out: &mut Vec<u8>, run: Run) -> Result<(), Memory>
    ensures { OnOk result (out.new.items ≡ out.old.items ++ run_bytes run) }
{
    put_site(out, run.site)?;
    put_number8(out, run.first)?;
    put_number8(out, run.last)
}

// A total: site, queue, completed and abandoned calls.
fn put_total(out: &mut Vec<u8>, key: TotalKey, totals: CallTotals) -> Result<(), Memory>
    ensures { OnOk result (out.new.items ≡ out.old.items ++ total_bytes (key, totals)) }
{
    put_site(out, key.site())?;
    put_number2(out, key.queue())?;
    put_number8(out, totals.completed)?;
    put_number8(out, totals.abandoned)
}

// Runs, in order.
fn put_runs(out: &mut Vec<u8>, runs: &[Run]) -> Result<(), Memory>
    ensures { OnOk result (out.new.items ≡ out.old.items ++ flat_map run_bytes runs.now) }
{
    for run in runs {
        put_run(out, *run)?;
    }
    Ok(())
}

// The cells of a set, in order.
fn put_cells(out: &mut Vec<u8>, members: &MemberSet) -> Result<(), Memory>
    ensures written { OnOk result (out.new.items
        ≡ out.old.items ++ flat_map cell_bytes (map.entries members.now.live)) }
    ensures within { OnOk result (All IsWritten (map.entries members.now.live)) }
{
    for (dot, cell) in members.iter() {
        put_cell(out, dot, cell.member, cell.fields)?;
    }
    Ok(())
}

// All totals, in the order of their sites and queues.
fn put_totals(out: &mut Vec<u8>, totals: &Totals) -> Result<(), Memory>
    ensures written { OnOk result (out.new.items
        ≡ out.old.items ++ flat_map total_bytes (map.entries totals.now.entries)) }
    ensures within { OnOk result
        (All (λ total. IsTotal total.0 total.1) (map.entries totals.now.entries)) }
{
    for (key, total) in totals.iter() {
        put_total(out, key, total)?;
    }
    Ok(())
}

// Runs, after their number.
pub(crate) fn put_run_list(out: &mut Vec<u8>, runs: &[Run]) -> Result<(), Memory>
    requires { length runs.now ≤ MOST_RUNS }
    ensures { OnOk result (out.new.items ≡ out.old.items ++ list_bytes run_bytes runs.now) }
{
    put_number4(out, runs.len() as u32)?;
    put_runs(out, runs)?;
    Ok(())
}

// The cells of a set, after their number.
pub(crate) fn put_cell_list(out: &mut Vec<u8>, members: &MemberSet) -> Result<(), Memory>
    ensures written { OnOk result (out.new.items
        ≡ out.old.items ++ list_bytes cell_bytes (map.entries members.now.live)) }
    ensures within { OnOk result (All IsWritten (map.entries members.now.live)) }
    ensures limits { OnOk result (IsWithinLimits members.now) }
{
    put_number4(out, members.cells() as u32)?;
    put_cells(out, members)?;
    Ok(())
}

// Totals, after their number.
pub(crate) fn put_total_list(out: &mut Vec<u8>, totals: &Totals) -> Result<(), Memory>
    ensures written { OnOk result (out.new.items
        ≡ out.old.items ++ list_bytes total_bytes (map.entries totals.now.entries)) }
    ensures within { OnOk result
        (All (λ total. IsTotal total.0 total.1) (map.entries totals.now.entries)) }
{
    put_number4(out, count_of(totals) as u32)?;
    put_totals(out, totals)?;
    Ok(())
}

// The letters that follow each frame's length, the version that sites write, the maker of the frame, and its
// number.
pub(crate) fn put_opening(out: &mut Vec<u8>, maker: SiteId, number: u64) -> Result<(), Memory>
    ensures written { OnOk result
        (out.new.items
        ≡ out.old.items ++ opening_bytes VERSION (record { maker = maker; number = number })) }
    ensures within { OnOk result (IsSite maker) }
{
    out.extend_from_slice(&[b'Q', b'D', VERSION])?;
    put_site(out, maker)?;
    put_number8(out, number)?;
    Ok(())
}
