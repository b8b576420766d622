//! The parts between the bars of an `offer` line.
ghost use Rattle.std.specs.Prelude.{◌≡◌, ◌∷◌, ◌<◌, length, IfOk, IfSome};
ghost use Rattle.std.specs.List.{filter_map, slice_split};
ghost use Rattle.std.specs.Option.{option_copied};
ghost use Rattle.ami_session.specs.FieldValues.{name_of};
ghost use Rattle.script_lines.specs.ScriptLines.{is_bar, parts_of};

use ami_session::interface_of;
use bstr::ByteSlice;
use dots::{Interface, Memory};
use std::alloc::Global;

/// The bytes before the first bar of `parts`, and those after it, if there is one.
pub fn cut_at_bar(parts: &[u8]) -> (&[u8], Option<&[u8]>)
    ensures parts { slice_split is_bar parts.now
        ≡ result.0.now ∷ parts_of (option_copied result.1) }
    ensures shorter { IfSome result.1 (λ rest. length rest.now < length parts.now) }
{
    match parts.find_byte(b'|') {
        None => (parts, None),
        Some(bar) => (&parts[..bar], Some(&parts[bar + 1..])),
    }
}

/// The interfaces among the parts between bars, in order; what is no interface is left out. `None`: there are no
/// parts. Fails only when out of memory.
pub fn interfaces_of(alloc: Global, parts: Option<&[u8]>) -> Result<Vec<Interface>, Memory>
    ensures { IfOk result (λ tried. tried.items
        ≡ filter_map name_of (parts_of (option_copied parts.entry))) }
{
    let mut tried = Vec::new(alloc);
    let mut left = parts;
    'parts: while let Some(rest) = left {
        let (part, others) = cut_at_bar(rest);
        if let Some(interface) = interface_of(part) {
            tried.push(interface)?;
        }
        left = others;
    }
    Ok(tried)
}
