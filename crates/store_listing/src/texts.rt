//! Texts and fields in a line. A function that runs out of memory may have appended a part.
ghost use Rattle.std.specs.Prelude.{◌≡◌, ◌++◌, OnOk};
ghost use Rattle.hex.specs.Hex.{encode_lower};
ghost use Rattle.store_listing.specs.Texts.{field, is_shown_plain, shown, shown_byte, word};
ghost use Rattle.store_listing.specs.Texts.{yes_or_no};

use dots::Memory;

// Whether a byte is shown as it is.
fn is_shown_plain(byte: u8) -> bool
    ensures { result ≡ is_shown_plain byte }
{
    byte.is_ascii_graphic() && byte != b'*' && byte != b'\\'
}

/// Appends bytes in lower-case hexadecimal. Fails only when out of memory.
pub fn push_hex(line: &mut Vec<u8>, bytes: &[u8]) -> Result<(), Memory>
    ensures { OnOk result (line.new.items ≡ line.old.items ++ encode_lower bytes.now) }
{
    let digits = hex::encode(*line.allocator(), bytes)?;
    line.extend_from_slice(digits.as_bytes())
}

// Appends a byte of a text: as it is, or as `\x` and two hexadecimal digits. Fails only when out of
// memory.
fn push_byte(line: &mut Vec<u8>, byte: u8) -> Result<(), Memory>
    ensures { OnOk result (line.new.items ≡ line.old.items ++ shown_byte byte) }
{
    if is_shown_plain(byte) {
        line.push(byte)?;
        return Ok(());
    }
    line.extend_from_slice(b"\\x")?;
    push_hex(line, &[byte])
}

// Appends a text, byte by byte. Fails only when out of memory.
#[tactic(auto, using(crate::proofs::Pieces::shown_more))]
fn push_shown(line: &mut Vec<u8>, text: &[u8]) -> Result<(), Memory>
    ensures { OnOk result (line.new.items ≡ line.old.items ++ shown text.now) }
{
    for byte in text {
        push_byte(line, *byte)?;
    }
    Ok(())
}

/// Appends a text behind a space. Fails only when out of memory.
pub fn push_word(line: &mut Vec<u8>, text: &[u8]) -> Result<(), Memory>
    ensures { OnOk result (line.new.items ≡ line.old.items ++ word text.now) }
{
    line.extend_from_slice(b" ")?;
    push_shown(line, text)
}

/// Appends a field of this name behind a space, if its text has a byte. Fails only when out of memory.
pub fn push_field(line: &mut Vec<u8>, name: &[u8], text: &[u8]) -> Result<(), Memory>
    ensures { OnOk result (line.new.items ≡ line.old.items ++ field name.now text.now) }
{
    if text.is_empty() {
        return Ok(());
    }
    line.extend_from_slice(b" ")?;
    line.extend_from_slice(name)?;
    push_word(line, text)
}

/// Appends yes or no. Fails only when out of memory.
pub fn push_yes_or_no(line: &mut Vec<u8>, yes: bool) -> Result<(), Memory>
    ensures { OnOk result (line.new.items ≡ line.old.items ++ yes_or_no yes) }
{
    if yes {
        line.extend_from_slice(b"yes")
    } else {
        line.extend_from_slice(b"no")
    }
}
