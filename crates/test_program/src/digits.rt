use std::alloc::Global;
use std::io::{self, Write};

// Writes a line of this text and the hexadecimal digits of bytes.
pub(crate) fn say_digits<W: Write>(
    alloc: Global,
    out: &mut W,
    text: &str,
    bytes: &[u8],
) -> io::Result<()> {
    let digits = hex::encode(alloc, bytes)?;
    let said = writeln!(out, "{text}{digits}");
    drop(digits);
    said
}
