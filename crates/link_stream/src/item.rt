ghost use Rattle.std.specs.Prelude.{◌≡◌, ◌↔◌, ◌≤◌, IfOk, IfSome, IsErr, IsTrue, None, Ok, length};
ghost use Rattle.link_stream.specs.Items.{HasBadLength, HasWholeItem, IsFrame, IsPart, IsSize};
ghost use Rattle.link_stream.specs.Items.{size_in};

use delta_codec::{LEAST_LENGTH, MOST_LENGTH};
use dots::SharedBytes;
use link_keys::TAG_BYTES;

/// The bytes of a beat.
pub const BEAT: [u8; 4] = [0, 0, 0, 0];

/// What a dialer sends over a link.
#[derive(Drop)]
pub enum Item {
    /// It only says that its sender lives.
    Beat,
    /// The bytes of a frame, its length in front.
    Frame(SharedBytes),
}

// A length has another value than an item may have.
#[derive(Clone, Copy)]
pub(crate) struct BadLength;

// Whether an item may have this many bytes after its length.
fn is_size(size: usize) -> bool
    ensures { IsTrue result ↔ IsSize size }
{
    size == 0 || size >= LEAST_LENGTH && size <= MOST_LENGTH
}

// Whether an item of this many bytes is a beat.
pub(crate) fn is_beat(size: usize) -> bool
    ensures { IsTrue result ↔ size ≡ 4 }
{
    size == BEAT.len()
}

// The number in the first four bytes.
fn size_of(bytes: &[u8]) -> usize
    requires { 4 ≤ length bytes.now }
    ensures { result ≡ size_in bytes.now }
{
    let (front, _) = bytes.split_at(4);
    u32::from_be_bytes([front[0], front[1], front[2], front[3]]) as usize
}

/// True exactly if the bytes are a length that a frame may have, and as many bytes after it.
pub(crate) fn is_frame(bytes: &[u8]) -> bool
    ensures { IsTrue result ↔ IsFrame bytes.now }
{
    if bytes.len() < 4 {
        return false;
    }
    let size = size_of(bytes);
    size >= LEAST_LENGTH && size <= MOST_LENGTH && bytes.len() - 4 == size
}

// How many bytes the item has that the bytes begin with, without its tag. `None` exactly where the item and its tag aren't all
// there yet. `BadLength` exactly where the first four bytes are a length that no item has.
pub(crate) fn whole_item(bytes: &[u8]) -> Result<Option<usize>, BadLength>
    ensures whole { IfOk result (λ next. IfSome next (λ size. HasWholeItem bytes.now size)) }
    ensures part { (result ≡ Ok None) → IsPart bytes.now }
    ensures bad_length { IsErr result ↔ HasBadLength bytes.now }
{
    if bytes.len() < 4 {
        return Ok(None);
    }
    let size = size_of(bytes);
    if !is_size(size) {
        return Err(BadLength);
    }
    if bytes.len() - 4 < size + TAG_BYTES {
        return Ok(None);
    }
    Ok(Some(4 + size))
}
