ghost use Rattle.std.specs.Prelude.{◌≡◌};
ghost use Rattle.link_keys.specs.Macs.{tag_of};

use crate::{Key, Mac};

/// How many bytes a tag has.
pub const TAG_BYTES: usize = 16;

/// The tag of an item under a key and a counter: the first 16 bytes of the code of the counter, eight bytes, and the item.
pub fn tag(key: &Key, counter: u64, item: &[u8]) -> [u8; TAG_BYTES]
    ensures { result ≡ tag_of key.now counter item.now }
{
    let mut mac = Mac::new(key);
    mac.add(&counter.to_be_bytes());
    mac.add(item);
    let code = mac.finish();
    let mut tag = [0u8; TAG_BYTES];
    tag.copy_from_slice(&code[..TAG_BYTES]);
    tag
}
