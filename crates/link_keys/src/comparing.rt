ghost use Rattle.std.specs.Prelude.{◌≡◌, ◌↔◌, IsTrue};

/// True exactly if both have the same bytes. Bytes of one length are all looked at, wherever they differ: the loop has no early end
/// and no branch on what it reads, so its steps depend on the length alone. That the compiled code keeps that form isn't proved.
pub fn same_bytes(one: &[u8], other: &[u8]) -> bool
    ensures { IsTrue result ↔ (one.now ≡ other.now) }
{
    if one.len() != other.len() {
        return false;
    }
    let mut differing = 0usize;
    'bytes: for i in 0..one.len() {
        differing += usize::from(one[i] != other[i]);
    }
    differing == 0
}
