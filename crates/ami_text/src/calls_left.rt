ghost use Rattle.std.specs.Prelude.{◌≡◌, ◌≢◌, ◌↔◌, Some, IsTrue};
ghost use Rattle.ami_text.specs.Devices.{one_less};

/// Counts a call down, where calls are counted. Returns false if none was left, so that this call
/// fails; `None` stays, and gives true.
pub fn count_down(calls_left: &mut Option<u64>) -> bool
    ensures due { IsTrue result ↔ (calls_left.old ≢ Some 0) }
    ensures counted { calls_left.new ≡ one_less calls_left.old }
{
    match calls_left {
        Some(0) => false,
        Some(calls) => {
            *calls -= 1;
            true
        }
        None => true,
    }
}
