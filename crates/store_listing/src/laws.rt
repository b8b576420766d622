//! A law of listings. The function has no body but other laws: its contract is the law.
ghost use Rattle.std.specs.Prelude.{◌≡◌, ℕ, Bool, List};
ghost use Rattle.stored_steps.specs.Stored.{Stored};
ghost use Rattle.store_listing.specs.Listings.{AreTexts};

use delta_codec::laws::bytes_spell_one_frame;
use stored_steps::laws::{a_row_is_of_one_step, a_row_is_read_as_one_base};

/// Rows have one text at most: what is written of them is determined by what they say.
pub fn rows_have_one_text()
    ensures { (with_frames : Bool) (first : ℕ) (rows : List Stored) (one other : List ℕ)
        → AreTexts with_frames first rows one → AreTexts with_frames first rows other
        → one ≡ other }
{
    a_row_is_of_one_step();
    a_row_is_read_as_one_base();
    bytes_spell_one_frame();
}
