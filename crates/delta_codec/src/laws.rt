//! Laws of the encoding of frames. The functions have no body: their contracts are the laws.
ghost use Rattle.std.specs.Prelude.{◌≡◌, ◌≢◌, ◌⊎◌, ◌≤◌, ◌∷◌, ◌++◌, ℕ, List, [], drop, length};
ghost use Rattle.std.specs.Prelude.{take};
ghost use Rattle.delta_codec.specs.declared.decode_fault.DecodeFault.{DecodeFault};
ghost use Rattle.delta_codec.specs.declared.decode_fault.DecodeFault.TheVariants.{Memory};
ghost use Rattle.delta_codec.specs.declared.decode_fault.DecodeFault.TheVariants.{Truncated};
ghost use Rattle.dots.specs.Values.{IsCount, IsSite};
ghost use Rattle.operations.specs.FrameLimits.{FitsInFrame};
ghost use Rattle.operations.specs.Knowledge.{Knowledge};
ghost use Rattle.delta.specs.declared.frame.Frame.{Frame};
ghost use Rattle.delta_codec.specs.declared.limits.TheConstants.{LEAST_LENGTH, MOST_LENGTH};
ghost use Rattle.delta_codec.specs.declared.limits.TheConstants.{OLDEST_VERSION, VERSION};
ghost use Rattle.delta.specs.Frames.{IsSameFrame};
ghost use Rattle.delta.specs.Standing.{IsDeltaOf};
ghost use Rattle.delta_codec.specs.Decoding.{AreBytes, BeginsWithFrame, IsAtFault};
ghost use Rattle.delta_codec.specs.Faults.{HasFault};
ghost use Rattle.delta_codec.specs.Fitting.{FitsFormat, HasNoRing};
ghost use Rattle.delta_codec.specs.Frames.{AreParts, FrameParts, Spells, SpellsIn, content_bytes};
ghost use Rattle.delta_codec.specs.Frames.{frame_bytes};

/// Each frame has one encoding in each version: frames of one maker and number whose deltas say the same have equal bytes there.
pub fn each_frame_has_one_spelling()
    ensures { (version : ℕ) (x y : Frame) (a b : List ℕ)
        → IsSameFrame x y → SpellsIn version x a → SpellsIn version y b → a ≡ b }
{}

/// Bytes that encode a frame encode each frame of its maker and number whose delta says the same, in the same version; so a copy of
/// a delta has the same bytes as the delta.
pub fn a_spelling_is_of_all_that_say_the_same()
    ensures any { (x y : Frame) (bytes : List ℕ)
        → Spells x bytes → IsSameFrame x y → Spells y bytes }
    ensures one { (version : ℕ) (x y : Frame) (bytes : List ℕ)
        → SpellsIn version x bytes → IsSameFrame x y → SpellsIn version y bytes }
{}

/// Bytes encode at most one frame, in one version, and no encoding is a prefix of another.
pub fn bytes_spell_one_frame()
    ensures one { (x y : Frame) (bytes : List ℕ)
        → Spells x bytes → Spells y bytes → IsSameFrame x y }
    ensures version { (v w : ℕ) (x y : Frame) (bytes : List ℕ)
        → SpellsIn v x bytes → SpellsIn w y bytes → v ≡ w }
    ensures no_prefix { (x y : Frame) (bytes rest : List ℕ)
        → Spells x bytes → Spells y (bytes ++ rest) → rest ≡ [] }
{}

/// A frame is never too long, nor too short, for its length field. It has at most 7,618,588 bytes.
pub fn a_frame_has_a_length()
    ensures least { (parts : FrameParts)
        → AreParts parts → LEAST_LENGTH ≤ length (content_bytes parts) }
    ensures most { (parts : FrameParts)
        → AreParts parts → length (content_bytes parts) ≤ MOST_LENGTH }
    ensures whole { (parts : FrameParts)
        → AreParts parts → length (frame_bytes parts) ≤ 7618588 }
{}

/// Bytes begin with a frame or have a fault, and never both. They have one fault at most, and it isn't `Memory`.
pub fn bytes_have_a_frame_or_a_fault()
    ensures either { (bytes : List ℕ) → AreBytes bytes → BeginsWithFrame bytes ⊎ IsAtFault bytes }
    ensures not_both { (bytes : List ℕ)
        → AreBytes bytes → BeginsWithFrame bytes → IsAtFault bytes → ⊥ }
    ensures one { (bytes : List ℕ) (f g : DecodeFault)
        → AreBytes bytes → HasFault bytes f → HasFault bytes g → f ≡ g }
    ensures not_memory { (bytes : List ℕ) (fault : DecodeFault)
        → HasFault bytes fault → fault ≢ Memory }
{}

/// If more bytes follow, the frame that bytes begin with stays, and they begin with no other, longer or shorter; their fault stays,
/// unless it is `Truncated`.
pub fn a_front_stays()
    ensures frame { (bytes more : List ℕ) (frame : Frame) (n : ℕ) → n ≤ length bytes
        → Spells frame (take n bytes) → Spells frame (take n (bytes ++ more)) }
    ensures one { (bytes more : List ℕ) (x y : Frame) (m n : ℕ)
        → m ≤ length bytes → n ≤ length (bytes ++ more)
        → Spells x (take m bytes) → Spells y (take n (bytes ++ more)) → (m ≡ n) × IsSameFrame x y }
    ensures fault { (bytes more : List ℕ) (fault : DecodeFault)
        → fault ≢ Truncated → HasFault bytes fault → HasFault (bytes ++ more) fault }
{}

/// A frame has an encoding, and so one in the version that sites write, exactly where it fits the format: all its parts are within
/// their limits, and each of its live dots is known.
pub fn a_frame_that_fits_the_format_has_a_spelling()
    ensures some { (frame : Frame)
        → FitsFormat frame → (bytes : List ℕ) × SpellsIn VERSION frame bytes }
    ensures only { (frame : Frame) (bytes : List ℕ) → Spells frame bytes → FitsFormat frame }
{}

/// A frame has an encoding in the oldest version exactly where it fits the format and none of its live dots has a ring. Its
/// encodings in any two versions differ only in the version, the byte after the length and the magic.
pub fn the_oldest_version_has_all_but_the_ring()
    ensures no_ring { (frame : Frame) (bytes : List ℕ)
        → SpellsIn OLDEST_VERSION frame bytes → HasNoRing frame }
    ensures some { (frame : Frame) → FitsFormat frame → HasNoRing frame
        → (bytes : List ℕ) × SpellsIn OLDEST_VERSION frame bytes }
    ensures alike { (v w : ℕ) (x y : Frame) (a b : List ℕ) → IsSameFrame x y
        → SpellsIn v x a → SpellsIn w y b → a ≡ take 6 b ++ (v ∷ drop 7 b) }
{}

/// The frame of a knowledge fits the format, so that it has an encoding, if the knowledge fits in a frame and the frame's maker and
/// number are within their limits.
pub fn the_frame_of_a_knowledge_that_fits_has_a_spelling()
    ensures fits { (frame : Frame) (k : Knowledge) → FitsInFrame k → IsDeltaOf frame.delta k
        → IsSite frame.maker → IsCount frame.number → FitsFormat frame }
    ensures some { (frame : Frame) (k : Knowledge) → FitsInFrame k → IsDeltaOf frame.delta k
        → IsSite frame.maker → IsCount frame.number
        → (bytes : List ℕ) × SpellsIn VERSION frame bytes }
{}
