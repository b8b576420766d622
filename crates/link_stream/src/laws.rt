//! Laws of the items of a link. The functions have no body of their own: their contracts are the laws.
ghost use Rattle.std.specs.Prelude.{◌≡◌, ◌≤◌, ◌^◌, ◌++◌, ℕ, List, Option, Contains, length, take};
ghost use Rattle.std.specs.Io.KnownBytes.{Appends};
ghost use Rattle.std.specs.List.{All};
ghost use Rattle.delta.specs.declared.frame.Frame.{Frame};
ghost use Rattle.delta_codec.specs.Frames.{Spells};
ghost use Rattle.link_stream.specs.Items.{IsFrame, IsItemBytes};
ghost use Rattle.link_stream.specs.Sequences.{Event, HaveHappened, HaveSent, all_came, all_counted};
ghost use Rattle.link_stream.specs.Sequences.{all_given, all_tagged};
ghost use Rattle.link_stream.specs.Sending.{SenderState};
ghost use Rattle.link_stream.specs.Tagged.{TaggedState};

use delta_codec::laws::a_frame_has_a_length;

/// The bytes that spell a frame are a frame's bytes on a link.
pub fn a_frame_is_an_item()
    ensures { (frame : Frame) (bytes : List ℕ) → Spells frame bytes → IsFrame bytes }
{
    a_frame_has_a_length();
}

/// What was given is what came, after any number of calls: the bytes that were held and those that came are the items or
/// acknowledgements that were given, each with the tag of its counter, and the bytes that are held now.
pub fn what_is_given_is_what_came()
    ensures { (old new : TaggedState) (events : List Event) → HaveHappened old events new
        → old.held ++ all_came events
        ≡ all_tagged old.key old.taken (all_given events) ++ new.held }
{}

/// What was written is what was sent, after any number of sends without a fault: each item or acknowledgement with the tag of its counter.
pub fn what_is_written_is_what_was_sent()
    ensures { (before after : Option (List ℕ)) (old new : SenderState) (items : List (List ℕ))
        → HaveSent before after old items new
        → Appends before after (all_tagged old.key old.sent items) }
{}

/// Bytes are items with their tags in one way: of two such readings of bytes the shorter begins the longer.
pub fn bytes_have_one_reading()
    ensures { (key : List ℕ) (counter : ℕ) (some more : List (List ℕ)) (rest other : List ℕ)
        → All IsItemBytes some → All IsItemBytes more → length some ≤ length more
        → all_tagged key counter some ++ rest ≡ all_tagged key counter more ++ other
        → some ≡ take (length some) more }
{}

/// Where each message whose code was found right is one of which the sender made the code, what was given is a prefix of what was sent:
/// no item was altered, injected, repeated, left out or reordered. That whoever lacks the key can make no code is the premise on
/// HMAC-SHA-256; no clause claims it.
pub fn what_is_given_was_sent()
    ensures { (sent given : List (List ℕ)) → length sent ≤ 2 ^ 64 → length given ≤ 2 ^ 64
        → All (Contains (all_counted 0 sent)) (all_counted 0 given)
        → given ≡ take (length given) sent }
{}
