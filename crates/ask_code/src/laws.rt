//! Laws of the encoding of a command with its answer. The functions have no body: their contracts are the laws.
ghost use Rattle.std.specs.Prelude.{◌≡◌, ◌⊎◌, ◌≤◌, ◌++◌, ℕ, List, [], length};
ghost use Rattle.ask_code.specs.declared.answered.AnsweredCommand.{AnsweredCommand};
ghost use Rattle.ask_code.specs.declared.ask_fault.AskFault.{AskFault};
ghost use Rattle.ask_code.specs.declared.limits.TheConstants.{MOST_ASK_BYTES};
ghost use Rattle.ask_code.specs.Asks.{AreBytes, HasFault, IsAsk, IsEncodedAsk, IsFaulty};
ghost use Rattle.ask_code.specs.Asks.{ask_bytes};

/// Bytes are the encoding of at most one command with its answer, and no encoding is a prefix of another.
pub fn bytes_encode_one_ask()
    ensures one { (x y : AnsweredCommand) → IsAsk x → IsAsk y → ask_bytes x ≡ ask_bytes y → x ≡ y }
    ensures no_prefix { (x y : AnsweredCommand) (rest : List ℕ) → IsAsk x → IsAsk y
        → ask_bytes y ≡ ask_bytes x ++ rest → rest ≡ [] }
    ensures front { (x y : AnsweredCommand) (rest others : List ℕ) → IsAsk x → IsAsk y
        → ask_bytes x ++ rest ≡ ask_bytes y ++ others → (x ≡ y) × (rest ≡ others) }
{}

/// Bytes are the encoding of a command with its answer, or have a fault, and never both. They have at most one fault.
pub fn bytes_are_an_encoding_or_have_a_fault()
    ensures either { (bytes : List ℕ) → AreBytes bytes → IsEncodedAsk bytes ⊎ IsFaulty bytes }
    ensures not_both { (bytes : List ℕ) → IsEncodedAsk bytes → IsFaulty bytes → ⊥ }
    ensures one { (bytes : List ℕ) (f g : AskFault)
        → HasFault f bytes → HasFault g bytes → f ≡ g }
{}

/// An encoding has at most `MOST_ASK_BYTES` bytes.
pub fn an_encoding_has_a_length()
    ensures { (ask : AnsweredCommand) → IsAsk ask → length (ask_bytes ask) ≤ MOST_ASK_BYTES }
{}
