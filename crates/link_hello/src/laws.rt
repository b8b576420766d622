//! Laws of the codes of a hello. The function has no body: its contract is the law.
ghost use Rattle.std.specs.Prelude.{◌≢◌, ◌++◌, ℕ, List};
ghost use Rattle.std.specs.List.{AllPairs};
ghost use Rattle.link_hello.specs.Codes.{labels};

/// Messages under two labels are never the same: what one code or key of some hello is of is never what another kind of code or key is of.
/// Two messages may still have the same code, which is shorter.
pub fn labels_keep_messages_apart()
    ensures { AllPairs (λ one other. (some more : List ℕ) → one ++ some ≢ other ++ more) labels }
{}
