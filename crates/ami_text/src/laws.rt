//! Laws of the stream. The functions have no body: their contracts are the laws, which a caller's
//! proof has where its code calls the function.

ghost use Rattle.std.specs.Prelude.{◌≡◌, ℕ, List, [], ◌∷◌, ◌++◌};
ghost use Rattle.ami_text.specs.declared.feed_fault.FeedFault.{FeedFault};
ghost use Rattle.ami_text.specs.MessageFields.{NameAndValue};
ghost use Rattle.ami_text.specs.Stream.{Ending, Fault, FirstMessage, Gives, HasFault, Reads};

/// Each stream has exactly one list of messages, followed by exactly one rest or one fault.
pub fn stream_has_one_outcome()
    ensures some { (bytes : List ℕ) →
        (messages : List (List NameAndValue)) × (ending : Ending) × Reads bytes messages ending }
    ensures messages { (bytes : List ℕ) (messages others : List (List NameAndValue))
        (ending other : Ending) →
        Reads bytes messages ending → Reads bytes others other → messages ≡ others }
    ensures ending { (bytes : List ℕ) (messages others : List (List NameAndValue))
        (ending other : Ending) →
        Reads bytes messages ending → Reads bytes others other → ending ≡ other }
{}

/// The stream of two pieces is that of their concatenation: what the first leaves goes before the
/// second, and a fault stays.
pub fn stream_of_two_pieces()
    ensures rest { (first second held : List ℕ) (messages more : List (List NameAndValue))
        (ending : Ending) →
        Gives first messages held → Reads (held ++ second) more ending →
        Reads (first ++ second) (messages ++ more) ending }
    ensures fault { (first second : List ℕ) (messages : List (List NameAndValue))
        (fault : FeedFault) →
        Reads first messages (Fault fault) → Reads (first ++ second) messages (Fault fault) }
{}

/// How the list of messages grows, call by call: it is empty for no bytes, a first message is one
/// message, more bytes change neither the messages nor a fault, and the messages of the rest follow
/// those before.
pub fn messages_so_far()
    ensures none { (bytes : List ℕ) → Gives bytes [] bytes }
    ensures one { (bytes rest : List ℕ) (message : List NameAndValue) →
        FirstMessage bytes message rest → Gives bytes (message ∷ []) rest }
    ensures more { (bytes piece rest : List ℕ) (messages : List (List NameAndValue)) →
        Gives bytes messages rest → Gives (bytes ++ piece) messages (rest ++ piece) }
    ensures later { (bytes held rest : List ℕ) (messages later : List (List NameAndValue)) →
        Gives bytes messages held → Gives held later rest → Gives bytes (messages ++ later) rest }
    ensures fault { (bytes piece : List ℕ) (fault : FeedFault) →
        HasFault fault bytes → HasFault fault (bytes ++ piece) }
{}
