//! Numbers in a text, as decimal digits.
ghost use Rattle.std.specs.Prelude.{◌≡◌, ◌<◌, ◌≤◌, ◌^◌, length, true};
ghost use Rattle.std.specs.Option.{SomeIff};
ghost use Rattle.std.specs.List.{list_all};
ghost use Rattle.std.specs.Char.{is_ascii_digit};
ghost use Rattle.ami_text.specs.Numbers.{number_in, number_of};

// Whether all bytes are decimal digits.
fn are_digits(digits: &[u8]) -> bool
    ensures { result ≡ list_all is_ascii_digit digits.now }
{
    digits.iter().all(|b| b.is_ascii_digit())
}

// The number that the digits of a text stand for; `None` exactly where it isn't below 2^64.
fn parsed(text: &str) -> Option<u64>
    requires digits { list_all is_ascii_digit text.now ≡ true }
    requires some { 0 < length text.now }
    ensures { SomeIff result (number_of text.now < 2 ^ 64) (number_of text.now) }
{
    text.parse::<u64>().ok()
}

// The number that decimal digits stand for; `None` exactly where it isn't below 2^64.
fn number_of(digits: &[u8]) -> Option<u64>
    requires digits { list_all is_ascii_digit digits.now ≡ true }
    requires some { 0 < length digits.now }
    ensures { SomeIff result (number_of digits.now < 2 ^ 64) (number_of digits.now) }
{
    match str::from_utf8(digits) {
        Ok(text) => parsed(text),
        Err(_) => None,
    }
}

/// The number that 1 to `most` decimal digits spell, including leading zeros; `None` if the word has
/// other bytes or another length. `most` is at most 19.
pub fn number_in(most: usize, word: &[u8]) -> Option<u64>
    requires { most ≤ 19 }
    ensures { result ≡ number_in most word.now }
{
    if word.is_empty() || word.len() > most || !are_digits(word) {
        return None;
    }
    number_of(word)
}
