//! Decimal numbers without a leading zero, read from their words.
ghost use Rattle.std.specs.Prelude.{◌≡◌, ◌≢◌, ◌≤◌, ◌^◌, ◌↔◌, ℕ, IsTrue, IfSome, IfNone, MatchOption};
ghost use Rattle.std.specs.Char.{is_ascii_digit};
ghost use Rattle.std.specs.Fmt.{decimal};
ghost use Rattle.std.specs.List.{AllPass};
ghost use Rattle.line_grammar.specs.Numbers.{number_word, IsNumberWord};
ghost use Rattle.line_grammar.specs.Values.{IsNumber};

// Whether all bytes of a word are decimal digits.
fn are_digits(word: &[u8]) -> bool
    ensures { IsTrue result ↔ AllPass is_ascii_digit word.now }
{
    word.iter().all(|byte| byte.is_ascii_digit())
}

/// Whether a word is a number's digits, of any length, without a leading zero.
pub fn is_number(word: &[u8]) -> bool
    ensures { IsTrue result ↔ IsNumberWord word.now }
{
    if word.is_empty() {
        return false;
    }
    if word[0] == b'0' && word.len() > 1 {
        return false;
    }
    are_digits(word)
}

/// The number that the word is, if it is below 2^32.
pub fn small_number(word: &[u8]) -> Option<u32>
    requires { IsNumberWord word.now }
    ensures { MatchOption result ((n : ℕ) × (2 ^ 32 ≤ n) × (word.now ≡ number_word n))
        (λ n. IsNumber n × (word.now ≡ number_word n)) }
{
    match str::from_utf8(word) {
        Ok(text) => text.parse().ok(),
        Err(_) => None,
    }
}

/// The number below 2^32 that a word spells: decimal digits without a leading zero, or `0`. Other
/// words, and those of greater numbers, have none.
pub fn read_number(word: &[u8]) -> Option<u32>
    ensures found { IfSome result (λ n. word.now ≡ decimal n) }
    ensures range { IfSome result IsNumber }
    ensures none { IfNone result ((n : ℕ) → IsNumber n → word.now ≢ decimal n) }
{
    if is_number(word) {
        small_number(word)
    } else {
        None
    }
}
