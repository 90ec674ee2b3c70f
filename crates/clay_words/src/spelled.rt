//! The form of a command's words: its name, and as many numbers as it has.
ghost use Rattle.std.specs.Prelude.{◌↔◌, All, map, string_bytes, IsTrue};
ghost use Rattle.line_grammar.specs.Numbers.{IsNumberWord};
ghost use Rattle.clay_words.specs.Spelled.{IsSpelled};

use crate::word_names::name_of;
use line_grammar::is_number;

// Whether each word is a number's.
fn are_numbers(words: &[String]) -> bool
    ensures { IsTrue result ↔ All (λ word. IsNumberWord (string_bytes word)) words.now }
{
    for word in words {
        if !is_number(word.as_bytes()) {
            return false;
        }
    }
    true
}

/// Whether the words are a command's name and as many numbers as it has. So none of them is an
/// option or a call for help.
pub(crate) fn is_spelled(words: &[String]) -> bool
    ensures { IsTrue result ↔ IsSpelled (map string_bytes words.now) }
{
    match words {
        [word, numbers @ ..] => match name_of(word.as_str()) {
            Some(name) => numbers.len() == name.ids().len() && are_numbers(numbers),
            None => false,
        },
        [] => false,
    }
}
