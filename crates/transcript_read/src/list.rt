//! Lists of fields, each behind a space.
ghost use Rattle.std.specs.Prelude.{◌≡◌, ◌≢◌, ◌∷◌, ◌++◌, ℕ, List, [], All, codes, ◌⊎◌};
ghost use Rattle.std.specs.List.{flat_map};
ghost use Rattle.line_grammar.specs.Lines.{Lacks};
ghost use Rattle.transcript_read.specs.Reads.{Reads, IsWordFront};

use crate::field::{Field, Unread, behind};
use line_grammar::split_at_first;
use std::alloc::Global;
use store_map::ListOf;

/// The text before the first space, and the text from that space on.
pub fn cut_word(text: &[u8]) -> (&[u8], &[u8])
    ensures { IsWordFront text.now result.0.now result.1.now }
{
    match split_at_first(b' ', text) {
        Some((word, _)) => (word, &text[word.len()..]),
        None => (text, &text[text.len()..]),
    }
}

/// The values that the text spells, each behind a space.
pub fn read_list<F: Field + Drop>(alloc: Global, text: &[u8]) -> Result<ListOf<F>, Unread>
    requires { (value : F) → F.IsValue value → Lacks 32 (F.spelling value) }
    ensures { Reads (All F.IsValue) (flat_map (λ value. codes " " ++ F.spelling value)) text.now result }
{
    let mut values = ListOf::new(alloc);
    let mut rest = text;
    while let Some(words) = behind(b" ", rest) {
        let (word, left) = cut_word(words);
        let value = F::read(alloc, word)?;
        let Ok(()) = values.push(value) else {
            return Err(Unread::OutOfMemory);
        };
        rest = left;
    }
    if rest.is_empty() {
        Ok(values)
    } else {
        Err(Unread::Syntax)
    }
}
