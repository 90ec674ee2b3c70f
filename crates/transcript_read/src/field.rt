//! Fields of lines, whose values have one spelling each, and how a text is cut at them.
ghost use Rattle.std.specs.Prelude.{◌≡◌, ◌≢◌, ◌∷◌, ◌++◌, ℕ, List, IfOk, IfErr, IfSome, IfNone};
ghost use Rattle.line_grammar.specs.Lines.{Lacks};
ghost use Rattle.transcript_read.specs.Reads.{Reads, Refuses};

use line_grammar::split_at_first;
use std::alloc::{AllocError, Global};

/// Why no value was read from a text.
#[derive(Clone, Copy, PartialEq, Eq, Debug)]
pub enum Unread {
    /// No value is spelled so.
    Syntax,
    /// Memory was wanting. This says nothing of the text.
    OutOfMemory,
}

/// A part of a line, with the one text that spells each value of it.
pub trait Field: Sized {
    /// The values of the type.
    ghost IsValue: { Self → Type 0 };

    /// How a value is spelled.
    ghost spelling: { Self → List ℕ };

    /// The value that the text spells.
    fn read(alloc: Global, text: &[u8]) -> Result<Self, Unread>
        ensures { Reads IsValue spelling text.now result };
}

/// The value that the text spells before the first of these bytes, and the text behind that byte.
pub fn first_field<F: Field + Drop>(
    alloc: Global,
    separator: u8,
    text: &[u8],
) -> Result<(F, &[u8]), Unread>
    requires { (value : F) → F.IsValue value → Lacks separator (F.spelling value) }
    ensures value { IfOk result (λ parts. F.IsValue parts.0) }
    ensures found { IfOk result (λ parts. text.now ≡ F.spelling parts.0 ++ separator ∷ parts.1.now) }
    ensures refused { IfErr result (λ why. Refuses why
        ((value : F) (rest : List ℕ) → F.IsValue value → text.now ≢ F.spelling value ++ separator ∷ rest)) }
{
    let Some((first, rest)) = split_at_first(separator, text) else {
        return Err(Unread::Syntax);
    };
    let value = F::read(alloc, first)?;
    Ok((value, rest))
}

/// The text behind these first bytes.
pub fn behind<'a>(first: &[u8], text: &'a [u8]) -> Option<&'a [u8]>
    ensures some { IfSome result (λ rest. text.now ≡ first.now ++ rest.now) }
    ensures none { IfNone result ((rest : List ℕ) → text.now ≢ first.now ++ rest) }
{
    text.strip_prefix(first)
}
