//! Chunks and stripes as lines of hexadecimal digits.
ghost use Rattle.std.specs.Prelude.{◌≡◌, ◌≢◌, ◌∷◌, [], ◌++◌, ℕ, List, map, length, IfOk, IsErrOf};
ghost use Rattle.hex.specs.Hex.{encode_lower};
ghost use Rattle.line_grammar.specs.StripeLines.{line_of, chunk_lines, Spells, SpellsNothing};
ghost use Rattle.line_grammar.specs.declared.stripe_line.StripeFault.TheVariants.{Hex, Length};

use hex::FromHexError;
use std::alloc::{AllocError, Global};
use thiserror::Error;

/// Why a line isn't a stripe.
#[derive(Debug, Drop, Error)]
pub enum StripeFault {
    #[error("hex")]
    Hex,
    #[error("length")]
    Length,
    #[error("out of memory")]
    OutOfMemory,
}

/// A line without the LF, or the CR and LF, at its end.
pub fn line_of(text: &[u8]) -> &[u8]
    ensures { result.now ≡ line_of text.now }
{
    match text {
        [line @ .., b'\r', b'\n'] => line,
        [line @ .., b'\n'] => line,
        _ => text,
    }
}

/// The bytes that a line of hexadecimal digits spells, where they are `len` many.
pub fn read_stripe(alloc: Global, text: &[u8], len: usize) -> Result<Vec<u8>, StripeFault>
    ensures ok { IfOk result (λ stripe. Spells text.now stripe.items × (length stripe.items ≡ len)) }
    ensures hex { IsErrOf result Hex → SpellsNothing text.now }
    ensures length { IsErrOf result Length → (bytes : List ℕ) × Spells text.now bytes × (length bytes ≢ len) }
{
    match hex::decode(alloc, line_of(text)) {
        Ok(stripe) if stripe.len() == len => Ok(stripe),
        Ok(_) => Err(StripeFault::Length),
        Err(FromHexError::OutOfMemory) => Err(StripeFault::OutOfMemory),
        Err(_) => Err(StripeFault::Hex),
    }
}

// Adds a line of lower-case digits to a text.
fn push_line(lines: &mut Vec<u8>, chunk: &[u8]) -> Result<(), AllocError>
    ensures { IfOk result (λ _. lines.new.items ≡ lines.old.items ++ (encode_lower chunk.now ++ 10 ∷ [])) }
{
    let start = lines.len();
    let Some(end) = start.checked_add(chunk.len()) else {
        return Err(AllocError);
    };
    let Some(end) = end.checked_add(chunk.len()) else {
        return Err(AllocError);
    };
    lines.resize(end, 0)?;
    let _ = hex::encode_to_slice(chunk, &mut lines[start..]);
    lines.push(b'\n')?;
    Ok(())
}

/// The chunks, a line of lower-case digits for each.
pub fn chunk_lines(alloc: Global, chunks: &[Vec<u8>]) -> Result<Vec<u8>, AllocError>
    ensures { IfOk result (λ lines. lines.items ≡ chunk_lines (map (λ chunk. chunk.items) chunks.now)) }
{
    let mut lines = Vec::new(alloc);
    for chunk in chunks {
        push_line(&mut lines, chunk)?;
    }
    Ok(lines)
}
