//! Bytes in hex digits, two for each.
ghost use Rattle.std.specs.Prelude.{◌≡◌, ◌++◌, OnOk};
ghost use Rattle.hex.specs.Hex.{encode_lower};

use std::alloc::AllocError;

// The digits of so many bytes are written at a time: their room is cleared just before, and is still in the nearest cache.
const PIECE: usize = 2048;

fn append_piece(out: &mut Vec<u8>, piece: &[u8]) -> Result<(), AllocError>
    ensures { OnOk result (out.new.items ≡ out.old.items ++ encode_lower piece.now) }
{
    let start = out.len();
    let Some(half) = start.checked_add(piece.len()) else {
        return Err(AllocError);
    };
    let Some(end) = half.checked_add(piece.len()) else {
        return Err(AllocError);
    };
    out.resize(end, 0)?;
    // The slice is just as long as the digits, so this can't fail.
    let _ = hex::encode_to_slice(piece, &mut out[start..]);
    Ok(())
}

/// Appends the bytes' digits, in lower case. Room for all of them is taken once.
#[tactic(auto, using(crate::proofs::Pieces::piece_next))]
pub(crate) fn append_digits(out: &mut Vec<u8>, bytes: &[u8]) -> Result<(), AllocError>
    ensures { OnOk result (out.new.items ≡ out.old.items ++ encode_lower bytes.now) }
{
    out.reserve(bytes.len().saturating_mul(2))?;
    for piece in bytes.chunks(PIECE) {
        append_piece(out, piece)?;
    }
    Ok(())
}
