//! The blocks of bytes that are coded together, and room for them.
ghost use Rattle.std.specs.Prelude.{◌≡◌, ◌*◌, length, replicate, IfOk};

use std::alloc::{AllocError, Global};

/// The bytes of a subchunk that are coded together.
pub const BLOCK: usize = 4096;

/// Bytes that are all 0.
pub fn zeros(alloc: Global, count: usize) -> Result<Vec<u8>, AllocError>
    ensures { IfOk result (λ v. v.items ≡ replicate count 0) }
{
    vec![in alloc; 0u8; count]
}

/// Room for the values of a column of four nodes in a block.
pub fn column_room() -> [u8; 4 * BLOCK]
    ensures { length result ≡ 16384 }
{
    [0; 4 * BLOCK]
}
