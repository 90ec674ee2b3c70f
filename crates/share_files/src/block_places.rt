//! Where the parts of a share file stand.
ghost use Rattle.std.specs.Prelude.{◌≡◌, ◌+◌, ◌*◌, ◌^◌, ◌≤◌, ◌<◌};
ghost use Rattle.share_format.specs.Blocks.{page_of, rounded, chunk_start, block_length};
ghost use Rattle.share_format.specs.Shares.{block_start};

use clay_aloof::AloofGeometry;
use share_format::{page, rounded_up};

/// The bytes that a share's header and the zeros behind it take.
pub fn header_room(geometry: AloofGeometry) -> u64
    ensures value { result ≡ rounded (page_of geometry) 64 }
    ensures least { 64 ≤ result }
    ensures bounded { result < 64 + 4096 }
{
    rounded_up(page(geometry), 64)
}

/// Where a block's chunk begins in it.
pub fn chunk_place(geometry: AloofGeometry) -> u64
    ensures value { result ≡ chunk_start geometry }
    ensures some { 8 ≤ result }
    ensures bounded { result < 8 * 1024 + 4096 }
{
    rounded_up(page(geometry), 8 * u64::from(geometry.grid().alpha()))
}

/// The bytes of a block.
pub fn block_len(geometry: AloofGeometry) -> u64
    ensures value { result ≡ block_length geometry }
    ensures some { 0 < result }
    ensures bounded { result < 2 ^ 21 }
{
    chunk_place(geometry) + u64::from(geometry.chunk_len())
}

/// Where a stripe's block begins.
pub fn block_place(geometry: AloofGeometry, stripe: u64) -> u64
    requires { block_start geometry stripe < 2 ^ 64 }
    ensures { result ≡ block_start geometry stripe }
{
    header_room(geometry) + stripe * block_len(geometry)
}
