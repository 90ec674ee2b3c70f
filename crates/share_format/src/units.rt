//! The units to which the parts of a share file are filled up.
ghost use Rattle.std.specs.Prelude.{◌≡◌, ◌+◌, ◌^◌, ◌≤◌, ◌<◌};
ghost use Rattle.share_format.specs.Blocks.{page_of, rounded};

use clay_aloof::AloofGeometry;

const PAGE: u32 = 4096;

/// The bytes of a page where a subchunk is whole pages, and else 1.
pub fn page(g: AloofGeometry) -> u64
    ensures value { result ≡ page_of g }
    ensures some { 1 ≤ result }
    ensures bounded { result ≤ 4096 }
{
    if g.w() % PAGE == 0 {
        u64::from(PAGE)
    } else {
        1
    }
}

/// A length rounded up to whole units.
pub fn rounded_up(unit: u64, size: u64) -> u64
    requires some { 1 ≤ unit }
    requires bounded { size + unit < 2 ^ 64 }
    ensures value { result ≡ rounded unit size }
    ensures least { size ≤ result }
    ensures most { result < size + unit }
{
    (size + unit - 1) / unit * unit
}
