//! Where pieces of one length start that stand one behind another in a caller's bytes.
ghost use Rattle.std.specs.Prelude.{◌≡◌, ◌*◌, ◌^◌, ◌<◌, cond, Some, None};

/// Where the piece of `len` bytes at a place starts, or none where it is gone.
pub fn piece_start(gone: bool, place: usize, len: u32) -> Option<usize>
    requires { place < 2 ^ 32 }
    ensures { result ≡ cond gone None (Some (place * len)) }
{
    if gone {
        return None;
    }
    Some(place * len as usize)
}
