//! What all calls of a script ask for together, and whether they may.
ghost use Rattle.std.specs.Prelude.{◌≡◌, ◌+◌, ◌*◌, ◌<◌, ◌≤◌, ◌^◌, ◌↔◌, IsTrue};
ghost use Rattle.store_map.specs.Limits.{stripes_met, stripes_touched, bytes_asked};

use store_map::{Call, MAX_READ_BYTES, MAX_STRIPE_BYTES, MAX_STRIPES};

/// What calls ask for together: stripes to be written, and bytes to be read.
#[derive(Clone, Copy)]
pub struct Load {
    pub stripes: u64,
    pub read_bytes: u64,
}

// The stripes of so many bytes that meet the bytes from an offset on.
fn count_stripes(stripe_len: u64, offset: u32, length: u32) -> u64
    requires { 0 < stripe_len }
    ensures value { result ≡ stripes_met stripe_len offset length }
    ensures bound { result ≤ 2 ^ 33 }
{
    if length == 0 {
        return 0;
    }
    let first = u64::from(offset);
    let last = first + u64::from(length) - 1;
    last / stripe_len - first / stripe_len + 1
}

// The stripes that a call writes.
fn stripes_of(stripe_len: u64, call: &Call) -> u64
    requires { 0 < stripe_len }
    ensures value { result ≡ stripes_touched stripe_len call.now }
    ensures bound { result ≤ 2 ^ 33 }
{
    match call {
        Call::Put { content, .. } => count_stripes(stripe_len, 0, content.length()),
        Call::Write {
            offset,
            content,
            ..
        } => count_stripes(stripe_len, *offset, content.length()),
        Call::Get { .. } | Call::ReadAt { .. } | Call::Stat { .. } | Call::Delete { .. } => 0,
    }
}

// The bytes that a call asks for, where an object has at most `size` bytes.
fn bytes_of(size: u32, call: &Call) -> u64
    ensures value { result ≡ bytes_asked size call.now }
    ensures bound { result < 2 ^ 32 }
{
    match call {
        Call::Get { .. } => u64::from(size),
        Call::ReadAt { length, .. } => u64::from(*length),
        Call::Put { .. } | Call::Write { .. } | Call::Stat { .. } | Call::Delete { .. } => 0,
    }
}

impl Load {
    pub const NONE: Load = Load {
        stripes: 0,
        read_bytes: 0,
    };

    /// The load with one call more.
    pub fn with_call(self, stripe_len: u64, size: u32, call: &Call) -> Load
        requires stripe { 0 < stripe_len }
        requires few_stripes { self.stripes ≤ MAX_STRIPES }
        requires few_bytes { self.read_bytes ≤ MAX_READ_BYTES }
        ensures stripes { result.stripes ≡ self.stripes + stripes_touched stripe_len call.now }
        ensures read_bytes { result.read_bytes ≡ self.read_bytes + bytes_asked size call.now }
        ensures bound { result.stripes < 2 ^ 34 }
    {
        Load {
            stripes: self.stripes + stripes_of(stripe_len, call),
            read_bytes: self.read_bytes + bytes_of(size, call),
        }
    }

    /// Whether a script may ask for so much.
    pub fn is_allowed(self, stripe_len: u64) -> bool
        requires { stripe_len < 2 ^ 32 }
        ensures { IsTrue result ↔ ((self.stripes ≤ MAX_STRIPES)
            × (self.stripes * stripe_len ≤ MAX_STRIPE_BYTES) × (self.read_bytes ≤ MAX_READ_BYTES)) }
    {
        self.stripes <= MAX_STRIPES
            && self.stripes * stripe_len <= MAX_STRIPE_BYTES
            && self.read_bytes <= MAX_READ_BYTES
    }
}
