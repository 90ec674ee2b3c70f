//! What a script may ask for at most.

/// Client blocks.
pub const MAX_CLIENTS: usize = 64;
/// Repairer blocks.
pub const MAX_REPAIRERS: usize = 16;
/// Calls of one actor.
pub const MAX_CALLS: usize = 4096;
/// Bytes of one put's or write's data.
pub const MAX_DATA: u32 = 2_097_152;
/// Stripes that all puts and writes touch together.
pub const MAX_STRIPES: u64 = 262_144;
/// Bytes of those stripes.
pub const MAX_STRIPE_BYTES: u64 = 67_108_864;
/// Bytes that all gets and reads ask for together.
pub const MAX_READ_BYTES: u64 = 67_108_864;
/// Lines of the schedule.
pub const MAX_SCHEDULE: usize = 1_000_000;
/// The greatest length of an object that a script may allow, in bytes.
pub const MAX_SIZE: u32 = 1_048_576;
/// The greatest length of an object where the script has no `size` line.
pub const DEFAULT_SIZE: u32 = 65_536;
/// How often a script may let a write try to commit.
pub const MAX_TRIES: u32 = 8;
/// How often a write tries to commit where the script has no `tries` line.
pub const DEFAULT_TRIES: u32 = 8;
