//! How a call from C ends, as `include/clay.h` names it.

pub const DONE: u32 = 0;

pub const BAD_GEOMETRY: u32 = 1;

pub const BAD_LENGTH: u32 = 2;

pub const BAD_CHUNK: u32 = 3;

pub const TOO_FEW: u32 = 4;

pub const OUT_OF_MEMORY: u32 = 5;

pub const BAD_HELPERS: u32 = 6;

pub const BAD_LAYER: u32 = 7;
