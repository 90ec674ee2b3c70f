//! What a course gathers of its pinned stripe.

/// The bytes of a part of the stripe, or what one of its chunks is made of.
#[derive(Clone, Copy, PartialEq, Eq)]
pub enum CourseAim {
    /// From `start` up to `end`.
    Range { start: u32, end: u32 },
    /// The chunk of this server.
    Chunk { target: u32 },
}
