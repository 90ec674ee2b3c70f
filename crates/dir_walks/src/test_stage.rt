//! Where an actor is in its calls, by what the directory answered.

ghost use Rattle.std.specs.Prelude.{◌≡◌, ◌+◌, true, if◌then◌else◌};
ghost use Rattle.dir_walks.specs.Callers.{is_client};
ghost use Rattle.dir_walks.specs.After.{writes, stage_after_look, stage_after_draw, drawn_by, unused_after_commit};

use store_map::{Actor, Call};
use stripe_dir::{Committed, Drawn, Look};

/// Where an actor is in its calls.
#[derive(Clone, Copy)]
pub enum WalkStage {
    Seated,
    /// A get or a read has begun.
    Reading,
    /// A put or a write has begun, and has drawn nothing.
    Begun,
    /// It has drawn its versions.
    Drawn,
}

/// Whether it is a client.
pub fn is_client(who: Actor) -> bool
    ensures { result ≡ is_client who }
{
    matches!(who, Actor::Client(_))
}

// Whether it is a put or a write.
fn writes(call: &Call) -> bool
    ensures { result ≡ writes call.now }
{
    matches!(call, Call::Put { .. } | Call::Write { .. })
}

/// After a look of a call.
pub fn stage_after_look(answer: &Look<(), ()>, call: &Call) -> WalkStage
    ensures { result ≡ stage_after_look call.now answer.now }
{
    if matches!(answer, Look::Answer { .. }) {
        return WalkStage::Seated;
    }
    if writes(call) {
        WalkStage::Begun
    } else {
        WalkStage::Reading
    }
}

/// After a draw.
pub fn stage_after_draw(answer: &Drawn<(), ()>) -> WalkStage
    ensures { result ≡ stage_after_draw answer.now }
{
    match answer {
        Drawn::Versions { .. } => WalkStage::Drawn,
        Drawn::Reaped { .. } => WalkStage::Seated,
    }
}

/// How many versions were drawn.
pub fn drawn_by(answer: &Drawn<(), ()>) -> usize
    ensures { result ≡ drawn_by answer.now }
{
    match answer {
        Drawn::Versions { stamps, .. } => stamps.len(),
        Drawn::Reaped { .. } => 0,
    }
}

/// The least unused number after a commit: a write that was overtaken may use its own once more.
pub fn unused_after_commit(answer: &Committed<()>, number: u32) -> u64
    ensures { result ≡ unused_after_commit number answer.now }
{
    match answer {
        Committed::Changed { .. } => u64::from(number),
        _ => u64::from(number) + 1,
    }
}
