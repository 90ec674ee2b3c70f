//! How many bytes answers have as frames.
ghost use Rattle.std.specs.Prelude.{◌≡◌, ◌≤◌, length, take, flat_map};
ghost use Rattle.session_rules.specs.Replies.{most_listed, lost_bytes, reply_bytes, answer_bytes};
ghost use Rattle.frame_bytes.specs.Writing.{IsWritable, IsWritableReply};

use session_rules::{Answer, LostChunk};
use store_map::Reply;

/// How many lost chunks are listed at most. Their number is told in full.
pub const MOST_LISTED: usize = 14_000;

/// The lost chunks that are listed.
pub(crate) fn listed(lost: &[LostChunk]) -> &[LostChunk]
    ensures listed { result.now ≡ take most_listed lost.now }
    ensures few { length result.now ≤ 14000 }
{
    let count = lost.len().min(MOST_LISTED);
    &lost[..count]
}

fn chunk_length(chunk: &LostChunk) -> u32
    ensures exact { result ≡ length (lost_bytes chunk.now) }
    ensures bound { result ≤ 73 }
{
    chunk.name.as_bytes().len() as u32 + 9
}

#[tactic(auto, using(crate::proofs::LengthLemmas::lost_more))]
fn lost_length(lost: &[LostChunk]) -> u32
    requires { length lost.now ≤ 14000 }
    ensures exact { result ≡ length (flat_map lost_bytes lost.now) }
    ensures bound { result ≤ 1022000 }
{
    let mut total = 0;
    for chunk in lost {
        total += chunk_length(chunk);
    }
    total
}

fn reply_length(reply: &Reply) -> u32
    requires { IsWritableReply reply.now }
    ensures { result ≡ length (reply_bytes reply.now) }
{
    match reply {
        Reply::Bytes(bytes) => bytes.len() as u32 + 1,
        Reply::Length(_) => 9,
        Reply::Done | Reply::NoSuch | Reply::OutRange | Reply::TooLarge => 1,
    }
}

/// How many bytes an answer has, without its frame's length.
pub(crate) fn answer_length(answer: &Answer) -> u32
    requires { IsWritable answer.now }
    ensures { result ≡ length (answer_bytes answer.now) }
{
    match answer {
        Answer::Replied(reply) => reply_length(reply),
        Answer::Unavailable { missing, .. } => missing.len() as u32 * 20 + 6,
        Answer::TooMany(_) => 9,
        Answer::Scrubbed(lost) => lost_length(listed(lost.as_slice())) + 5,
        Answer::Healed { taken, .. } => taken.len() as u32 * 8 + 9,
        Answer::BadRequest
        | Answer::NoMemory
        | Answer::Rebuilt
        | Answer::Here
        | Answer::NoSnap
        | Answer::SnapOpen => 1,
    }
}
