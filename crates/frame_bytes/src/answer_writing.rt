//! Answers to a sink, as frames.
ghost use Rattle.std.specs.Prelude.{◌≡◌, ◌≤◌, ◌<◌, ◌^◌, ◌∷◌, length, take, flat_map, OnOk, OnErr};
ghost use Rattle.byteorder.specs.Endian.{big_bytes};
ghost use Rattle.clay_bytes.specs.Stream.{Rises, Gains, IsPrefixWritten, Accepts, AcceptsPrefix};
ghost use Rattle.session_rules.specs.Input.{framed};
ghost use Rattle.session_rules.specs.Replies.{most_listed, missing_bytes, lost_bytes, reply_bytes, answer_bytes};
ghost use Rattle.session_rules.specs.declared.session_answer.Answer.TheVariants.{Unavailable, Scrubbed, Healed};
ghost use Rattle.frame_bytes.specs.Writing.{Puts, IsWritable};

use crate::frame_block::{put, put_byte, put_u32, put_u64};
use crate::lengths::{answer_length, listed};
use clay_bytes::{Sink, WriteFault, write_all};
use session_rules::{Answer, LostChunk, Missing};
use store_map::Reply;

// A kind and a number in eight bytes.
fn put_number<K: Sink>(
    sink: &mut K,
    block: &mut Vec<u8>,
    kind: u8,
    number: u64,
) -> Result<(), WriteFault>
    ensures { Puts K.accepted K.written K.faults sink.old sink.new block.old.items block.new.items (kind ∷ big_bytes 8 number) result }
{
    put_byte(sink, block, kind)?;
    put_u64(sink, block, number)
}

fn put_missing<K: Sink>(
    sink: &mut K,
    block: &mut Vec<u8>,
    missing: &Missing,
) -> Result<(), WriteFault>
    ensures { Puts K.accepted K.written K.faults sink.old sink.new block.old.items block.new.items (missing_bytes missing.now) result }
{
    put_u32(sink, block, missing.server as u64)?;
    put_u64(sink, block, missing.placed)?;
    put_u64(sink, block, missing.found)
}

fn put_each_missing<K: Sink>(
    sink: &mut K,
    block: &mut Vec<u8>,
    missing: &[Missing],
) -> Result<(), WriteFault>
    ensures { Puts K.accepted K.written K.faults sink.old sink.new block.old.items block.new.items (flat_map missing_bytes missing.now) result }
{
    for server in missing {
        put_missing(sink, block, server)?;
    }
    Ok(())
}

fn put_unavailable<K: Sink>(
    sink: &mut K,
    block: &mut Vec<u8>,
    stripe: u32,
    missing: &[Missing],
) -> Result<(), WriteFault>
    requires { length missing.now < 2 ^ 8 }
    ensures { Puts K.accepted K.written K.faults sink.old sink.new block.old.items block.new.items (answer_bytes (Unavailable stripe missing.now)) result }
{
    put_byte(sink, block, 6)?;
    put_u32(sink, block, stripe as u64)?;
    put_byte(sink, block, missing.len() as u8)?;
    put_each_missing(sink, block, missing)
}

fn put_lost<K: Sink>(sink: &mut K, block: &mut Vec<u8>, chunk: &LostChunk) -> Result<(), WriteFault>
    ensures { Puts K.accepted K.written K.faults sink.old sink.new block.old.items block.new.items (lost_bytes chunk.now) result }
{
    let name = chunk.name.as_bytes();
    put_byte(sink, block, name.len() as u8)?;
    put(sink, block, name)?;
    put_u32(sink, block, chunk.stripe as u64)?;
    put_u32(sink, block, chunk.server as u64)
}

fn put_each_lost<K: Sink>(
    sink: &mut K,
    block: &mut Vec<u8>,
    lost: &[LostChunk],
) -> Result<(), WriteFault>
    ensures { Puts K.accepted K.written K.faults sink.old sink.new block.old.items block.new.items (flat_map lost_bytes lost.now) result }
{
    for chunk in lost {
        put_lost(sink, block, chunk)?;
    }
    Ok(())
}

fn put_scrubbed<K: Sink>(
    sink: &mut K,
    block: &mut Vec<u8>,
    lost: &[LostChunk],
) -> Result<(), WriteFault>
    ensures { Puts K.accepted K.written K.faults sink.old sink.new block.old.items block.new.items (answer_bytes (Scrubbed lost.now)) result }
{
    put_byte(sink, block, 15)?;
    put_u32(sink, block, lost.len() as u64)?;
    put_each_lost(sink, block, listed(lost))
}

fn put_each_taken<K: Sink>(
    sink: &mut K,
    block: &mut Vec<u8>,
    taken: &[u64],
) -> Result<(), WriteFault>
    ensures { Puts K.accepted K.written K.faults sink.old sink.new block.old.items block.new.items (flat_map (big_bytes 8) taken.now) result }
{
    for count in taken {
        put_u64(sink, block, *count)?;
    }
    Ok(())
}

fn put_healed<K: Sink>(
    sink: &mut K,
    block: &mut Vec<u8>,
    rebuilt: u64,
    taken: &[u64],
) -> Result<(), WriteFault>
    ensures { Puts K.accepted K.written K.faults sink.old sink.new block.old.items block.new.items (answer_bytes (Healed rebuilt taken.now)) result }
{
    put_number(sink, block, 16, rebuilt)?;
    put_each_taken(sink, block, taken)
}

fn put_bytes<K: Sink>(sink: &mut K, block: &mut Vec<u8>, bytes: &[u8]) -> Result<(), WriteFault>
    ensures { Puts K.accepted K.written K.faults sink.old sink.new block.old.items block.new.items (1 ∷ bytes.now) result }
{
    put_byte(sink, block, 1)?;
    put(sink, block, bytes)
}

fn put_reply<K: Sink>(sink: &mut K, block: &mut Vec<u8>, reply: &Reply) -> Result<(), WriteFault>
    ensures { Puts K.accepted K.written K.faults sink.old sink.new block.old.items block.new.items (reply_bytes reply.now) result }
{
    match reply {
        Reply::Done => put_byte(sink, block, 0),
        Reply::Bytes(bytes) => put_bytes(sink, block, bytes.as_slice()),
        Reply::Length(bytes) => put_number(sink, block, 2, *bytes),
        Reply::NoSuch => put_byte(sink, block, 3),
        Reply::OutRange => put_byte(sink, block, 4),
        Reply::TooLarge => put_byte(sink, block, 5),
    }
}

fn put_answer<K: Sink>(sink: &mut K, block: &mut Vec<u8>, answer: &Answer) -> Result<(), WriteFault>
    requires { IsWritable answer.now }
    ensures { Puts K.accepted K.written K.faults sink.old sink.new block.old.items block.new.items (answer_bytes answer.now) result }
{
    match answer {
        Answer::Replied(reply) => put_reply(sink, block, reply),
        Answer::Unavailable { stripe, missing } => {
            put_unavailable(sink, block, *stripe, missing.as_slice())
        }
        Answer::BadRequest => put_byte(sink, block, 8),
        Answer::NoMemory => put_byte(sink, block, 9),
        Answer::Rebuilt => put_byte(sink, block, 10),
        Answer::Here => put_byte(sink, block, 11),
        Answer::NoSnap => put_byte(sink, block, 12),
        Answer::SnapOpen => put_byte(sink, block, 13),
        Answer::TooMany(objects) => put_number(sink, block, 14, *objects),
        Answer::Scrubbed(lost) => put_scrubbed(sink, block, lost.as_slice()),
        Answer::Healed { rebuilt, taken } => { put_healed(sink, block, *rebuilt, taken.as_slice()) }
    }
}

/// Writes an answer as a frame. After a fault a prefix of it is written.
///
/// Small pieces wait in the block, as many as it has room for; what it held before is dropped. No memory is taken: what an
/// answer names is its own, and the block is made once, before the first request. So nothing but the sink can fail once a
/// request has had its effect, and no request needs to know how long its answer will be.
pub fn write_answer<K: Sink>(
    sink: &mut K,
    block: &mut Vec<u8>,
    answer: &Answer,
) -> Result<(), WriteFault>
    requires { IsWritable answer.now }
    ensures accepted { OnOk result (Accepts (K.accepted sink.old) (K.written sink.old) (framed (answer_bytes answer.now)) (K.accepted sink.new) (K.written sink.new)) }
    ensures part { OnErr result (AcceptsPrefix (K.accepted sink.old) (K.written sink.old) (framed (answer_bytes answer.now)) (K.accepted sink.new) (K.written sink.new)) }
    ensures whole { OnOk result (Gains (K.written sink.old) (framed (answer_bytes answer.now)) (K.written sink.new)) }
    ensures prefix { OnErr result (IsPrefixWritten (K.written sink.old) (framed (answer_bytes answer.now)) (K.written sink.new)) }
    ensures cause { OnErr result (Rises (K.faults sink.old) (K.faults sink.new)) }
    ensures steady { OnOk result (K.faults sink.new ≡ K.faults sink.old) }
    ensures count { K.faults sink.old ≤ K.faults sink.new }
{
    block.clear();
    put_u32(sink, block, answer_length(answer) as u64)?;
    put_answer(sink, block, answer)?;
    write_all(sink, block)
}
