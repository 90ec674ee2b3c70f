//! Frames from a source, one after another.
ghost use Rattle.std.specs.Prelude.{◌≡◌, ◌≤◌, ◌+◌, min, vec_len, IfOk, IsErrOf, OnErr};
ghost use Rattle.clay_bytes.specs.Stream.{Rises};
ghost use Rattle.session_rules.specs.Input.{is_frame_length, most_input};
ghost use Rattle.frame_bytes.specs.Body.{IsBody, IsOfLength};
ghost use Rattle.frame_bytes.specs.Next.{IsNext, IsServed, StopsWithin, StopsAtLength};
ghost use Rattle.frame_bytes.specs.Filling.{GivesFewer, HandsOutFewer};
ghost use Rattle.frame_bytes.specs.Heard.{HandsOutNext, HandsOutBody, HandsOutPart, HandsOutLength};
ghost use Rattle.frame_bytes.specs.declared.frame_fault.FrameFault.TheVariants.{ReadFault, OutOfMemory};

use crate::frame_fault::FrameFault;
use crate::frame_filling::fill;
use byteorder::{BigEndian, ByteOrder};
use clay_bytes::Source;
use session_rules::Ending;
use std::alloc::{AllocError, Global};
use store_map::ByteList;

// The most bytes of an input that are served.
const MOST_INPUT: u64 = 167_772_160;

/// The most bytes of a frame.
pub const MOST_FRAME: u32 = 1_048_700;

/// What stands next in an input.
#[derive(PartialEq, Eq, Debug, Drop)]
pub enum Next {
    /// A whole frame, without its length.
    Frame(ByteList),
    /// The input's end.
    End(Ending),
}

/// How many bytes of an input are served.
pub fn most_input() -> u64
    ensures { result ≡ most_input }
{
    MOST_INPUT
}

// Whether a frame may have so many bytes.
fn is_frame_length(count: u32) -> bool
    ensures { result ≡ is_frame_length count }
{
    1 <= count && count <= MOST_FRAME
}

// The value of the bytes is left open: a proof that computes them would go through each.
fn make_frame(alloc: Global, len: usize) -> Result<Vec<u8>, AllocError>
    ensures { IfOk result (λ frame. vec_len frame ≡ len) }
{
    vec![in alloc; 0u8; len]
}

// A frame of so many bytes, of an input of which `room` more are served.
fn read_body<S: Source>(
    alloc: Global,
    source: &mut S,
    count: u32,
    room: u64,
) -> Result<Next, FrameFault>
    requires { 1 ≤ count }
    ensures heard { IfOk result (λ next. HandsOutBody count room (S.given source.old) (S.left source.old) next (S.given source.new) (S.ended source.new) (S.left source.new)) }
    ensures part { OnErr result (HandsOutFewer (S.given source.old) (S.left source.old) (min count (room + 1)) (S.given source.new) (S.left source.new)) }
    ensures body { IfOk result (λ next. IsBody count room (S.left source.old) next (S.left source.new)) }
    ensures length { IfOk result (IsOfLength count room) }
    ensures fault { OnErr result (GivesFewer (S.left source.old) (min count (room + 1)) (S.left source.new)) }
    ensures memory { IsErrOf result OutOfMemory → source.new ≡ source.old }
    ensures cause { IsErrOf result ReadFault → Rises (S.faults source.old) (S.faults source.new) }
    ensures steady { (IsErrOf result ReadFault → ⊥) → S.faults source.new ≡ S.faults source.old }
    ensures count { S.faults source.old ≤ S.faults source.new }
{
    // A byte past those that are served tells that the input goes on.
    let past = room.saturating_add(1);
    let wanted = u64::from(count).min(past) as usize;
    let mut frame = make_frame(alloc, wanted)?;
    let read = fill(source, &mut frame)?;
    if read as u64 > room {
        return Ok(Next::End(Ending::InputTooLong));
    }
    if read < wanted {
        return Ok(Next::End(Ending::TornFrame));
    }
    Ok(Next::Frame(ByteList::from_vec(frame)))
}

/// What stands next in an input of which `room` more bytes are served.
///
/// No byte past a frame is read. A session begins with `most_input` bytes of room, and a frame takes
/// its own length and four bytes of it. After a fault the bytes that were read are lost; they are no
/// whole frame, and where memory was wanting they are a frame's length.
pub fn read_frame<S: Source>(alloc: Global, source: &mut S, room: u64) -> Result<Next, FrameFault>
    ensures heard { IfOk result (λ next. HandsOutNext room (S.given source.old) (S.left source.old) next (S.given source.new) (S.ended source.new) (S.left source.new)) }
    ensures part { OnErr result (HandsOutPart room (S.given source.old) (S.left source.old) (S.given source.new) (S.left source.new)) }
    ensures at_length { IsErrOf result OutOfMemory → HandsOutLength room (S.given source.old) (S.left source.old) (S.given source.new) (S.left source.new) }
    ensures next { IfOk result (λ next. IsNext room (S.left source.old) next (S.left source.new)) }
    ensures served { IfOk result (IsServed room) }
    ensures fault { OnErr result (StopsWithin room (S.left source.old) (S.left source.new)) }
    ensures memory { IsErrOf result OutOfMemory → StopsAtLength room (S.left source.old) (S.left source.new) }
    ensures cause { IsErrOf result ReadFault → Rises (S.faults source.old) (S.faults source.new) }
    ensures steady { (IsErrOf result ReadFault → ⊥) → S.faults source.new ≡ S.faults source.old }
    ensures count { S.faults source.old ≤ S.faults source.new }
{
    let mut head = [0u8; 4];
    // As many bytes as the length has, or as are served and one past them.
    let wanted = room.min(3) as usize + 1;
    let free = &mut head[..wanted];
    let read = fill(source, free)?;
    if read as u64 > room {
        return Ok(Next::End(Ending::InputTooLong));
    }
    if read == 0 {
        return Ok(Next::End(Ending::Done));
    }
    if read < 4 {
        return Ok(Next::End(Ending::TornFrame));
    }
    let count = BigEndian::read_u32(free);
    if !is_frame_length(count) {
        return Ok(Next::End(Ending::FrameTooLong));
    }
    read_body(alloc, source, count, room - 4)
}
