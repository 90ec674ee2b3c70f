//! Calls of clients and of a repairer, drawn from a sequence of numbers.
ghost use Rattle.std.specs.Prelude.{◌≡◌, ◌<◌, ◌+◌, ◌∷◌, [], OnOk, IfOk, IfSome};
ghost use Rattle.clay_gen.specs.Sequence.{state_after};
ghost use Rattle.clay_gen.specs.Calls.{letter_name, data_from, call_by, picks_by, call_from, behind_call, rebuild_from, behind_rebuild};

use crate::sequence::Sequence;
use std::alloc::{AllocError, Global};
use store_map::{Call, Content, Name, NameFault, Rebuild};

// The name of one letter: `a` for 0, up to `f` for 5.
fn letter_name(alloc: Global, letter: u32) -> Result<Name, AllocError>
    requires { letter < 6 }
    ensures { IfOk result (λ name. name ≡ letter_name letter) }
{
    match Name::from_bytes(alloc, &[b'a' + letter as u8]) {
        Ok(name) => Ok(name),
        Err(NameFault::OutOfMemory) => Err(AllocError),
        Err(NameFault::Malformed) => unreachable!(),
    }
}

// Data of fewer bytes than the limit.
fn draw_data(sequence: &mut Sequence, limit: u32) -> Content
    requires { 0 < limit }
    ensures data { result ≡ data_from sequence.old limit }
    ensures state { sequence.new ≡ state_after 2 sequence.old }
{
    let first = sequence.pick(256) as u8;
    let length = sequence.pick(limit);
    Content::Ramp { first, length }
}

// The call of a kind, with what it has behind its name.
fn draw_by(sequence: &mut Sequence, kind: u32, name: Name) -> Call
    ensures call { result ≡ call_by kind name sequence.old }
    ensures state { sequence.new ≡ state_after (picks_by kind) sequence.old }
{
    if kind < 2 {
        let content = draw_data(sequence, 2049);
        return Call::Put { name, content };
    }
    if kind < 4 {
        let offset = sequence.pick(2049);
        let content = draw_data(sequence, 513);
        return Call::Write {
            name,
            offset,
            content,
        };
    }
    if kind == 4 {
        return Call::Get { name };
    }
    if kind == 5 {
        let offset = sequence.pick(2049);
        let length = sequence.pick(1025);
        return Call::ReadAt {
            name,
            offset,
            length,
        };
    }
    if kind == 6 {
        Call::Stat { name }
    } else {
        Call::Delete { name }
    }
}

/// A client's call.
pub fn draw_call(sequence: &mut Sequence, alloc: Global) -> Result<Call, AllocError>
    ensures call { IfOk result (λ call. call ≡ call_from sequence.old) }
    ensures state { OnOk result (sequence.new ≡ behind_call sequence.old) }
{
    let kind = sequence.pick(8);
    let letter = sequence.pick(6);
    let name = letter_name(alloc, letter)?;
    Ok(draw_by(sequence, kind, name))
}

/// A repairer's call.
pub fn draw_rebuild(sequence: &mut Sequence, alloc: Global) -> Result<Rebuild, AllocError>
    ensures rebuild { IfOk result (λ rebuild. rebuild ≡ rebuild_from sequence.old) }
    ensures state { OnOk result (sequence.new ≡ behind_rebuild sequence.old) }
{
    let letter = sequence.pick(6);
    let stripe = sequence.pick(5);
    let server = sequence.pick(6);
    let name = letter_name(alloc, letter)?;
    Ok(Rebuild {
        name,
        stripe,
        server,
    })
}
