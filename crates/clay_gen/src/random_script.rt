//! A whole script drawn from a number: four clients, a repairer and a schedule.
ghost use Rattle.std.specs.Prelude.{◌≡◌, ◌/◌, ◌*◌, ◌<◌, ◌≤◌, ◌∷◌, [], None, OnOk, IfOk};
ghost use Rattle.store_map.specs.Naming.{IsValid};
ghost use Rattle.clay_grid.specs.Shape.{shape_of};
ghost use Rattle.clay_gen.specs.Sequence.{drawn, behind_all};
ghost use Rattle.clay_gen.specs.Calls.{call_from, behind_call, rebuild_from, behind_rebuild};
ghost use Rattle.clay_gen.specs.Script.{client_from, behind_client, generated};

use crate::random_calls::{draw_call, draw_rebuild};
use crate::schedule::draw_schedule;
use crate::sequence::Sequence;
use clay_grid::Geometry;
use std::alloc::{AllocError, Global};
use store_map::{ClientPart, ListOf, RepairPart, Script};

/// The most calls that a generated client makes.
pub const MAX_GENERATED: u32 = 4096;

fn geometry() -> Geometry
    ensures { result ≡ shape_of 4 2 16 }
{
    match Geometry::new(4, 2, 16) {
        Ok(geometry) => geometry,
        Err(_) => unreachable!(),
    }
}

fn draw_client(sequence: &mut Sequence, alloc: Global, count: u32) -> Result<ClientPart, AllocError>
    ensures part { IfOk result (λ part. part ≡ client_from count sequence.old) }
    ensures state { OnOk result (sequence.new ≡ behind_client count sequence.old) }
{
    let mut calls = ListOf::new(alloc);
    for _made in 0..count {
        let call = draw_call(sequence, alloc)?;
        calls.push(call)?;
    }
    Ok(ClientPart { calls, leave: None })
}

fn draw_clients(
    sequence: &mut Sequence,
    alloc: Global,
    count: u32,
) -> Result<ListOf<ClientPart>, AllocError>
    ensures parts { IfOk result (λ parts. parts ≡ drawn (client_from count) (behind_client count) 4 sequence.old) }
    ensures state { OnOk result (sequence.new ≡ behind_all (behind_client count) 4 sequence.old) }
{
    let mut clients = ListOf::new(alloc);
    for _made in 0..4u32 {
        let client = draw_client(sequence, alloc, count)?;
        clients.push(client)?;
    }
    Ok(clients)
}

fn draw_repairers(
    sequence: &mut Sequence,
    alloc: Global,
    count: u32,
) -> Result<ListOf<RepairPart>, AllocError>
    ensures parts { IfOk result (λ parts. parts ≡ record { calls = drawn rebuild_from behind_rebuild count sequence.old; leave = None } ∷ []) }
    ensures state { OnOk result (sequence.new ≡ behind_all behind_rebuild count sequence.old) }
{
    let mut calls = ListOf::new(alloc);
    for _made in 0..count {
        let rebuild = draw_rebuild(sequence, alloc)?;
        calls.push(rebuild)?;
    }
    let mut repairers = ListOf::new(alloc);
    repairers.push(RepairPart { calls, leave: None })?;
    Ok(repairers)
}

fn draw_script(alloc: Global, start: u64, size: u32) -> Result<Script, AllocError>
    requires { size ≤ 4096 }
    ensures { IfOk result (λ script. script ≡ generated start size) }
{
    let mut sequence = Sequence::new(start);
    let clients = draw_clients(&mut sequence, alloc, size)?;
    let repairers = draw_repairers(&mut sequence, alloc, size / 4)?;
    let schedule = draw_schedule(&mut sequence, alloc, 8 * size)?;
    Ok(Script {
        form: 1,
        geometry: geometry(),
        size: Some(4096),
        tries: None,
        clients,
        repairers,
        schedule,
    })
}

/// The script that a number gives: four clients of `size` calls each, and a quarter as many
/// rebuilds. An error is want of memory.
pub fn generate(alloc: Global, start: u64, size: u32) -> Result<Script, AllocError>
    requires { size ≤ MAX_GENERATED }
    ensures script { IfOk result (λ script. script ≡ generated start size) }
    ensures valid { IfOk result IsValid }
{
    draw_script(alloc, start, size)
}
