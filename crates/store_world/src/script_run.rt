//! A whole run.
ghost use Rattle.std.specs.Prelude.{◌≡◌, [], List, Some, IfOk, OnOk};
ghost use Rattle.store_map.specs.Naming.{IsValid};
ghost use Rattle.version_seal.specs.Sealer.{sealer_at};
ghost use Rattle.call_steps.specs.declared.step_made.Step.{Step};
ghost use Rattle.history_laws.specs.Played.{IsPlayed};
ghost use Rattle.world_laws.specs.Goes.{IsReachedBy};
ghost use Rattle.store_world.specs.Stored.{world_of};
ghost use Rattle.store_world.specs.Traced.{IsTracedRun};
ghost use Rattle.store_world.specs.Watched.{Watched, ComesBy};

use crate::watch::{Silent, Watch};
use crate::world::World;
use clay_model::Coder;
use std::alloc::{AllocError, Global};
use std::thread::Threads;
use store_map::{Script, Transcript};
use version_seal::{Book, Sealer};

// The whole schedule, from the first world on.
fn follow<R: Threads + Sync, C: Coder, W: Watch>(
    rt: &R,
    coder: &C,
    script: &Script,
    world: &mut World,
    watch: &mut W,
) -> Result<(), W::Error>
    requires valid { IsValid script.now }
    requires its { world.old.script ≡ script.now }
    requires first { IsReachedBy script.now [] (world_of world.old) }
    ensures told { OnOk result (Watched (W.heard watch.old watch.new) (ComesBy script.now script.now.schedule (world_of world.new))) }
    ensures same { world.new.script ≡ world.old.script }
{
    for token in script.schedule.as_slice() {
        world.step(rt, coder, *token, watch)?;
    }
    Ok(())
}

// The run over the book of the script's versions.
fn run_over<R: Threads + Sync, C: Coder, W: Watch>(
    rt: &R,
    alloc: Global,
    coder: &C,
    script: &Script,
    book: &Book,
    sealer: Sealer,
    watch: &mut W,
) -> Result<Transcript, AllocError>
    requires valid { IsValid script.now }
    requires written { book.now.script ≡ Some script.now }
    requires sealer { sealer ≡ sealer_at book.now 0 }
    requires code { book.now.geometry ≡ script.now.geometry }
    ensures { IfOk result (λ transcript. (steps : List Step) × W.heard watch.old watch.new steps × IsTracedRun script.now steps transcript) }
{
    let mut world = World::new(alloc, script, book, sealer)?;
    let followed = follow(rt, coder, script, &mut world, watch);
    let transcript = world.finish(alloc);
    let Ok(()) = followed else {
        return Err(AllocError);
    };
    transcript
}

/// The transcript of a run of the script: the steps of its schedule one after the other, at a directory
/// and servers of its own, with chunks that the coder makes. The watch is told each step. An error is want
/// of memory before the first step or after the last one, or an error of the watch; a step that wants
/// memory is a step of the run.
pub fn run<R: Threads + Sync, C: Coder, W: Watch>(
    rt: &R,
    alloc: Global,
    coder: &C,
    script: Script,
    watch: &mut W,
) -> Result<Transcript, AllocError>
    requires { IsValid script }
    ensures { IfOk result (λ transcript. (steps : List Step) × W.heard watch.old watch.new steps × IsTracedRun script steps transcript) }
{
    let (book, sealer) = Book::new(alloc, script)?;
    match book.script() {
        Some(script) => run_over(rt, alloc, coder, script, &book, sealer, watch),
        None => unreachable!(),
    }
}

/// The same run without a watch. So an error is want of memory before the first step or after the last one.
pub fn play<R: Threads + Sync, C: Coder>(
    rt: &R,
    alloc: Global,
    coder: &C,
    script: Script,
) -> Result<Transcript, AllocError>
    requires { IsValid script }
    ensures { IfOk result (IsPlayed script) }
{
    run(rt, alloc, coder, script, &mut Silent)
}
