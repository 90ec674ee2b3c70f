//! The end of a run: its transcript.
ghost use Rattle.std.specs.Prelude.{◌≡◌, IfOk};
ghost use Rattle.store_core.specs.Shown.{shown};
ghost use Rattle.world_laws.specs.Known.{core_of};
ghost use Rattle.store_world.specs.Ending.{AreCallsOf};
ghost use Rattle.store_world.specs.Stored.{world_of};

use crate::new_world::leave_callers;
use crate::world::World;
use actors::Caller;
use call_steps::CallerCalls;
use std::alloc::{AllocError, Global};
use store_map::Transcript;
use world_lines::make_transcript;

// The callers' calls, in their order.
fn calls_of(alloc: Global, mut callers: Vec<Caller>) -> Result<Vec<CallerCalls>, AllocError>
    ensures { IfOk result (λ calls. AreCallsOf callers.entry.items calls.items) }
{
    let mut calls = match Vec::with_capacity(alloc, callers.len()) {
        Ok(calls) => calls,
        Err(e) => {
            leave_callers(callers);
            return Err(e);
        }
    };
    for _made in 0..callers.len() {
        let caller = callers.remove(0);
        calls.push_reserved(caller.into_calls());
    }
    callers.destroy_empty();
    Ok(calls)
}

// The calls of the clients and of the repairers.
fn calls_of_all(
    alloc: Global,
    clients: Vec<Caller>,
    repairers: Vec<Caller>,
) -> Result<(Vec<CallerCalls>, Vec<CallerCalls>), AllocError>
    ensures clients { IfOk result (λ made. AreCallsOf clients.entry.items made.0.items) }
    ensures repairers { IfOk result (λ made. AreCallsOf repairers.entry.items made.1.items) }
{
    let clients = calls_of(alloc, clients);
    let repairers = calls_of(alloc, repairers);
    Ok((clients?, repairers?))
}

impl<'a> World<'a> {
    /// The transcript of the run that is over. Calls in work are let go: where they made a step they stand in it
    /// without a reply.
    pub fn finish(self, alloc: Global) -> Result<Transcript, AllocError>
        ensures { IfOk result (λ transcript. transcript ≡ shown self.entry.script (core_of self.entry.script (world_of self.entry))) }
    {
        let World {
            script: _,
            book: _,
            directory,
            servers,
            clients,
            repairers,
            sweeper: _sweeper,
        } = self;
        let Ok((clients, repairers)) = calls_of_all(alloc, clients, repairers) else {
            drop(directory);
            drop(servers);
            return Err(AllocError);
        };
        let transcript = make_transcript(
            alloc,
            &directory,
            servers.as_slice(),
            clients,
            repairers.as_slice(),
        );
        drop(directory);
        drop(servers);
        transcript
    }
}
