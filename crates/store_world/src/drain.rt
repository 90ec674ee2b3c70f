//! Rounds of all actors, until nobody has a step.
ghost use Rattle.std.specs.Prelude.{◌≡◌, ◌∷◌, [], OnOk};
ghost use Rattle.store_map.specs.declared.script.Script.{Script};
ghost use Rattle.store_map.specs.declared.actor.Token.{Token};
ghost use Rattle.store_core.specs.Schedule.{is_unfinished};
ghost use Rattle.world_laws.specs.Known.{core_of};
ghost use Rattle.world_laws.specs.Telling.{LeadsTelling};
ghost use Rattle.world_laws.specs.RoundTells.{client_tokens, repairer_tokens, RoundTells};
ghost use Rattle.world_laws.specs.Traced.{GoesTelling};
ghost use Rattle.store_world.specs.Having.{some_caller_has, AreOfCode};
ghost use Rattle.store_world.specs.Stored.{world_of};
ghost use Rattle.store_world.specs.Watched.{Watched};

use crate::watch::{Watch, turn_made};
use crate::world::World;
use actors::Caller;
use clay_model::Coder;
use std::thread::Threads;

// Whether one of the callers has a step.
fn some_has_step(callers: &[Caller]) -> bool
    ensures { (script : Script) → AreOfCode script callers.now → result ≡ some_caller_has script callers.now }
{
    for caller in callers {
        if caller.has_step() {
            return true;
        }
    }
    false
}

impl<'a> World<'a> {
    // The turns of the first so many clients.
    fn client_turns<R: Threads + Sync, C: Coder, W: Watch>(
        &mut self,
        rt: &R,
        coder: &C,
        count: u32,
        watch: &mut W,
    ) -> Result<(), W::Error>
        ensures told { OnOk result (Watched (W.heard watch.old watch.new) (LeadsTelling self.old.script (client_tokens count) (world_of self.old) (world_of self.new))) }
        ensures same { self.new.script ≡ self.old.script }
        ensures same_book { self.new.book ≡ self.old.book }
    {
        for i in 0..count {
            turn_made(watch, self.client_turn(rt, coder, i))?;
        }
        Ok(())
    }

    // The turns of the first so many repairers.
    fn repairer_turns<R: Threads + Sync, C: Coder, W: Watch>(
        &mut self,
        rt: &R,
        coder: &C,
        count: u32,
        watch: &mut W,
    ) -> Result<(), W::Error>
        ensures told { OnOk result (Watched (W.heard watch.old watch.new) (LeadsTelling self.old.script (repairer_tokens count) (world_of self.old) (world_of self.new))) }
        ensures same { self.new.script ≡ self.old.script }
        ensures same_book { self.new.book ≡ self.old.book }
    {
        for i in 0..count {
            turn_made(watch, self.repairer_turn(rt, coder, i))?;
        }
        Ok(())
    }

    // A turn of each client, of each repairer, and of the sweeper where it has one.
    fn round<R: Threads + Sync, C: Coder, W: Watch>(
        &mut self,
        rt: &R,
        coder: &C,
        watch: &mut W,
    ) -> Result<(), W::Error>
        ensures told { OnOk result (Watched (W.heard watch.old watch.new) (RoundTells self.old.script (world_of self.old) (world_of self.new))) }
        ensures same { self.new.script ≡ self.old.script }
        ensures same_book { self.new.book ≡ self.old.book }
    {
        let clients = self.script.clients.len() as u32;
        let repairers = self.script.repairers.len() as u32;
        self.client_turns(rt, coder, clients, watch)?;
        self.repairer_turns(rt, coder, repairers, watch)?;
        if self.sweeper_has_step() {
            watch.made(self.sweeper_turn())
        } else {
            Ok(())
        }
    }

    /// Whether somebody has a step: a client, a repairer or the sweeper.
    pub fn is_unfinished(&self) -> bool
        ensures { result ≡ is_unfinished self.now.script (core_of self.now.script (world_of self.now)) }
    {
        // The sweeper first: it mostly has a step, and goes on after the callers have ended, when a search
        // for one goes over all of them.
        if self.sweeper_has_step() {
            return true;
        }
        if some_has_step(&self.clients) {
            return true;
        }
        some_has_step(&self.repairers)
    }

    /// All take turns until nobody has a step. The watch is told each step.
    pub fn drain<R: Threads + Sync, C: Coder, W: Watch>(
        &mut self,
        rt: &R,
        coder: &C,
        watch: &mut W,
    ) -> Result<(), W::Error>
        ensures told { OnOk result (Watched (W.heard watch.old watch.new) (GoesTelling self.old.script (Token.Drain ∷ []) (world_of self.old) (world_of self.new))) }
        ensures same { self.new.script ≡ self.old.script }
        ensures same_book { self.new.book ≡ self.old.book }
    {
        // The proof reads the script here: that it is valid bounds the rounds.
        let _script = self.script;
        for _made in 0..u64::MAX {
            if !self.is_unfinished() {
                return Ok(());
            }
            self.round(rt, coder, watch)?;
        }
        Ok(())
    }
}
