//! The turns of the callers.
ghost use Rattle.std.specs.Prelude.{◌≡◌, ◌<◌, true, length, slice_get, Some};
ghost use Rattle.store_map.specs.declared.actor.Token.{Token};
ghost use Rattle.store_map.specs.declared.script.Script.{Script};
ghost use Rattle.store_core.specs.Run.{client_step, repairer_step};
ghost use Rattle.call_machine.specs.Calls.{ArePadded};
ghost use Rattle.actors.specs.Callers.{CallerOf};
ghost use Rattle.store_world.specs.Having.{caller_has};
ghost use Rattle.store_world.specs.InList.{ReadyAt, TurnedIn};
ghost use Rattle.store_world.specs.Stored.{LeadsBy};
ghost use Rattle.store_world.specs.Telling.{LeadsTold, steps_in};

use crate::world::World;
use actors::Caller;
use call_steps::Step;
use chunk_server::Server;
use clay_model::Coder;
use std::thread::Threads;
use stripe_dir::Directory;
use version_seal::Book;

// Whether there is such a caller and it has a step.
fn has_step(callers: &[Caller], i: u32) -> bool
    ensures there { result ≡ true → i < length callers.now }
    ensures has { (script : Script) (caller : CallerOf) → slice_get callers.now i ≡ Some caller → caller.book.geometry ≡ script.geometry
        → result ≡ caller_has script caller }
{
    match callers.get(i as usize) {
        Some(caller) => caller.has_step(),
        None => false,
    }
}

// The turn of the caller at this place of its list, if it is there and has a step.
fn turn_in<'a, R: Threads + Sync, C: Coder>(
    rt: &R,
    coder: &C,
    callers: &mut Vec<Caller<'a>>,
    i: u32,
    directory: &mut Directory,
    book: &Book,
    servers: &mut Vec<Server>,
) -> Option<Step>
    requires ready { (c : CallerOf) → slice_get callers.old.items i ≡ Some c → ReadyAt directory.old book.now servers.old.items i c }
    requires padded { ArePadded directory.old }
    ensures { TurnedIn i callers.old.items directory.old servers.old.items result callers.new.items directory.new servers.new.items }
{
    if !has_step(callers, i) {
        return None;
    }
    let step = callers[i as usize].turn(rt, coder, i, directory, book, servers);
    Some(step)
}

impl<'a> World<'a> {
    /// The turn of client i, and the step that it made. Where there is no such client or it has no step,
    /// nothing is done.
    pub fn client_turn<R: Threads + Sync, C: Coder>(
        &mut self,
        rt: &R,
        coder: &C,
        i: u32,
    ) -> Option<Step>
        ensures leads { LeadsBy (client_step self.old.script i) self.old self.new }
        ensures told { LeadsTold (Token.Client i) self.old self.new (steps_in result) }
        ensures same { self.new.script ≡ self.old.script }
        ensures same_book { self.new.book ≡ self.old.book }
    {
        self.directory.keeps();
        turn_in(
            rt,
            coder,
            &mut self.clients,
            i,
            &mut self.directory,
            self.book,
            &mut self.servers,
        )
    }

    /// The turn of repairer i, and the step that it made. Where there is no such repairer or it has no
    /// step, nothing is done.
    pub fn repairer_turn<R: Threads + Sync, C: Coder>(
        &mut self,
        rt: &R,
        coder: &C,
        i: u32,
    ) -> Option<Step>
        ensures leads { LeadsBy (repairer_step self.old.script i) self.old self.new }
        ensures told { LeadsTold (Token.Repairer i) self.old self.new (steps_in result) }
        ensures same { self.new.script ≡ self.old.script }
        ensures same_book { self.new.book ≡ self.old.book }
    {
        self.directory.keeps();
        turn_in(
            rt,
            coder,
            &mut self.repairers,
            i,
            &mut self.directory,
            self.book,
            &mut self.servers,
        )
    }
}
