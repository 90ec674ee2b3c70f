//! The operator's actions.
ghost use Rattle.std.specs.Prelude.{◌≡◌, ◌<◌, [], ◌∷◌};
ghost use Rattle.clay_grid.specs.Shape.{chunk_count};
ghost use Rattle.store_map.specs.declared.actor.Token.{Token};
ghost use Rattle.store_core.specs.Schedule.{step_core};
ghost use Rattle.store_world.specs.Stored.{LeadsBy};
ghost use Rattle.store_world.specs.Telling.{LeadsTold, server_act_told, reap_told};

use crate::telling::step_of;
use crate::world::World;
use call_steps::{Act, DirectoryAct, DirectoryAnswer, ServerAct, ServerAnswer, Step, StepAnswer};
use store_map::{Actor, Point};

// The operator's step at the server, which answers nothing.
fn step_of_server_act(server: u32, act: ServerAct) -> Step
    ensures { result ≡ server_act_told server act }
{
    step_of(
        Actor::Operator,
        Act::Server(server, act),
        StepAnswer::Server(ServerAnswer::Made),
    )
}

// The operator's step at the directory, which tells the point of the reap, if it gave up a pass.
fn step_of_reap(reaped: Actor, at: Option<Point>) -> Step
    ensures { result ≡ reap_told reaped at }
{
    step_of(
        Actor::Operator,
        Act::Directory(DirectoryAct::Reap(reaped)),
        StepAnswer::Directory(DirectoryAnswer::GivenUp(at)),
    )
}

impl<'a> World<'a> {
    /// The server is emptied, and the step that does it.
    pub fn wipe(&mut self, server: u32) -> Step
        requires { server < chunk_count self.old.script.geometry }
        ensures leads { LeadsBy (step_core self.old.script (Token.Wipe server)) self.old self.new }
        ensures told { LeadsTold (Token.Wipe server) self.old self.new (result ∷ []) }
        ensures same { self.new.script ≡ self.old.script }
        ensures same_book { self.new.book ≡ self.old.book }
    {
        self.servers[server as usize].wipe();
        step_of_server_act(server, ServerAct::Wipe)
    }

    /// The server is made away, and the step that does it.
    pub fn down(&mut self, server: u32) -> Step
        requires { server < chunk_count self.old.script.geometry }
        ensures leads { LeadsBy (step_core self.old.script (Token.Down server)) self.old self.new }
        ensures told { LeadsTold (Token.Down server) self.old self.new (result ∷ []) }
        ensures same { self.new.script ≡ self.old.script }
        ensures same_book { self.new.book ≡ self.old.book }
    {
        self.servers[server as usize].down();
        step_of_server_act(server, ServerAct::Down)
    }

    /// The server is made present, and the step that does it.
    pub fn up(&mut self, server: u32) -> Step
        requires { server < chunk_count self.old.script.geometry }
        ensures leads { LeadsBy (step_core self.old.script (Token.Up server)) self.old self.new }
        ensures told { LeadsTold (Token.Up server) self.old self.new (result ∷ []) }
        ensures same { self.new.script ≡ self.old.script }
        ensures same_book { self.new.book ≡ self.old.book }
    {
        self.servers[server as usize].up();
        step_of_server_act(server, ServerAct::Up)
    }

    /// The client's pass is given up, and the step that does it.
    pub fn reap_client(&mut self, i: u32) -> Step
        ensures leads { LeadsBy (step_core self.old.script (Token.ReapClient i)) self.old self.new }
        ensures told { LeadsTold (Token.ReapClient i) self.old self.new (result ∷ []) }
        ensures same { self.new.script ≡ self.old.script }
        ensures same_book { self.new.book ≡ self.old.book }
    {
        let at = self.directory.reap(Actor::Client(i));
        step_of_reap(Actor::Client(i), at)
    }

    /// The repairer's pass is given up, and the step that does it.
    pub fn reap_repairer(&mut self, i: u32) -> Step
        ensures leads { LeadsBy (step_core self.old.script (Token.ReapRepairer i)) self.old self.new }
        ensures told { LeadsTold (Token.ReapRepairer i) self.old self.new (result ∷ []) }
        ensures same { self.new.script ≡ self.old.script }
        ensures same_book { self.new.book ≡ self.old.book }
    {
        let at = self.directory.reap(Actor::Repairer(i));
        step_of_reap(Actor::Repairer(i), at)
    }
}
