//! The sweeper's turn.
ghost use Rattle.std.specs.Prelude.{◌≡◌, [], ◌∷◌};
ghost use Rattle.store_map.specs.declared.actor.Token.{Token};
ghost use Rattle.store_core.specs.Core.{sweeper_has_step};
ghost use Rattle.store_core.specs.Run.{sweeper_step};
ghost use Rattle.world_laws.specs.Known.{core_of};
ghost use Rattle.store_world.specs.Stored.{LeadsBy, world_of};
ghost use Rattle.store_world.specs.Telling.{LeadsTold};

use crate::telling::step_of;
use crate::world::World;
use call_steps::{Need, Step, StepAnswer};
use store_map::Actor;

impl<'a> World<'a> {
    /// The sweeper's turn, and the step that it made.
    pub fn sweeper_turn(&mut self) -> Step
        ensures leads { LeadsBy (sweeper_step self.old.script) self.old self.new }
        ensures told { LeadsTold Token.Sweep self.old self.new (result ∷ []) }
        ensures same { self.new.script ≡ self.old.script }
        ensures same_book { self.new.book ≡ self.old.book }
    {
        let act = self.sweeper.act();
        match self.sweeper.need() {
            Need::Directory => {
                let answer = self.sweeper.on_directory(&mut self.directory);
                step_of(Actor::Sweeper, act, StepAnswer::Directory(answer))
            }
            Need::Server(server) => {
                let answer = self.sweeper.on_server(&mut self.servers[server as usize]);
                step_of(Actor::Sweeper, act, StepAnswer::Server(answer))
            }
            Need::Coder | Need::Finished => unreachable!(),
        }
    }

    /// Whether the sweeper has a turn in a round: it is busy, or there is garbage.
    pub fn sweeper_has_step(&self) -> bool
        ensures { result ≡ sweeper_has_step (core_of self.now.script (world_of self.now)) }
    {
        self.sweeper.busy() || self.directory.has_garbage()
    }
}
