//! One token's step.
ghost use Rattle.std.specs.Prelude.{◌≡◌, ◌∷◌, [], OnOk};
ghost use Rattle.store_map.specs.Naming.{NamesPart};
ghost use Rattle.world_laws.specs.Traced.{GoesTelling};
ghost use Rattle.store_world.specs.Stored.{world_of};
ghost use Rattle.store_world.specs.Watched.{Watched};

use crate::watch::{Watch, turn_made};
use crate::world::World;
use clay_model::Coder;
use std::thread::Threads;
use store_map::Token;

impl<'a> World<'a> {
    /// The steps of a token that names the script's own: a turn of an actor or of the sweeper, an action of
    /// the operator, or a drain. The watch is told each of them; where it can't be, nothing more is done.
    pub fn step<R: Threads + Sync, C: Coder, W: Watch>(
        &mut self,
        rt: &R,
        coder: &C,
        token: Token,
        watch: &mut W,
    ) -> Result<(), W::Error>
        requires { NamesPart self.old.script token }
        ensures told { OnOk result (Watched (W.heard watch.old watch.new) (GoesTelling self.old.script (token ∷ []) (world_of self.old) (world_of self.new))) }
        ensures same { self.new.script ≡ self.old.script }
        ensures same_book { self.new.book ≡ self.old.book }
    {
        match token {
            Token::Client(i) => turn_made(watch, self.client_turn(rt, coder, i)),
            Token::Repairer(i) => turn_made(watch, self.repairer_turn(rt, coder, i)),
            Token::Sweep => watch.made(self.sweeper_turn()),
            Token::Wipe(server) => watch.made(self.wipe(server)),
            Token::Down(server) => watch.made(self.down(server)),
            Token::Up(server) => watch.made(self.up(server)),
            Token::ReapClient(i) => watch.made(self.reap_client(i)),
            Token::ReapRepairer(i) => watch.made(self.reap_repairer(i)),
            Token::Drain => self.drain(rt, coder, watch),
        }
    }
}
