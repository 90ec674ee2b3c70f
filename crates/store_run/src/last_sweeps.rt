//! The last sweep of a run: nobody else has a step any more.
ghost use Rattle.std.specs.Prelude.{◌≡◌, ◌<◌, true, false};
ghost use Rattle.store_map.specs.declared.script.Script.{Script};
ghost use Rattle.store_run.specs.Ended.{IsEnded, has_sweep};
ghost use Rattle.store_run.specs.LastSweep.{steps_left};

use crate::ended::Ended;
use call_steps::Need;
use run_seats::has_sweep;

impl Ended {
    // A step of the sweeper, which has fewer left after it.
    fn sweep_step(&mut self)
        ghost script: { Script }
        requires { IsEnded script self.old }
        ensures ended { IsEnded script self.new }
        ensures falls { has_sweep self.old ≡ true → steps_left script self.new < steps_left script self.old }
    {
        self.directory.keeps();
        match self.sweeper.need() {
            Need::Directory => {
                self.sweeper.on_directory(&mut self.directory);
            }
            Need::Server(server) => {
                self.sweeper.on_server(&mut self.servers[server as usize]);
            }
            Need::Coder | Need::Finished => unreachable!(),
        }
    }

    /// The sweeper makes its steps until it has nothing left to do.
    pub(crate) fn sweep(&mut self)
        ghost script: { Script }
        requires { IsEnded script self.old }
        ensures ended { IsEnded script self.new }
        ensures swept { has_sweep self.new ≡ false }
    {
        while has_sweep(&self.sweeper, &self.directory) {
            self.sweep_step();
        }
    }
}
