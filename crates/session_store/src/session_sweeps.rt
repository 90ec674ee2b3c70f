//! The sweeper after a request.
ghost use Rattle.std.specs.Prelude.{◌≡◌, ◌<◌, true};
ghost use Rattle.session_store.specs.Places.{ArePlaces};
ghost use Rattle.session_store.specs.Sweeping.{IsSweptBy, HasSwept, has_sweep, sweeps_left_in, MaySweep};

use crate::places::SessionPlaces;
use call_steps::Need;
use sweeper::Sweeper;

// Whether the sweeper has something to do.
fn is_unswept(places: &SessionPlaces, sweeper: &Sweeper) -> bool
    ensures { result ≡ has_sweep sweeper.now places.now.directory }
{
    sweeper.busy() || places.directory.has_garbage()
}

// A step of the sweeper.
fn sweep_step(places: &mut SessionPlaces, sweeper: &mut Sweeper)
    requires { MaySweep sweeper.old places.old }
    ensures swept { IsSweptBy sweeper.old places.old sweeper.new places.new }
    ensures falls { has_sweep sweeper.old places.old.directory ≡ true
        → sweeps_left_in sweeper.new places.new < sweeps_left_in sweeper.old places.old }
{
    places.directory.keeps();
    match sweeper.need() {
        Need::Directory => {
            sweeper.on_directory(&mut places.directory);
        }
        Need::Server(server) => {
            sweeper.on_server(&mut places.servers[server as usize]);
        }
        Need::Coder | Need::Finished => unreachable!(),
    }
}

/// The sweeper makes its steps until there is no garbage left. It takes no memory.
pub(crate) fn sweep_all(places: &mut SessionPlaces)
    requires { ArePlaces places.old }
    ensures { HasSwept places.old places.new }
{
    let geometry = places.book.opening().geometry();
    let mut sweeper = Sweeper::new(geometry.n());
    while is_unswept(places, &sweeper) {
        sweep_step(places, &mut sweeper);
    }
}
