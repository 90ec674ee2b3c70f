//! What is told of a step.
ghost use Rattle.std.specs.Prelude.{◌≡◌};
ghost use Rattle.store_world.specs.Telling.{act_told};

use call_steps::{Act, Step, StepAnswer};
use store_map::Actor;

// A step of an actor without calls, before which nothing is coded.
pub(crate) fn step_of(who: Actor, act: Act, answer: StepAnswer) -> Step
    ensures { result ≡ act_told who act answer }
{
    Step {
        who,
        number: 0,
        short: false,
        act,
        answer,
    }
}
