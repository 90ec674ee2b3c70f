//! Who is told of the steps that are made in a world.
ghost use Rattle.std.specs.Prelude.{◌≡◌, ◌++◌, ◌∷◌, [], List, OnOk, ⊤};
ghost use Rattle.std.proofs.Common.{sym, ◌∙◌, append_assoc, append-nil};
ghost use Rattle.call_steps.specs.declared.step_made.Step.{Step};
ghost use Rattle.store_world.specs.Telling.{steps_in};

use call_steps::Step;
use std::alloc::AllocError;
use std::convert::Infallible;

/// What is told of each step once it is made.
pub trait Watch {
    /// Why it can't be told.
    type Error: Drop;

    /// From the first state to the second it was told just these steps.
    ghost heard: { Self → Self → List Step → Type 0 };

    /// A step that was made.
    fn made(&mut self, step: Step) -> Result<(), Self::Error>
        ensures { OnOk result (heard self.old self.new (step ∷ [])) };

    /// It may be told nothing.
    ghost none: { (watch : Self) → heard watch watch [] };

    /// It may be told more.
    ghost on: { (before middle after : Self) (steps more : List Step) → heard before middle steps → heard middle after more → heard before after (steps ++ more) };
}

/// A watch that keeps nothing.
#[derive(Drop)]
pub struct Silent;

impl Watch for Silent {
    type Error = Infallible;

    ghost heard = { λ before after steps. ⊤ };

    fn made(&mut self, _step: Step) -> Result<(), Infallible> {
        Ok(())
    }

    ghost none = { λ watch. tt };

    ghost on = { λ before middle after steps more first second. tt };
}

/// The steps themselves, behind those that were there.
impl Watch for Vec<Step> {
    type Error = AllocError;

    ghost heard = { λ before after steps. after.items ≡ before.items ++ steps };

    fn made(&mut self, step: Step) -> Result<(), AllocError> {
        self.push(step)?;
        Ok(())
    }

    ghost none = { λ watch. sym (append-nil watch.items) };

    ghost on = { λ before middle after steps more first second. second ∙ (λ k. first k ++ more) ∙ append_assoc before.items steps more };
}

/// A turn's step, if it made one.
pub(crate) fn turn_made<W: Watch>(watch: &mut W, step: Option<Step>) -> Result<(), W::Error>
    ensures { OnOk result (W.heard watch.old watch.new (steps_in step)) }
{
    match step {
        Some(step) => watch.made(step),
        None => Ok(()),
    }
}
