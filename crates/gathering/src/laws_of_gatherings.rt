//! What the definitions say, as a function that does nothing and whose contract is the law.

ghost use Rattle.std.specs.Prelude.{◌≡◌, ℕ, List, Some};
ghost use Rattle.store_core.specs.Told.{Told};
ghost use Rattle.store_core.specs.Act.{Act, ServerStep};
ghost use Rattle.store_core.specs.Step.{take_from};
ghost use Rattle.gathering.specs.Gathers.{taking};

/// What a gathering adds to the takes of its call is what the store's definitions add, by the same
/// answer of the server that was asked.
pub fn takes_follow_the_definitions()
    ensures { (answer : Told) (server : ℕ) (step : ServerStep) (takes : List ℕ) →
        taking answer (Some server) takes ≡ take_from (Act.AtServer server step) answer takes }
{}
