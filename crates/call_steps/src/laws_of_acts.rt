//! What the definitions say, as a function that does nothing and whose contract is the law.

ghost use Rattle.call_steps.specs.Acts.{ActsTellNeeds};

/// What a call needs is the place of what it does next.
pub fn acts_tell_needs()
    ensures { ActsTellNeeds }
{}
