//! What the definitions say, as functions that do nothing and whose contracts are the laws.

ghost use Rattle.write_course.specs.Laws.{StepsAreOfTheCall};

/// The steps of a writing are those of its call.
pub fn steps_are_of_the_call()
    ensures { StepsAreOfTheCall }
{}
