//! The law, as a function that does nothing and whose contract is the law.

ghost use Rattle.session_store.specs.Laws.{CallsRunAlone};

/// A machine that makes its codings and its steps alone comes where the steps of the definitions lead a
/// call that runs alone, in each of which memory is wanting where it was wanting in the machine's. With
/// ample memory it has taken what those steps took, to its end.
pub fn calls_run_alone()
    ensures { CallsRunAlone }
{}
