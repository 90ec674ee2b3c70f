//! What the definitions say, as functions that do nothing and whose contracts are the laws.

ghost use Rattle.store_core.specs.Calls.{Calls};
ghost use Rattle.run_laws.specs.ContentLaws.{ContentsStay, StepsKeepBytes};
ghost use Rattle.run_laws.specs.MoreCalls.{StepsKeepDrawn, MoreCallsChangeNothing};
ghost use Rattle.run_laws.specs.StripeLaws.{StepsKeepStripes};

/// No step at the directory changes the content of a version that is drawn.
pub fn contents_stay()
    ensures { ContentsStay }
{}

/// A directory without objects has the bytes of the empty map, and each step that may be made keeps
/// its objects' bytes those of the map after the calls at its points.
pub fn steps_keep_the_bytes_of_the_map()
    ensures { (calls : Calls) → StepsKeepBytes calls }
{}

/// The content of each version is a whole stripe.
pub fn steps_keep_contents_whole()
    ensures { (calls : Calls) → StepsKeepStripes calls }
{}

/// Each version is drawn by one of the calls.
pub fn versions_are_drawn_by_calls()
    ensures { (calls : Calls) → StepsKeepDrawn calls }
{}

/// Calls that come later change nothing of what a directory keeps.
pub fn more_calls_change_nothing()
    ensures { MoreCallsChangeNothing }
{}
