//! The verdict on a script and a transcript: the checker's rules, each in one pass over the lines, and
//! the line in which a verdict is printed.
#![tactic(auto)]

mod calls_exist;
mod changes;
mod given_up;
mod judging;
mod least_missing;
mod object_lines;
mod open_calls;
mod order;
mod races;
mod replay;
mod replies;
mod results;
mod rising;
mod sums;
mod unlisted;
mod verdict_text;

pub use given_up::find_false_reap;
pub use judging::check;
pub use object_lines::find_wrong_object;
pub use races::find_false_race;
pub use results::find_false_result;
pub use sums::find_wrong_sum;
pub use verdict_text::verdict_line;
