//! The parts of the directory: the history, the objects, the calls in work, and what is kept and refused of a call.
#![tactic(auto)]

mod dir_room;
mod history;
mod objects;
mod passes;
mod refusing;
mod told_points;

pub use dir_room::{add_look, make_room};
pub use history::{DirectoryReply, Event, History, PointEntry};
pub use objects::{Contents, Objects};
pub use passes::{CallKind, CallNote, OpenPass, Passes, Pinned};
pub use refusing::{note_of, refusal};
