//! The words of the object store's scripts, and the plain map from names to bytes that the store's
//! answers are held against.
#![tactic(auto)]

mod actor;
mod call;
mod call_name;
mod cause;
mod content;
mod copies;
pub mod laws_of_the_map;
mod limits;
mod line;
mod list_of;
mod name;
mod object_map;
mod placement;
mod reply;
mod script;
mod shown;
mod transcript;

pub use actor::{Actor, Point, Token, Version};
pub use call::{Call, Rebuild};
pub use call_name::{CallName, ClientCall, RepairCall};
pub use cause::{Cause, RepairResult, Triple};
pub use content::{Content, HexBytes};
pub use limits::{
    DEFAULT_SIZE, DEFAULT_TRIES, MAX_CALLS, MAX_CLIENTS, MAX_DATA, MAX_READ_BYTES, MAX_REPAIRERS,
    MAX_SCHEDULE, MAX_SIZE, MAX_STRIPE_BYTES, MAX_STRIPES, MAX_TRIES,
};
pub use line::{GLine, HLine, LLine, OLine, RLine, TLine, XLine};
pub use list_of::{ByteList, ListOf};
pub use name::{MAX_NAME, Name, NameFault, is_name, is_name_byte};
pub use object_map::ObjectMap;
pub use placement::{Found, LostChunk, Placement};
pub use reply::Reply;
pub use script::{ClientPart, RepairPart, Script};
pub use shown::Shown;
pub use transcript::Transcript;
