//! Files that are read and written at positions, with logs of the bytes that were handed out and taken, each with its position.
#![tactic(auto)]

mod laws_of_files;
mod memory_file;
mod position_logs;
mod positions;
mod standard_file;

pub use laws_of_files::files_grow;
pub use memory_file::MemFile;
pub use position_logs::{PlaceLog, PositionLog};
pub use positions::{ReadFault, SinkAt, SourceAt, read_exact_at, write_all_at};
pub use standard_file::StdFile;
