//! The transcript of a run: what each call was answered, what is stored at the end, and the text
//! in which all of it is written.
#![tactic(auto)]

mod digit_pieces;
mod transcript_writing;
mod worked_transcripts;

pub use store_map::{
    CallName, Cause, GLine, HLine, LLine, OLine, RLine, RepairResult, Shown, TLine, Transcript,
    Triple, XLine,
};
pub use transcript_writing::{append, append_reply, append_shown, write_transcript};
pub use worked_transcripts::worked_texts;
