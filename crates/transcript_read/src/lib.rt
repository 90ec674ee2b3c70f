//! Reading the text of a transcript: the transcript whose text it is, or the first faulty line.
#![tactic(auto)]

mod field;
pub mod laws_of_transcripts;
mod list;
mod number_field;
mod outcome_field;
mod reply_field;
mod rest;
mod transcript_line;
mod transcript_place;
mod transcript_reader;
mod transcript_reading;
mod triple;

pub use rest::TextRest;
pub use transcript_reading::{read_transcript, take_transcript};
