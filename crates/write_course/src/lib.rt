//! A put or a write from its drawn versions on: each version's chunks are made and go to their servers,
//! the versions are committed, and their chunks are settled.
#![tactic(auto)]

mod course_call;
mod course_placing;
pub mod laws_of_courses;
mod writing;
mod writing_stage;

pub use writing::Writing;
pub use writing_stage::WritingStage;
