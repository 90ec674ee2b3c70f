//! A client's put, write or delete: a write looks, gathers the old bytes that it keeps, draws versions, has
//! their chunks made and placed, commits and settles, and is tried again where its object was changed.
#![tactic(auto)]

mod bytes;
pub mod laws_of_patches;
mod patch;
mod patch_coding;
mod patch_directory;
mod patch_stage;

pub use patch::PatchCall;
