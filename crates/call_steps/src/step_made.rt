//! A step that was made, told without lists.
use crate::act::Act;
use crate::answer::{DirectoryAnswer, ServerAnswer};
use store_map::Actor;

/// What a step was answered: by the directory, or by the server that it was made at.
#[derive(Clone, Copy, PartialEq, Eq)]
pub enum StepAnswer {
    Directory(DirectoryAnswer),
    Server(ServerAnswer),
}

/// A step that was made.
#[derive(Clone, Copy, PartialEq, Eq)]
pub struct Step {
    pub who: Actor,
    /// How many of its actor's calls had ended before.
    pub number: u32,
    /// Whether memory was wanting in the coding before it.
    pub short: bool,
    pub act: Act,
    pub answer: StepAnswer,
}
