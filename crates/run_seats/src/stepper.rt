//! Whose step it is.
use store_map::Actor;

/// An actor that makes a step, under which number it has its turns, and how many steps it made before.
#[derive(Clone, Copy)]
pub(crate) struct Stepper {
    pub(crate) actor: Actor,
    pub(crate) number: u32,
    pub(crate) steps: u64,
}
