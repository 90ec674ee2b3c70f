//! Values that stand for a history.
ghost use Rattle.std.specs.Prelude.{ℕ, List, Option, None};

use std::marker::Brand;

/// A value that stands for a history, a list of entries, each under the number of the turn that
/// added it. Both types are for contracts alone: no value of them is made.
pub trait Historied {
    /// What never changes about the value.
    type Fixed;

    type Entry;

    ghost fixed_part: { Self → Self.Fixed };

    ghost stands_for: { Self → List (ℕ × Self.Entry) → Type 0 };
}

/// The entry that a step adds, if it adds one. Each call picks it.
pub(crate) trait Added<E> {
    ghost added: { Option (ℕ × E) };
}

impl<E> Added<E> for Brand {
    ghost added = { None };
}
