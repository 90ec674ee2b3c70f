//! A list that turns add to.
ghost use Rattle.std.specs.Prelude.{◌≡◌};
ghost use Rattle.run_tests.specs.NumberList.{lines_of};

use turn_lock::Historied;

/// A value, and a number of the turn that added it.
#[derive(Clone, Copy, PartialEq)]
pub struct Line {
    pub turn: u32,
    pub value: u32,
}

/// A list that never changes its name. It stands for the history of its lines.
#[derive(Drop)]
pub struct NumberList {
    pub name: u32,
    pub lines: Vec<Line>,
}

impl Historied for NumberList {
    type Fixed = u32;

    type Entry = u32;

    ghost fixed_part = { λ list. list.name };

    ghost stands_for = { λ list log. list.lines.items ≡ lines_of log };
}
