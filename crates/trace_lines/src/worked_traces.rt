//! Worked lists of steps: their texts, computed by the definitions alone.
ghost use Rattle.std.specs.Prelude.{◌≡◌};
ghost use Rattle.trace_lines.specs.Lines.{lines_of};
ghost use Rattle.trace_lines.specs.Worked.{a_put, a_put_text, a_race, a_race_text};

/// The texts of two lists of steps, computed from the definition alone.
pub fn worked_steps()
    ensures a_put { lines_of a_put ≡ a_put_text }
    ensures a_race { lines_of a_race ≡ a_race_text }
{}
