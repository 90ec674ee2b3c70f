//! What the definitions say, as functions that do nothing and whose contracts are the laws.

ghost use Rattle.history_laws.specs.Played.{IsPlayed};
ghost use Rattle.store_run.specs.Swept.{IsRunToEnd};
ghost use Rattle.clay_cli.specs.Printed.{PrintedAreLegal};
ghost use Rattle.std.specs.Prelude.{ℕ};
ghost use Rattle.clay_grid.specs.Shape.{Shape};
ghost use Rattle.clay_grid.specs.Limits.{IsGeometry};
ghost use Rattle.clay_aloof.specs.Shape.{AloofShape};
ghost use Rattle.clay_aloof.specs.Limits.{IsAloof};
ghost use Rattle.clay_words.specs.declared.numbers_of_words.Task.TheVariants.{Chunks, Recover, AloofChunks, AloofRepair};
ghost use Rattle.clay_cli.specs.Laws.{GeneratedAreScripts, HasOneAnswer, HasOneVerdict};

/// A generated script is one that a text can spell, and it is within the limits. So its spelling,
/// which `gen` prints, is read as that script.
pub fn generated_scripts_are_scripts()
    ensures { GeneratedAreScripts }
{}

/// What `verify` says of an input is one status and one line. So each of its answers comes just
/// where its definition holds of the input.
pub fn an_input_has_one_verdict()
    ensures { HasOneVerdict }
{}

/// What each command on stripes and chunks prints for an input is one status and one output. So each of
/// their answers comes just where its definition holds of the input.
pub fn an_input_has_one_answer()
    ensures chunks { (g : Shape) → IsGeometry g → HasOneAnswer (Chunks g) }
    ensures recover { (g : Shape) → IsGeometry g → HasOneAnswer (Recover g) }
    ensures chunksd { (a : AloofShape) → IsAloof a → HasOneAnswer (AloofChunks a) }
    ensures repaird { (a : AloofShape) (lost : ℕ) → HasOneAnswer (AloofRepair a lost) }
{}

/// What `play` or `run` prints for a script, put behind that script, `verify` finds legal, with status 0, and
/// has no other answer to it.
pub fn printed_are_legal()
    ensures play { PrintedAreLegal IsPlayed }
    ensures run { PrintedAreLegal IsRunToEnd }
{}
