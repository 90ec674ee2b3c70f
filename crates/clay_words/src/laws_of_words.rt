//! What the definitions say, as functions that do nothing and whose contracts are the laws.

ghost use Rattle.std.specs.Prelude.{◌≡◌, ℕ, List};
ghost use Rattle.clay_words.specs.Words.{Asks};
ghost use Rattle.clay_words.specs.declared.numbers_of_words.Command.{Command};

/// Words ask for one command at most, with its numbers.
pub fn words_ask_for_one_command()
    ensures { (words : List (List ℕ)) (one other : Command) → Asks words one → Asks words other → one ≡ other }
{}
