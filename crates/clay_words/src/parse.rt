//! What the words ask for, as clap takes them apart.
ghost use Rattle.std.specs.Prelude.{◌≡◌, ◌≢◌, ◌≤◌, ◌<◌, ◌^◌, ◌∷◌, [], Some, codes, decimal, ℕ, List, map, string_bytes, MatchOption, IfOk};
ghost use Rattle.clap.specs.Words.{Row, first_of, subcommand_rows_of};
ghost use Rattle.clay_grid.specs.Shape.{Shape};
ghost use Rattle.clay_aloof.specs.Shape.{AloofShape};
ghost use Rattle.clay_words.specs.Spelled.{AreHeld, Hold, HoldsNumbers, IsSpelled, rows_held};
ghost use Rattle.clay_words.specs.Words.{IsAskedBy, IsAloofCode, IsCode};

use crate::grammar::clay_grammar;
use crate::numbers_of_words::{
    Command, Task, aloof_geometry_of, chunk_of, geometry_of, number_of, start_of,
};
use crate::spelled::is_spelled;
use crate::word_names::{Name, name_of};
use clap::ArgMatches;
use clap::error::ErrorKind;
use clay_aloof::AloofGeometry;
use clay_gen::MAX_GENERATED;
use clay_grid::Geometry;
use std::alloc::{AllocError, Global};

// The most workers that a run has.
const MAX_WORKERS: u32 = 16;

// The number within bounds that is held under a name.
fn number_held(held: &ArgMatches, id: &str, least: u32, most: u32) -> Option<u32>
    ensures { (word : List ℕ) → first_of id.now (rows_held held.now) ≡ Some word →
        MatchOption result ((n : ℕ) → least ≤ n → n ≤ most → word ≢ decimal n) (λ n. (word ≡ decimal n) × (least ≤ n) × (n ≤ most)) }
{
    number_of(held.get_str(id)?, least, most)
}

// The number below 2^64 that is held as a start.
fn start_held(held: &ArgMatches) -> Option<u64>
    ensures { (word : List ℕ) → first_of (codes "start") (rows_held held.now) ≡ Some word →
        MatchOption result ((n : ℕ) → n < 2 ^ 64 → word ≢ decimal n) (λ n. (n < 2 ^ 64) × (word ≡ decimal n)) }
{
    start_of(held.get_str("start")?)
}

// The geometry of the code whose numbers are held.
fn code_held(held: &ArgMatches) -> Option<Geometry>
    ensures { (k m w : List ℕ) → Hold (rows_held held.now) (codes "k" ∷ codes "m" ∷ codes "w" ∷ []) (k ∷ m ∷ w ∷ []) →
        MatchOption result ((g : Shape) → IsCode g k m w → ⊥) (λ g. IsCode g k m w) }
{
    let k = number_held(held, "k", 0, u32::MAX)?;
    let m = number_held(held, "m", 0, u32::MAX)?;
    let w = number_held(held, "w", 0, u32::MAX)?;
    geometry_of(k, m, w)
}

// The geometry of the code with so many helpers whose numbers are held.
fn aloof_held(held: &ArgMatches) -> Option<AloofGeometry>
    ensures { (k m d w : List ℕ) → Hold (rows_held held.now) (codes "k" ∷ codes "m" ∷ codes "d" ∷ codes "w" ∷ []) (k ∷ m ∷ d ∷ w ∷ []) →
        MatchOption result ((a : AloofShape) → IsAloofCode a k m d w → ⊥) (λ a. IsAloofCode a k m d w) }
{
    let k = number_held(held, "k", 0, u32::MAX)?;
    let m = number_held(held, "m", 0, u32::MAX)?;
    let d = number_held(held, "d", 0, u32::MAX)?;
    let w = number_held(held, "w", 0, u32::MAX)?;
    aloof_geometry_of(k, m, d, w)
}

// The chunks of a stripe of the code that is held.
fn chunks_held(held: &ArgMatches) -> Option<Command>
    ensures { (words : List (List ℕ)) → HoldsNumbers Name.Chunks words (rows_held held.now) → IsAskedBy words result }
{
    let geometry = code_held(held)?;
    Some(Command::OfInput(Task::Chunks(geometry)))
}

// All chunks of the code that is held.
fn recover_held(held: &ArgMatches) -> Option<Command>
    ensures { (words : List (List ℕ)) → HoldsNumbers Name.Recover words (rows_held held.now) → IsAskedBy words result }
{
    let geometry = code_held(held)?;
    Some(Command::OfInput(Task::Recover(geometry)))
}

// The chunks of a stripe of the code with so many helpers that is held.
fn aloof_chunks_held(held: &ArgMatches) -> Option<Command>
    ensures { (words : List (List ℕ)) → HoldsNumbers Name.AloofChunks words (rows_held held.now) → IsAskedBy words result }
{
    let geometry = aloof_held(held)?;
    Some(Command::OfInput(Task::AloofChunks(geometry)))
}

// The run that so many workers are held for.
fn run_held(held: &ArgMatches) -> Option<Command>
    ensures { (words : List (List ℕ)) → HoldsNumbers Name.Run words (rows_held held.now) → IsAskedBy words result }
{
    let workers = number_held(held, "workers", 1, MAX_WORKERS)?;
    Some(Command::OfInput(Task::Run { workers }))
}

// The script that is held by its number and size.
fn drawn_held(held: &ArgMatches) -> Option<Command>
    ensures { (words : List (List ℕ)) → HoldsNumbers Name.Generate words (rows_held held.now) → IsAskedBy words result }
{
    let start = start_held(held)?;
    let size = number_held(held, "size", 1, MAX_GENERATED)?;
    Some(Command::Generate { start, size })
}

// The trial of such a script that so many workers are held for.
fn trial_held(held: &ArgMatches) -> Option<Command>
    ensures { (words : List (List ℕ)) → HoldsNumbers Name.Trial words (rows_held held.now) → IsAskedBy words result }
{
    let start = start_held(held)?;
    let size = number_held(held, "size", 1, MAX_GENERATED)?;
    let workers = number_held(held, "workers", 1, MAX_WORKERS)?;
    Some(Command::Trial {
        start,
        size,
        workers,
    })
}

// The repair of a chunk that is held with its code's numbers.
fn repair_held(held: &ArgMatches) -> Option<Command>
    ensures { (words : List (List ℕ)) → HoldsNumbers Name.AloofRepair words (rows_held held.now) → IsAskedBy words result }
{
    let geometry = aloof_held(held)?;
    let lost = chunk_of(geometry, held.get_str("lost")?)?;
    Some(Command::OfInput(Task::AloofRepair { geometry, lost }))
}

// The command of a name and of the numbers that are held for it.
fn command_held(name: Name, held: &ArgMatches) -> Option<Command>
    ensures { (words : List (List ℕ)) → HoldsNumbers name words (rows_held held.now) → IsAskedBy words result }
{
    match name {
        Name::Play => Some(Command::OfInput(Task::Play)),
        Name::Run => run_held(held),
        Name::Verify => Some(Command::OfInput(Task::Verify)),
        Name::Chunks => chunks_held(held),
        Name::Recover => recover_held(held),
        Name::Generate => drawn_held(held),
        Name::Trial => trial_held(held),
        Name::AloofChunks => aloof_chunks_held(held),
        Name::AloofRepair => repair_held(held),
    }
}

// The command of a word and of the numbers that are held for it.
fn command_named(word: &str, held: &ArgMatches) -> Option<Command>
    ensures { (words : List (List ℕ)) → AreHeld words word.now (rows_held held.now) → IsAskedBy words result }
{
    let name = name_of(word)?;
    command_held(name, held)
}

// The command of the subcommand that clap met.
fn command_taken(matches: &ArgMatches) -> Option<Command>
    ensures { (words : List (List ℕ)) (word : List ℕ) (rows : List Row) →
        subcommand_rows_of matches.now ≡ Some (word, rows) → AreHeld words word rows → IsAskedBy words result }
{
    let (word, held) = matches.subcommand()?;
    command_named(word, held)
}

// The command of words that have a command's form. Clap refuses them for want of memory alone.
fn command_parsed(alloc: Global, words: &[String]) -> Result<Option<Command>, AllocError>
    requires { IsSpelled (map string_bytes words.now) }
    ensures { IfOk result (IsAskedBy (map string_bytes words.now)) }
{
    let grammar = clay_grammar(alloc)?;
    match grammar.try_get_matches_from(words) {
        Ok(matches) => Ok(command_taken(&matches)),
        Err(error) => {
            let kind = error.kind();
            prove!(kind == ErrorKind::OutOfMemory);
            Err(AllocError)
        }
    }
}

/// The command that the words after the program's name ask for, if they ask for one. An error says
/// that memory was wanting.
pub fn command_of(alloc: Global, words: &[String]) -> Result<Option<Command>, AllocError>
    ensures { IfOk result (IsAskedBy (map string_bytes words.now)) }
{
    if words.is_empty() {
        return Ok(Some(Command::OfInput(Task::Play)));
    }
    if !is_spelled(words) {
        return Ok(None);
    }
    command_parsed(alloc, words)
}
