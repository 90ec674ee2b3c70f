//! The commands and their tasks, and the numbers that words spell.
ghost use Rattle.std.specs.Prelude.{◌≡◌, ◌≢◌, ◌<◌, ◌≤◌, ◌^◌, ℕ, MatchOption, decimal, IfSome, IfNone};
ghost use Rattle.clay_grid.specs.Shape.{Shape};
ghost use Rattle.clay_aloof.specs.Shape.{AloofShape, all_chunks};
ghost use Rattle.clay_words.specs.Words.{IsCode, IsAloofCode};

use clay_aloof::AloofGeometry;
use clay_grid::Geometry;
use line_grammar::{is_number, read_number};

/// What is made of an input.
#[derive(Clone, Copy)]
pub enum Task {
    Play,
    /// The script is run by so many threads.
    Run { workers: u32 },
    Verify,
    Chunks(Geometry),
    Recover(Geometry),
    /// As `Chunks`, of a code with so many helpers.
    AloofChunks(AloofGeometry),
    /// The lost chunk of such a code.
    AloofRepair { geometry: AloofGeometry, lost: u32 },
}

/// What a call of the program asks for.
#[derive(Clone, Copy)]
pub enum Command {
    /// The script that a number gives, with so many calls of each client. No input is read.
    Generate { start: u64, size: u32 },
    /// Such a script is run by so many threads. No input is read.
    Trial { start: u64, size: u32, workers: u32 },
    OfInput(Task),
}

/// The geometry of a code's numbers.
pub(crate) fn geometry_of(k: u32, m: u32, w: u32) -> Option<Geometry>
    ensures { MatchOption result ((g : Shape) → IsCode g (decimal k) (decimal m) (decimal w) → ⊥)
        (λ g. IsCode g (decimal k) (decimal m) (decimal w)) }
{
    match Geometry::new(k, m, w) {
        Ok(geometry) => Some(geometry),
        Err(_) => None,
    }
}

/// The geometry of the numbers of a code with so many helpers.
pub(crate) fn aloof_geometry_of(k: u32, m: u32, d: u32, w: u32) -> Option<AloofGeometry>
    ensures { MatchOption result ((a : AloofShape) → IsAloofCode a (decimal k) (decimal m) (decimal d) (decimal w) → ⊥)
        (λ a. IsAloofCode a (decimal k) (decimal m) (decimal d) (decimal w)) }
{
    match AloofGeometry::new(k, m, d, w) {
        Ok(geometry) => Some(geometry),
        Err(_) => None,
    }
}

/// The chunk of a code that a word names.
pub(crate) fn chunk_of(g: AloofGeometry, word: &str) -> Option<u32>
    ensures found { IfSome result (λ chunk. (word.now ≡ decimal chunk) × (chunk < all_chunks g)) }
    ensures none { IfNone result ((chunk : ℕ) → chunk < all_chunks g → word.now ≢ decimal chunk) }
{
    let count = g.n();
    let chunk = read_number(word.as_bytes())?;
    if chunk < count { Some(chunk) } else { None }
}

/// The number below 2^64 that a word spells.
pub(crate) fn start_of(word: &str) -> Option<u64>
    ensures { MatchOption result ((n : ℕ) → n < 2 ^ 64 → word.now ≢ decimal n)
        (λ n. (n < 2 ^ 64) × (word.now ≡ decimal n)) }
{
    if !is_number(word.as_bytes()) {
        return None;
    }
    word.parse().ok()
}

/// The number within bounds that a word spells.
pub(crate) fn number_of(word: &str, least: u32, most: u32) -> Option<u32>
    ensures found { IfSome result (λ n. (word.now ≡ decimal n) × (least ≤ n) × (n ≤ most)) }
    ensures none { IfNone result ((n : ℕ) → least ≤ n → n ≤ most → word.now ≢ decimal n) }
{
    let number = read_number(word.as_bytes())?;
    if number >= least && number <= most {
        Some(number)
    } else {
        None
    }
}
