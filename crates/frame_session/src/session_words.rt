//! The words of a session: the numbers of its code, and how many bytes an object may have.
ghost use Rattle.std.specs.Prelude.{◌≡◌, ◌≢◌, ◌≤◌, [], ◌∷◌, ℕ, map, string_bytes, decimal, IfSome, IfNone};
ghost use Rattle.clay_grid.specs.Shape.{shape_of};
ghost use Rattle.clay_grid.specs.Limits.{IsGeometry, IsWithinLimits};
ghost use Rattle.frame_session.specs.Words.{IsAskedBy};

use clay_grid::Geometry;
use line_grammar::read_number;

// The most bytes that a session lets an object have.
const MOST_BYTES: u32 = 1_048_576;

/// What a session's words ask for: a code, and how many bytes an object may have.
#[derive(Clone, Copy)]
pub(crate) struct Asked {
    pub(crate) geometry: Geometry,
    pub(crate) max: u32,
}

// The number within bounds that a word spells.
fn number_of(word: &str, least: u32, most: u32) -> Option<u32>
    ensures found { IfSome result (λ n. (word.now ≡ decimal n) × (least ≤ n) × (n ≤ most)) }
    ensures none { IfNone result ((n : ℕ) → least ≤ n → n ≤ most → word.now ≢ decimal n) }
{
    let number = read_number(word.as_bytes())?;
    if number >= least && number <= most {
        Some(number)
    } else {
        None
    }
}

// The geometry of a code's numbers.
fn geometry_of(k: u32, m: u32, w: u32) -> Option<Geometry>
    ensures found { IfSome result (λ g. g ≡ shape_of k m w) }
    ensures limits { IfSome result IsGeometry }
    ensures none { IfNone result (IsWithinLimits (shape_of k m w) → ⊥) }
{
    match Geometry::new(k, m, w) {
        Ok(geometry) => Some(geometry),
        Err(_) => None,
    }
}

// What four words ask for, if they are a session's.
fn asked_of(k: &str, m: &str, w: &str, max: &str) -> Option<Asked>
    ensures { IsAskedBy (k.now ∷ m.now ∷ w.now ∷ max.now ∷ []) result }
{
    let k = number_of(k, 0, u32::MAX)?;
    let m = number_of(m, 0, u32::MAX)?;
    let w = number_of(w, 0, u32::MAX)?;
    let max = number_of(max, 1, MOST_BYTES)?;
    let geometry = geometry_of(k, m, w)?;
    Some(Asked { geometry, max })
}

/// What the words after the program's name ask for, if they are a session's.
pub(crate) fn asked_by(words: &[String]) -> Option<Asked>
    ensures { IsAskedBy (map string_bytes words.now) result }
{
    match words {
        [k, m, w, max] => asked_of(k.as_str(), m.as_str(), w.as_str(), max.as_str()),
        _ => None,
    }
}
