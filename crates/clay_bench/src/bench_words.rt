//! The words of a command by their places.

use anyhow::bail;
use clay_grid::Geometry;

/// The word at this place, as a number.
pub fn number_at(words: &[String], place: usize) -> anyhow::Result<u32> {
    match words.get(place) {
        Some(word) => Ok(word.parse()?),
        None => bail!("a number is missing"),
    }
}

/// The code and the rounds that the words K M WIDTH ROUNDS name.
pub fn setting(words: &[String]) -> anyhow::Result<(Geometry, u32)> {
    let (k, m) = (number_at(words, 0)?, number_at(words, 1)?);
    let g = Geometry::new(k, m, number_at(words, 2)?)?;
    Ok((g, number_at(words, 3)?))
}
