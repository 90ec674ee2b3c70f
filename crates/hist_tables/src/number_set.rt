//! A set of numbers for each actor, in rows of 64.
ghost use Rattle.std.specs.Prelude.{◌≡◌, ◌&&◌, ◌<◌, ℕ, nat_eq, cond, true, false, OnOk, get_or};
ghost use Rattle.hist_tables.specs.Numbers.{holds, row_has, row_of};

use std::alloc::{AllocError, Global};
use std::collections::HashMap;

// So many numbers that follow each other share a row.
const ROW: u32 = 64;

/// Numbers of actors. An actor's numbers mostly follow each other, so a row says of 64 of them which
/// are there, in the place of 64 entries of a set.
#[derive(Drop)]
pub struct NumberSet {
    rows: HashMap<(u32, u32), [bool; 64]>,
}

impl NumberSet {
    /// No actor has a number.
    pub fn new(alloc: Global) -> NumberSet
        ensures { (actor number : ℕ) → holds result actor number ≡ false }
    {
        NumberSet {
            rows: HashMap::new(alloc),
        }
    }

    pub fn contains(&self, actor: u32, number: u32) -> bool
        ensures { result ≡ holds self.now actor number }
    {
        match self.rows.get(&(actor, number / ROW)) {
            Some(row) => row[(number % ROW) as usize],
            None => false,
        }
    }

    // The actor's row of this place, with no numbers where the set has none.
    fn row_at(&self, actor: u32, place: u32) -> [bool; 64]
        ensures row { (i : ℕ) → i < 64 → get_or result i false ≡ row_has (row_of self.now actor place) i }
    {
        match self.rows.get(&(actor, place)) {
            Some(row) => *row,
            None => [false; 64],
        }
    }

    /// The actor gets the number too.
    pub fn insert(&mut self, actor: u32, number: u32) -> Result<(), AllocError>
        ensures { OnOk result ((i n : ℕ) → holds self.new i n ≡ cond (nat_eq actor i && nat_eq number n) true (holds self.old i n)) }
    {
        let place = number / ROW;
        let mut row = self.row_at(actor, place);
        row[(number % ROW) as usize] = true;
        self.rows.insert((actor, place), row)?;
        Ok(())
    }
}
