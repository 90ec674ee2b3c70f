//! Steps at one directory.

use crate::bench_words::number_at;
use crate::timed_steps::{Measured, prepare, work};
use anyhow::bail;
use clay_grid::Geometry;
use dir_walks::test_caller::Refusal;
use dir_walks::test_store::Store;
use std::alloc::Global;
use version_seal::Book;

// Makes the steps in a directory of this size: how many versions were swept.
fn make(
    alloc: Global,
    store: &mut Store<'_>,
    measured: Measured,
    size: u32,
    steps: u32,
) -> Result<u64, Refusal> {
    prepare(alloc, store, measured, size)?;
    work(alloc, store, measured, size, steps)
}

// Makes the steps, and prints what they leave.
fn tell_steps(
    rt: &impl Print,
    alloc: Global,
    store: &mut Store<'_>,
    measured: Measured,
    size: u32,
    steps: u32,
) -> anyhow::Result<()> {
    let Ok(swept) = make(alloc, store, measured, size, steps) else {
        bail!("a step isn't made");
    };
    let directory = store.directory();
    let objects = directory.objects();
    let points = directory.points();
    println!(rt; "{objects} objects, {points} points, {swept} swept")?;
    Ok(())
}

// In a new directory, whose stripes have 8 bytes.
fn tell_anew(
    rt: &impl Print,
    alloc: Global,
    measured: Measured,
    size: u32,
    steps: u32,
) -> anyhow::Result<()> {
    let geometry = Geometry::new(2, 2, 1)?;
    let (book, sealer) = Book::free(alloc, geometry)?;
    let mut store = Store::open(alloc, &book, sealer, u32::MAX)?;
    let told = tell_steps(rt, alloc, &mut store, measured, size, steps);
    store.leave();
    told
}

// The words are a kind of step, how large the directory is before, and how many steps are made.
fn tell_kind(rt: &impl Print, alloc: Global, words: &[String]) -> anyhow::Result<()> {
    let Some(measured) = Measured::named(words) else {
        bail!("there is no such kind of step");
    };
    let (size, steps) = (number_at(words, 1)?, number_at(words, 2)?);
    tell_anew(rt, alloc, measured, size, steps)
}

/// The words come three by three.
pub fn make_steps(rt: &impl Print, alloc: Global, words: &[String]) -> anyhow::Result<()> {
    for three in words.chunks(3) {
        tell_kind(rt, alloc, three)?;
    }
    Ok(())
}
