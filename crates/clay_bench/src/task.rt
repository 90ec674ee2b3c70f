//! What a coder does, and what it takes for it.

ghost use Rattle.std.specs.Prelude.{◌≡◌, length, IfOk, IfSome, is_none, IsTrue};
ghost use Rattle.clay_grid.specs.Shape.{stripe_length};
ghost use Rattle.clay_bench.specs.Tasks.{piece_length, IsGone, ArePieces, Takes};

use clay_grid::Geometry;
use clay_lanes::missing_count;
use std::alloc::{AllocError, Global};

/// The byte of which all chunks are made.
pub const BYTE: u8 = 0x5a;

/// Which chunks are missing: the first one, those of the first column, or as many in several columns.
#[derive(Clone, Copy)]
pub enum Loss {
    One,
    Column,
    Spread,
}

/// What a coder does with a stripe, or with what is left of its chunks.
#[derive(Clone, Copy)]
pub enum Task {
    Encode,
    Recover(Loss),
    /// Of the first chunk.
    Rebuild,
}

impl Task {
    /// That which a word names.
    pub fn named(word: &str) -> Option<Task> {
        match word {
            "encode" => Some(Task::Encode),
            "one" => Some(Task::Recover(Loss::One)),
            "column" => Some(Task::Recover(Loss::Column)),
            "spread" => Some(Task::Recover(Loss::Spread)),
            "rebuild" => Some(Task::Rebuild),
            _ => None,
        }
    }
}

// Whether a chunk is among as many in several columns as there are parity chunks: data chunks with a column and one between them, and
// for those that there aren't, parity chunks.
fn is_spread(g: Geometry, chunk: u32) -> bool {
    let step = g.m() + 1;
    if chunk < g.k() {
        chunk % step == 0 && chunk / step < g.m()
    } else {
        (chunk - g.k()).saturating_mul(step) >= g.k()
    }
}

// Whether a chunk is missing.
fn is_gone(g: Geometry, task: Task, chunk: u32) -> bool
    ensures { IsGone task chunk result }
{
    match task {
        Task::Encode => false,
        Task::Recover(Loss::Column) => chunk < g.m(),
        Task::Recover(Loss::Spread) => is_spread(g, chunk),
        Task::Recover(Loss::One) | Task::Rebuild => chunk == 0,
    }
}

// The bytes that a task takes of each chunk that is there.
fn piece_len(g: Geometry, task: Task) -> usize
    ensures { result ≡ piece_length task g }
{
    match task {
        Task::Rebuild => g.stride(0) as usize * g.w() as usize,
        _ => g.chunk_len() as usize,
    }
}

// Some bytes, unless they are missing.
fn piece(alloc: Global, len: usize, missing: bool) -> Result<Option<Vec<u8>>, AllocError>
    ensures none { IfOk result (λ piece. is_none piece ≡ missing) }
    ensures len { IfOk result (λ piece. IfSome piece (λ bytes. length bytes.items ≡ len)) }
{
    if missing {
        return Ok(None);
    }
    Ok(Some(vec![in alloc; BYTE; len]?))
}

/// What a task takes of the chunks.
pub fn pieces_of(alloc: Global, g: Geometry, task: Task) -> Result<Vec<Option<Vec<u8>>>, AllocError>
    ensures { IfOk result (λ pieces. ArePieces task g pieces.items) }
{
    let len = piece_len(g, task);
    let mut pieces = Vec::new(alloc);
    for c in 0..g.n() {
        pieces.push(piece(alloc, len, is_gone(g, task, c))?)?;
    }
    Ok(pieces)
}

/// Whether no more chunks are missing than can be recovered.
pub fn is_possible(g: Geometry, task: Task, stripe: &[u8], pieces: &[Option<Vec<u8>>]) -> bool
    requires stripe { length stripe.now ≡ stripe_length g }
    requires pieces { ArePieces task g pieces.now }
    ensures { IsTrue result → Takes task g stripe.now pieces.now }
{
    match task {
        Task::Recover(_) => missing_count(pieces) <= g.m() as usize,
        Task::Encode | Task::Rebuild => true,
    }
}
