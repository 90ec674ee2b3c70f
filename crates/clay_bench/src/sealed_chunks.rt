//! Sealed chunks of the first server, of versions of one stripe of zeros.

ghost use Rattle.std.specs.Prelude.{◌≡◌, ◌+◌, IfOk, OnOk, All, None, replicate};
ghost use Rattle.clay_grid.specs.Shape.{stripe_length};
ghost use Rattle.version_seal.specs.Chunk.{IsChunkOf};
ghost use Rattle.version_seal.specs.Sealer.{sealer_at};
ghost use Rattle.version_seal.specs.Room.{HasRoom};
ghost use Rattle.chunk_server.specs.Valid.{IsFor};
ghost use Rattle.clay_bench.specs.Puts.{IsEmpty, IsEmptyPut};

use crate::rack::VERSIONS;
use clay_grid::Geometry;
use clay_parity::encode;
use std::alloc::{AllocError, Global};
use store_map::{Actor, Call, Content, Name};
use version_seal::{Book, Request, ReserveError, Room, SealedChunk, Sealer, Stamp};

// A put with no bytes.
fn empty_put(alloc: Global) -> Result<Call, ReserveError>
    ensures { IfOk result IsEmpty }
{
    let Ok(name) = Name::new(alloc, "a") else {
        return Err(ReserveError::OutOfMemory);
    };
    let content = Content::Fill { byte: 0, length: 0 };
    Ok(Call::Put { name, content })
}

// What stands for it in a book.
fn empty_request(alloc: Global, book: &Book) -> Result<Request, ReserveError>
    ensures { IfOk result (IsEmptyPut book.now) }
{
    let call = empty_put(alloc)?;
    Ok(book.request(Actor::Client(0), 0, &call))
}

// Seals the next version of its stripe, which has zeros alone.
fn seal(
    book: &Book,
    sealer: &mut Sealer,
    room: &Room,
    request: &Request,
) -> Result<Stamp, ReserveError>
    requires script { book.now.script ≡ None }
    requires sealer { sealer.old.home ≡ book.now.home }
    requires room { HasRoom book.now sealer.old.next room.now }
    requires request { IsEmptyPut book.now request.now }
    ensures on { OnOk result (sealer.new ≡ sealer_at book.now (sealer.old.next + 1)) }
    ensures home { IfOk result (λ stamp. stamp.home ≡ book.now.home) }
    ensures zeros { IfOk result (λ stamp. stamp.content ≡ replicate (stripe_length book.now.geometry) 0) }
{
    match book.seal(sealer, room, Actor::Client(0), 0, 0, Some(request), None) {
        Ok(stamp) => Ok(stamp),
        Err(_) => Err(ReserveError::Contended),
    }
}

// The first server's chunk of a stripe of zeros.
fn zeros(alloc: Global, geometry: Geometry) -> Result<Vec<u8>, AllocError>
    ensures { IfOk result (λ bytes. IsChunkOf geometry (replicate (stripe_length geometry) 0) 0 bytes.items) }
{
    let stripe = vec![in alloc; 0u8; geometry.stripe_len() as usize]?;
    let word = encode(alloc, geometry, &stripe)?;
    Vec::from_slice(alloc, &word[0])
}

// The first server's chunk of such a version.
fn chunk_of(
    alloc: Global,
    geometry: Geometry,
    book: &Book,
    sealer: &mut Sealer,
    room: &Room,
    request: &Request,
) -> Result<SealedChunk, ReserveError>
    requires script { book.now.script ≡ None }
    requires code { book.now.geometry ≡ geometry }
    requires sealer { sealer.old.home ≡ book.now.home }
    requires room { HasRoom book.now sealer.old.next room.now }
    requires request { IsEmptyPut book.now request.now }
    ensures chunk { IfOk result (IsFor book.now.home 0 geometry) }
    ensures on { OnOk result (sealer.new ≡ sealer_at book.now (sealer.old.next + 1)) }
{
    let stamp = seal(book, sealer, room, request)?;
    Ok(SealedChunk::new(geometry, stamp, 0, zeros(alloc, geometry)?))
}

// The first server's chunks of the versions that have room, the last one first.
fn chunks_in(
    alloc: Global,
    geometry: Geometry,
    book: &Book,
    sealer: &mut Sealer,
    room: &Room,
    request: &Request,
) -> anyhow::Result<Vec<SealedChunk>>
    requires script { book.now.script ≡ None }
    requires code { book.now.geometry ≡ geometry }
    requires sealer { sealer.old.home ≡ book.now.home }
    requires room { room.now ≡ record { home = book.now.home; first = sealer.old.next; count = 256 } }
    requires request { IsEmptyPut book.now request.now }
    ensures { IfOk result (λ chunks. All (IsFor book.now.home 0 geometry) chunks.items) }
{
    let mut chunks = Vec::new(alloc);
    for _version in 0..VERSIONS {
        chunks.push(chunk_of(alloc, geometry, book, sealer, room, request)?)?;
    }
    chunks.reverse();
    Ok(chunks)
}

/// The first server's chunks of versions of one stripe, the last version first.
pub fn chunks_of(
    alloc: Global,
    geometry: Geometry,
    book: &Book,
    mut sealer: Sealer,
) -> anyhow::Result<Vec<SealedChunk>>
    requires script { book.now.script ≡ None }
    requires code { book.now.geometry ≡ geometry }
    requires sealer { sealer.home ≡ book.now.home }
    ensures { IfOk result (λ chunks. All (IsFor book.now.home 0 geometry) chunks.items) }
{
    let request = empty_request(alloc, book)?;
    let room = book.reserve(sealer.next(), VERSIONS)?;
    chunks_in(alloc, geometry, book, &mut sealer, &room, &request)
}
