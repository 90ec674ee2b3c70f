//! Chunks of a put of one stripe, sealed in a book without a script.

ghost use Rattle.std.specs.Prelude.{◌≡◌, ◌+◌, ◌<◌, ◌∷◌, [], Some, IfOk, OnOk, length, All};
ghost use Rattle.clay_grid.specs.Shape.{chunk_count};
ghost use Rattle.version_seal.specs.Entry.{IsBaseIn};
ghost use Rattle.version_seal.specs.Sealer.{sealer_at};
ghost use Rattle.clay_model.specs.Left.{AreLong};
ghost use Rattle.store_tests.specs.Small.{small_code, stripe_bytes, IsSmall, IsStampOf, IsStripeOf, IsChunkFor};

use chunk_server::{Fetched, Server};
use clay_grid::Geometry;
use clay_parity::encode;
use std::alloc::{AllocError, Global};
use std::test::Fail;
use store_map::{Actor, Call, Content, Name};
use version_seal::{Book, SealedChunk, SealedPart, Sealer, Stamp};

/// The code of all these: 2 data chunks and 2 parity chunks of 4 subchunks of a byte.
pub fn small_geometry() -> Result<Geometry, Fail>
    ensures { IfOk result (λ g. g ≡ small_code) }
{
    Ok(Geometry::new(2, 2, 1)?)
}

/// The bytes that the put puts.
pub fn stripe(alloc: Global) -> Result<Vec<u8>, Fail>
    ensures { IfOk result (λ bytes. bytes.items ≡ stripe_bytes) }
{
    Ok(Vec::from_slice(alloc, &[1, 2, 3, 4, 5, 6, 7, 8])?)
}

/// Seals the next version as one that the put drew.
pub fn stamp(alloc: Global, book: &Book, sealer: &mut Sealer) -> Result<Stamp, Fail>
    requires book { IsSmall book.now }
    requires sealer { sealer.old.home ≡ book.now.home }
    ensures stamp { IfOk result (IsStampOf book.now sealer.old.next) }
    ensures on { OnOk result (sealer.new ≡ sealer_at book.now (sealer.old.next + 1)) }
{
    let name = Name::new(alloc, "a")?;
    let content = Content::Ramp {
        first: 1,
        length: 8,
    };
    let actor = Actor::Client(0);
    let request = book.request(actor, 0, &Call::Put { name, content });
    let room = book.reserve(sealer.next(), 1)?;
    Ok(book.seal(sealer, &room, actor, 0, 0, Some(&request), None)?)
}

/// Seals so many versions.
pub fn stamps(
    alloc: Global,
    book: &Book,
    mut sealer: Sealer,
    count: u32,
) -> Result<Vec<Stamp>, Fail>
    requires book { IsSmall book.now }
    requires sealer { sealer.home ≡ book.now.home }
    ensures { IfOk result (λ stamps. All (IsStripeOf book.now) stamps.items) }
{
    let mut stamps = Vec::new(alloc);
    for _sealed in 0..count {
        stamps.push(stamp(alloc, book, &mut sealer)?)?;
    }
    Ok(stamps)
}

/// A server's chunk of such a version.
pub fn chunk(alloc: Global, book: &Book, stamp: &Stamp, server: u32) -> Result<SealedChunk, Fail>
    requires book { IsSmall book.now }
    requires stamp { stamp.now.content ≡ stripe_bytes }
    requires server { server < 4 }
    ensures { IfOk result (IsChunkFor stamp.now server) }
{
    let g = small_geometry()?;
    let chunks = encode(alloc, g, &stripe(alloc)?)?;
    let bytes = Vec::from_slice(alloc, &chunks[server as usize])?;
    Ok(SealedChunk::new(g, stamp.copy(), server, bytes))
}

/// Seals a write of the stripe's first bytes over an older version.
pub fn stamp_over(
    alloc: Global,
    book: &Book,
    sealer: &mut Sealer,
    base: &Stamp,
) -> Result<Stamp, Fail>
    requires book { IsSmall book.now }
    requires sealer { sealer.old.home ≡ book.now.home }
    requires base { IsBaseIn book.now sealer.old.next 0 base.now }
    ensures { IfOk result (λ stamp. (stamp.home ≡ book.now.home) × (stamp.base ≡ Some base.now.version)) }
{
    let name = Name::new(alloc, "a")?;
    let content = Content::Fill { byte: 9, length: 3 };
    let actor = Actor::Client(0);
    let call = Call::Write {
        name,
        offset: 0,
        content,
    };
    let request = book.request(actor, 1, &call);
    let room = book.reserve(sealer.next(), 1)?;
    Ok(book.seal(sealer, &room, actor, 1, 0, Some(&request), Some(base))?)
}

/// The subchunks of a server's chunk at layers that there are.
pub fn part(
    alloc: Global,
    book: &Book,
    stamp: &Stamp,
    server: u32,
    layers: &[u32],
) -> Result<SealedPart, Fail>
    requires book { IsSmall book.now }
    requires stamp { stamp.now.content ≡ stripe_bytes }
    requires server { server < 4 }
    requires layers { All (λ layer. layer < 4) layers.now }
{
    Ok(chunk(alloc, book, stamp, server)?.part(layers)?)
}

/// What a server gives of its chunk: all of it.
pub fn fetched(alloc: Global, book: &Book, stamp: &Stamp, server: u32) -> Result<SealedPart, Fail>
    requires book { IsSmall book.now }
    requires stamp { IsStampOf book.now stamp.now.version stamp.now }
    requires server { server < 4 }
    ensures { IfOk result (λ part. length part.bytes ≡ 4) }
{
    let mut at = Server::new(alloc, server, book.opening());
    at.prepare(chunk(alloc, book, stamp, server)?)?;
    match at.fetch(stamp.version(), &[0, 1, 2, 3])? {
        Fetched::Part(part) => Ok(part),
        Fetched::Missing { found: _ } => Err(AllocError)?,
    }
}

/// Two of the four chunks.
pub fn gathered(
    alloc: Global,
    second: &SealedPart,
    last: &SealedPart,
) -> Result<Vec<Option<Vec<u8>>>, Fail>
    requires { (length second.now.bytes ≡ 4) × (length last.now.bytes ≡ 4) }
    ensures count { IfOk result (λ have. length have.items ≡ chunk_count small_code) }
    ensures lengths { IfOk result (λ have. AreLong 4 have.items) }
{
    let second = Vec::from_slice(alloc, second.bytes())?;
    let last = Vec::from_slice(alloc, last.bytes())?;
    Ok(vec![in alloc; None, Some(second), None, Some(last)]?)
}
