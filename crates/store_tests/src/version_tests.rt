//! Tests of sealed versions.
ghost use Rattle.std.specs.Prelude.{◌≡◌, None, Some, IfOk, IsTrue};
ghost use Rattle.store_tests.specs.Small.{IsSmall, IsStampOf};
ghost use Rattle.store_map.specs.declared.actor.Actor.TheVariants.{Client};
ghost use Rattle.store_core.specs.History.{call_of};
ghost use Rattle.version_seal.specs.Entry.{is_writing};
ghost use Rattle.version_seal.specs.Sealer.{sealer_at};

use crate::holds;
use crate::sealed_chunk_tests::{
    fetched, gathered, part, small_geometry, stamp, stamp_over, stripe,
};
use clay_lanes::decode;
use std::alloc::Global;
use std::test::Fail;
use std::thread;
use std::thread::Threads;
use store_map::{Actor, Call, ClientPart, Content, ListOf, Name, Script, Version};
use version_seal::{Book, ReserveError, SealedPart, Sealer, Stamp};

// What a thread reads of a version: its call by actor and number, its stripe, and the version under it.
type Seen = (Actor, u32, u32, Option<u64>);

fn read(book: &Book, stamp: &Stamp) -> Seen
    requires { stamp.now.home ≡ book.now.home }
{
    let note = book.note(stamp);
    (note.actor, note.number, note.stripe, note.base)
}

// Whether it is the first stripe, of the client's call of this number, over that version.
fn is_seen(seen: Seen, number: u32, base: Option<u64>) -> bool {
    seen.0 == Actor::Client(0) && seen.1 == number && seen.2 == 0 && seen.3 == base
}

// Seals a write over a version, and reads it.
fn seal_and_read(
    alloc: Global,
    book: &Book,
    sealer: &mut Sealer,
    base: &Stamp,
) -> Result<Seen, Fail>
    requires book { IsSmall book.now }
    requires sealer { sealer.old ≡ sealer_at book.now 1 }
    requires base { IsStampOf book.now 0 base.now }
{
    let next = stamp_over(alloc, book, sealer, base)?;
    Ok(read(book, &next))
}

// One thread reads a version while the other seals the next.
fn both<R: Threads + Sync>(
    rt: &R,
    alloc: Global,
    book: &Book,
    sealer: &mut Sealer,
    first: &Stamp,
) -> (Seen, Result<Seen, Fail>)
    requires book { IsSmall book.now }
    requires sealer { sealer.old ≡ sealer_at book.now 1 }
    requires first { IsStampOf book.now 0 first.now }
{
    thread::join(
        rt,
        || read(book, first),
        || seal_and_read(alloc, book, sealer, first),
    )
}

fn both_see<R: Threads + Sync>(
    rt: &R,
    alloc: Global,
    book: &Book,
    sealer: &mut Sealer,
    first: &Stamp,
) -> Result<(), Fail>
    requires book { IsSmall book.now }
    requires sealer { sealer.old ≡ sealer_at book.now 1 }
    requires first { IsStampOf book.now 0 first.now }
{
    let (read, sealed) = both(rt, alloc, book, sealer, first);
    holds(is_seen(sealed?, 1, Some(0)), "seal")?;
    holds(is_seen(read, 0, None), "read")
}

// Whether the part is server 1's, of version 0.
fn is_second(part: &SealedPart) -> bool {
    part.server() == 1
        && part.stamp().version() == Version(0)
        && part.bytes() == [5, 6, 7, 8].as_slice()
}

// Whether the chunks' data is that of the stripe.
fn has_stripe(chunks: &[Vec<u8>], bytes: &[u8]) -> bool {
    chunks.iter().take(2).flatten().eq(bytes.iter())
}

fn decodes(alloc: Global, book: &Book, first: &Stamp) -> Result<(), Fail>
    requires book { IsSmall book.now }
    requires first { IsStampOf book.now 0 first.now }
{
    let second = fetched(alloc, book, first, 1)?;
    let last = fetched(alloc, book, first, 3)?;
    holds(is_second(&second), "fetch")?;
    let chunks = decode(alloc, small_geometry()?, &gathered(alloc, &second, &last)?)?;
    holds(has_stripe(&chunks, &stripe(alloc)?), "decode")
}

fn tells_its_version(alloc: Global, first: &Stamp) -> Result<(), Fail> {
    let shown = format!(in alloc; "{first:?}")?;
    holds(shown.as_str() == "Stamp(0)", "stamp")
}

// Whether there is room for so many versions from this one on.
fn has_room(book: &Book, first: u64, count: u64) -> bool {
    book.reserve(Version(first), count).is_ok()
}

fn is_full(book: &Book, first: u64, count: u64) -> bool {
    matches!(book.reserve(Version(first), count), Err(ReserveError::Full))
}

fn ends(book: &Book) -> Result<(), Fail> {
    let past = 1 << 28;
    holds(has_room(book, past - 1, 1), "last")?;
    holds(has_room(book, 4000, 5000), "two rows")?;
    holds(has_room(book, past, 0), "none")?;
    for (first, count) in [(past, 1), (past - 1, 2), (u64::MAX, u64::MAX)] {
        holds(is_full(book, first, count), "past")?;
    }
    Ok(())
}

fn parts(alloc: Global, book: &Book, first: &Stamp) -> Result<(), Fail>
    requires book { IsSmall book.now }
    requires first { IsStampOf book.now 0 first.now }
{
    let two = part(alloc, book, first, 1, &[3, 0])?;
    holds(two.bytes() == [8, 5].as_slice(), "bytes")
}

// The first version is read by its chunks, and by one thread while another one seals the next over it.
fn is_read<R: Threads + Sync>(
    rt: &R,
    alloc: Global,
    book: &Book,
    sealer: &mut Sealer,
    first: &Stamp,
) -> Result<(), Fail>
    requires book { IsSmall book.now }
    requires sealer { sealer.old ≡ sealer_at book.now 1 }
    requires first { IsStampOf book.now 0 first.now }
{
    holds(sealer.next() == Version(1), "next")?;
    tells_its_version(alloc, first)?;
    decodes(alloc, book, first)?;
    parts(alloc, book, first)?;
    both_see(rt, alloc, book, sealer, first)
}

#[test]
fn versions_are_sealed_and_read(rt: HostRuntime) -> Result<(), Fail> {
    let (book, mut sealer) = Book::free(rt.alloc(), small_geometry()?)?;
    ends(&book)?;
    let first = stamp(rt.alloc(), &book, &mut sealer)?;
    is_read(&rt, rt.alloc(), &book, &mut sealer, &first)
}

// A script of one put.
fn one_put(alloc: Global) -> Result<Script, Fail>
    ensures { IfOk result (λ script. IsTrue (is_writing (call_of script (Client 0) 0))) }
{
    let name = Name::new(alloc, "a")?;
    let content = Content::Fill { byte: 7, length: 3 };
    let mut calls = ListOf::new(alloc);
    calls.push(Call::Put { name, content })?;
    let mut clients = ListOf::new(alloc);
    clients.push(ClientPart { calls, leave: None })?;
    Ok(Script {
        form: 1,
        geometry: small_geometry()?,
        size: None,
        tries: None,
        clients,
        repairers: ListOf::new(alloc),
        schedule: ListOf::new(alloc),
    })
}

// The book has room for as many versions as a script may draw, and tells its script.
fn is_of_one_client(book: &Book) -> Result<(), Fail> {
    holds(has_room(book, 2_097_151, 1), "last")?;
    holds(!has_room(book, 2_097_152, 1), "past")?;
    let clients = book.script().map(|script| script.clients.len());
    holds(clients == Some(1), "script")?;
    holds(
        book.opening().copy().geometry() == small_geometry()?,
        "geometry",
    )
}

#[test]
fn a_script_has_room_for_its_versions(rt: HostRuntime) -> Result<(), Fail> {
    let (book, mut sealer) = Book::new(rt.alloc(), one_put(rt.alloc())?)?;
    let actor = Actor::Client(0);
    let room = book.reserve(sealer.next(), 1)?;
    let first = book.seal(&mut sealer, &room, actor, 0, 0, None, None)?;
    holds(first.version() == Version(0), "first")?;
    is_of_one_client(&book)
}
