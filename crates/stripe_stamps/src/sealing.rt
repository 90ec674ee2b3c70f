//! The stamps of a draw: each version is sealed over the one that its pass pinned, if it did.
ghost use Rattle.std.specs.Prelude.{◌≡◌, ◌+◌, ◌<◌, ◌≤◌, ◌^◌, ◌++◌, length, slice_get, Some, IfOk, OnOk, OnErr, vec_len, vec_capacity, option_map};
ghost use Rattle.version_seal.specs.Room.{HasRoom};
ghost use Rattle.version_seal.specs.Sealer.{sealer_at};
ghost use Rattle.stripe_stamps.specs.Sealed.{base_stamp};
ghost use Rattle.stripe_stamps.specs.DrawnStamps.{stamp_at, stamps_of, CanSealAll};
ghost use Rattle.stripe_stamps.specs.Stamped.{AreNumbered, AreOf, AreBases};

use dir_parts::{OpenPass, Pinned};
use std::alloc::AllocError;
use version_seal::{Book, Request, Room, SealError, Sealer, Stamp};
use version_table::base_of;

/// A draw: the book, the pass, the stripes from a first one on, and in a book without a script the request.
#[derive(Drop)]
pub struct Drawing<'a> {
    pub book: &'a Book,
    pub pass: &'a OpenPass,
    pub first: u32,
    pub count: u32,
    pub request: Option<&'a Request>,
}

// The stamp of the version that the pins name for a stripe, if they name one.
fn base_stamp<'a>(stamps: &'a [Stamp], pins: &[Pinned], stripe: u32) -> Option<&'a Stamp>
    ensures { option_map (λ stamp. stamp.now) result ≡ base_stamp stamps.now pins.now stripe }
{
    let version = base_of(pins, stripe)?;
    stamps.get(version as usize)
}

/// The same stamp as a version has.
pub(crate) fn copy_of(stamps: &[Stamp], version: u64) -> Stamp
    requires there { version < length stamps.now }
    requires numbered { AreNumbered stamps.now }
    ensures stamp { slice_get stamps.now version ≡ Some result }
    ensures version { result.version ≡ version }
{
    stamps[version as usize].copy()
}

// Seals the version at this place of a draw.
fn seal_one(
    sealer: &mut Sealer,
    drawing: &Drawing,
    room: &Room,
    stamps: &[Stamp],
    place: u32,
) -> Result<Stamp, SealError>
    requires sealer { sealer.old ≡ sealer_at drawing.now.book.now (length stamps.now + place) }
    requires stripes { drawing.now.first + place < 2 ^ 32 }
    requires room { HasRoom drawing.now.book.now (length stamps.now + place) room.now }
    requires call { CanSealAll drawing.now }
    requires stamps { AreOf drawing.now.book.now stamps.now }
    requires bases { AreBases stamps.now drawing.now.pass.now.pass.pinned }
    ensures stamp { IfOk result (λ stamp. stamp ≡ stamp_at drawing.now stamps.now place) }
    ensures on { OnOk result (sealer.new ≡ sealer_at drawing.now.book.now (length stamps.now + place + 1)) }
    ensures back { OnErr result (sealer.new ≡ sealer_at drawing.now.book.now room.now.first) }
{
    let pass = drawing.pass;
    let stripe = drawing.first + place;
    let base = base_stamp(stamps, &pass.pinned, stripe);
    drawing.book.seal(
        sealer,
        room,
        pass.actor,
        pass.number,
        stripe,
        drawing.request,
        base,
    )
}

/// Seals the versions of a draw. Takes all memory first; where that is wanting the sealer stays.
pub(crate) fn seal_all(
    sealer: &mut Sealer,
    drawing: &Drawing,
    stamps: &[Stamp],
) -> Result<Vec<Stamp>, AllocError>
    requires sealer { sealer.old ≡ sealer_at drawing.now.book.now (length stamps.now) }
    requires stripes { drawing.now.first + drawing.now.count ≤ 2 ^ 32 }
    requires call { CanSealAll drawing.now }
    requires stamps { AreOf drawing.now.book.now stamps.now }
    requires bases { AreBases stamps.now drawing.now.pass.now.pass.pinned }
    ensures fresh { IfOk result (λ fresh. fresh.items ≡ stamps_of drawing.now stamps.now) }
    ensures on { OnOk result (sealer.new ≡ sealer_at drawing.now.book.now (length stamps.now + drawing.now.count)) }
    ensures err { OnErr result (sealer.new ≡ sealer.old) }
{
    let count = drawing.count;
    let pass = drawing.pass;
    let alloc = *pass.drawn.allocator();
    let mut fresh = Vec::with_capacity(alloc, count as usize)?;
    let from = sealer.next();
    let Ok(room) = drawing.book.reserve(from, u64::from(count)) else {
        return Err(AllocError);
    };
    for i in 0..count {
        // No version is refused, since no other seals in this book; the sealer would go back.
        let Ok(stamp) = seal_one(sealer, drawing, &room, stamps, i) else {
            return Err(AllocError);
        };
        fresh.push_reserved(stamp);
    }
    Ok(fresh)
}

/// The same stamps after the others, where there is room for them.
pub(crate) fn add_copies(listed: &mut Vec<Stamp>, fresh: &[Stamp])
    requires { vec_len listed.old + length fresh.now ≤ vec_capacity listed.old }
    ensures { listed.new.items ≡ listed.old.items ++ fresh.now }
{
    for stamp in fresh {
        listed.push_reserved(stamp.copy());
    }
}
