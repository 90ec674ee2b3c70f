//! Tests of the chunk server: steps at one server, each with what has to come of it. One function makes them all, so that each
//! of them is proved once.
use crate::holds;
use crate::sealed_chunk_tests::small_geometry;
use crate::shelf::Shelf;
use chunk_server::{Fetched, Installed, Presence, Server};
use std::alloc::Global;
use std::test::Fail;
use store_map::{Found, Placement, Version};
use version_seal::Book;

/// A step with versions by their numbers.
#[derive(Clone, Copy)]
pub enum Step<'a> {
    /// Is placed so.
    Prepare(u64, Placement),
    /// This is told.
    Install(u64, Installed),
    /// Of these layers it gives these bytes.
    Fetch(u64, &'a [u32], &'a [u8]),
    /// Neither a fetch nor a look finds the version, and they tell why.
    Lack(u64, Found),
    Settle(u64),
    Discard(u64),
    Wipe,
    Down,
    Up,
    /// How many chunks are held, how often the server was emptied, and how many subchunks it gave.
    Counts(usize, u64, u64),
    /// Whether it is away, and how often it was made so.
    Away(bool, u64),
    /// The version of its chunk at a place, which it tells that it has.
    HeldAt(usize, u64),
    /// It has no chunk at this place.
    Ends(usize),
}

// A fetch of these layers gives these bytes.
fn gives(shelf: &mut Shelf, version: u64, layers: &[u32], bytes: &[u8]) -> Result<(), Fail> {
    if !layers.iter().all(|layer| *layer < 4) {
        return Err(Fail::from("no such layer"));
    }
    match shelf.fetch(version, layers)? {
        Fetched::Part(part) => holds(part.bytes() == bytes, "fetch"),
        Fetched::Missing { .. } => Err(Fail::from("fetch: missing")),
    }
}

// Neither a fetch nor a look finds the version, and they tell why.
fn lacks(shelf: &mut Shelf, version: u64, why: Found) -> Result<(), Fail> {
    let look = shelf.server().has(Version(version));
    holds(look == Presence::Missing { found: why }, "look")?;
    match shelf.fetch(version, &[2])? {
        Fetched::Part(_) => Err(Fail::from("fetch: there")),
        Fetched::Missing { found } => holds(found == why, "fetch"),
    }
}

// Whether the server holds so many chunks, was emptied and gave subchunks so often.
fn has_counts(server: &Server, held: usize, epoch: u64, taken: u64) -> bool {
    server.held() == held && server.epoch() == epoch && server.taken() == taken
}

// Whether the server is away, and has been so often.
fn is_away(server: &Server, away: bool, downs: u64) -> bool {
    server.away() == away && server.downs() == downs
}

// The version of the server's chunk at this place.
fn version_at(server: &Server, place: usize) -> Option<Version> {
    server.stamp_at(place).map(|stamp| stamp.version())
}

// Whether the server is as the step says.
fn is_so(server: &Server, step: Step<'_>) -> bool {
    match step {
        Step::Counts(held, epoch, taken) => has_counts(server, held, epoch, taken),
        Step::Away(away, downs) => is_away(server, away, downs),
        Step::HeldAt(place, version) => {
            let version = Version(version);
            version_at(server, place) == Some(version) && server.has(version) == Presence::Here
        }
        Step::Ends(place) => version_at(server, place).is_none(),
        _ => true,
    }
}

fn make(shelf: &mut Shelf, alloc: Global, step: Step<'_>) -> Result<(), Fail> {
    match step {
        Step::Prepare(version, placed) => {
            holds(shelf.prepare(alloc, version)? == placed, "prepare")
        }
        Step::Install(version, wanted) => {
            holds(shelf.install(alloc, version)? == wanted, "install")
        }
        Step::Fetch(version, layers, bytes) => gives(shelf, version, layers, bytes),
        Step::Lack(version, why) => lacks(shelf, version, why),
        other => {
            shelf.change(other);
            holds(is_so(shelf.server(), other), "as it is to be")
        }
    }
}

fn make_all(shelf: &mut Shelf, alloc: Global, steps: &[Step<'_>]) -> Result<(), Fail> {
    for step in steps {
        make(shelf, alloc, *step)?;
    }
    Ok(())
}

// A new server tells its number and its code, and makes the steps.
fn walk(alloc: Global, steps: &[Step<'_>]) -> Result<(), Fail> {
    let geometry = small_geometry()?;
    let (book, sealer) = Book::free(alloc, geometry)?;
    let mut shelf = Shelf::new(alloc, &book, sealer)?;
    let server = shelf.server();
    holds(
        server.number() == 1 && server.geometry() == geometry,
        "number and code",
    )?;
    make_all(&mut shelf, alloc, steps)
}

#[test]
fn fetches_in_the_order_asked(rt: HostRuntime) -> Result<(), Fail> {
    let steps = [
        Step::Prepare(0, Placement::At(0)),
        Step::Fetch(0, &[1, 0], &[6, 5]),
        Step::Fetch(0, &[0, 1, 2, 3], &[5, 6, 7, 8]),
        Step::Fetch(0, &[3, 1, 3], &[8, 6, 8]),
        Step::Fetch(0, &[], &[]),
        Step::Counts(1, 0, 9),
    ];
    walk(rt.alloc(), &steps)
}

#[test]
fn a_held_version_keeps_its_chunk(rt: HostRuntime) -> Result<(), Fail> {
    let steps = [
        Step::Prepare(7, Placement::At(0)),
        Step::Install(7, Installed::AlreadyThere),
        Step::Install(3, Installed::Placed { epoch: 0 }),
        Step::Settle(7),
        Step::Settle(5),
        Step::Fetch(7, &[0, 1, 2, 3], &[5, 6, 7, 8]),
        Step::Counts(2, 0, 4),
        Step::HeldAt(0, 3),
        Step::HeldAt(1, 7),
        Step::Ends(2),
    ];
    walk(rt.alloc(), &steps)
}

#[test]
fn a_discard_leaves_the_others(rt: HostRuntime) -> Result<(), Fail> {
    let steps = [
        Step::Prepare(2, Placement::At(0)),
        Step::Prepare(3, Placement::At(0)),
        Step::Prepare(1, Placement::At(0)),
        Step::Discard(2),
        Step::Discard(4),
        Step::Counts(2, 0, 0),
        Step::HeldAt(0, 1),
        Step::HeldAt(1, 3),
        Step::Lack(2, Found::Absent { epoch: 0 }),
    ];
    walk(rt.alloc(), &steps)
}

#[test]
fn a_wipe_raises_the_epoch(rt: HostRuntime) -> Result<(), Fail> {
    let steps = [
        Step::Prepare(0, Placement::At(0)),
        Step::Fetch(0, &[1, 0], &[6, 5]),
        Step::Wipe,
        Step::Counts(0, 1, 2),
        Step::Lack(0, Found::Absent { epoch: 1 }),
        Step::Counts(0, 1, 2),
        Step::Install(1, Installed::Placed { epoch: 1 }),
        Step::Prepare(2, Placement::At(1)),
    ];
    walk(rt.alloc(), &steps)
}

#[test]
fn an_away_server_gives_and_takes_nothing(rt: HostRuntime) -> Result<(), Fail> {
    let steps = [
        Step::Prepare(0, Placement::At(0)),
        Step::Down,
        Step::Down,
        Step::Away(true, 2),
        Step::Lack(0, Found::Away { downs: 2 }),
        Step::Prepare(1, Placement::Skipped(2)),
        Step::Install(2, Installed::Away { downs: 2 }),
        Step::Up,
        Step::Away(false, 2),
        Step::Counts(1, 0, 0),
        Step::Fetch(0, &[1, 0], &[6, 5]),
    ];
    walk(rt.alloc(), &steps)
}
