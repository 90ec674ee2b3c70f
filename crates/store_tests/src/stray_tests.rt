//! Chunks of a put that was given up come to their servers after its version was swept. A scrub lists
//! them as strays, and they are dropped.

ghost use Rattle.std.specs.Prelude.{◌≡◌, None, IsTrue};
ghost use Rattle.version_seal.specs.Entry.{BookOf};
ghost use Rattle.version_seal.specs.Sealer.{sealer_at};
ghost use Rattle.store_scrub.specs.Lost.{ArePresent};
ghost use Rattle.store_tests.specs.Walk.{IsWalk, AreOf, AgreesStill};

use crate::sealed_chunk_tests::small_geometry;
use crate::walk::{Fault, TURNS, begin, put_of_a_stripe, servers, step};
use call_steps::{DirectoryAnswer, ServerAnswer, StepAnswer};
use chunk_server::Server;
use client_put::PutCall;
use std::alloc::Global;
use std::test::Fail;
use std::thread::Threads;
use store_map::{Actor, Placement, Point, Version};
use store_scrub::{Report, drop_strays, scrub};
use stripe_dir::Directory;
use version_seal::{Book, Sealer};

// Whether a chunk was placed at a server that was never emptied.
fn is_placed(answer: Option<StepAnswer>) -> bool {
    matches!(
        answer,
        Some(StepAnswer::Server(ServerAnswer::Prepared(Placement::At(0))))
    )
}

// Whether the put hears that it was given up at the first point.
fn is_reaped(answer: Option<StepAnswer>) -> bool {
    matches!(
        answer,
        Some(StepAnswer::Directory(DirectoryAnswer::Reaped { at: Point(0) }))
    )
}

// The put goes on until so many chunks more are placed.
fn place<R: Threads + Sync>(
    rt: &R,
    book: &Book,
    directory: &mut Directory,
    servers: &mut [Server],
    put: &mut PutCall<'_>,
    count: u32,
) -> Result<(), Fault>
    requires walk { IsWalk book.now directory.old put.old.call }
    requires servers { AreOf book.now servers.old }
    ensures walk { IsWalk book.now directory.new put.new.call }
    ensures servers { AreOf book.now servers.new }
{
    let mut placed: u32 = 0;
    for _turn in 0..TURNS {
        if placed == count {
            return Ok(());
        }
        let answer = step(rt, book, directory, servers, put);
        placed = placed.saturating_add(u32::from(is_placed(answer)));
    }
    Err("a chunk isn't placed")
}

// A server's chunk of the put's version is dropped.
#[tactic(auto, using(crate::proofs::Walks::one_set))]
fn discard(servers: &mut [Server], number: usize)
    ensures { (book : BookOf) → AreOf book servers.old → AreOf book servers.new }
{
    if number >= servers.len() {
        return;
    }
    let server = &mut servers[number];
    server.discard(Version(0));
}

// Whether a reap has the first point, and the version is garbage after it, and then nothing is.
fn is_swept(reaped: Option<Point>, taken: Option<Version>, left: Option<Version>) -> bool {
    reaped == Some(Point(0)) && taken == Some(Version(0)) && left.is_none()
}

// The operator gives the put up, and the sweeper takes its version and drops its chunks. Whether that went so.
fn give_up(directory: &mut Directory, servers: &mut [Server]) -> bool
    ensures directory { AgreesStill directory.old directory.new }
    ensures servers { (book : BookOf) → AreOf book servers.old → AreOf book servers.new }
{
    let reaped = directory.reap(Actor::Client(0));
    let taken = directory.next_garbage();
    discard(servers, 0);
    discard(servers, 1);
    discard(servers, 2);
    discard(servers, 3);
    directory.swept(Version(0));
    let left = directory.next_garbage();
    is_swept(reaped, taken, left)
}

// The put is given up after its first chunk came, and the others come once its version was swept. It hears so at its commit.
fn leave_strays<R: Threads + Sync>(
    rt: &R,
    book: &Book,
    directory: &mut Directory,
    servers: &mut [Server],
    put: &mut PutCall<'_>,
) -> Result<(), Fault>
    requires walk { IsWalk book.now directory.old put.old.call }
    requires servers { AreOf book.now servers.old }
{
    place(rt, book, directory, servers, put, 1)?;
    if !give_up(directory, servers) {
        return Err("the put is given up, and its version swept");
    }
    place(rt, book, directory, servers, put, 3)?;
    let answer = step(rt, book, directory, servers, put);
    if !is_reaped(answer) || directory.points() != 1 || directory.next_garbage().is_some() {
        return Err("the put's commit is refused, and nothing is left");
    }
    Ok(())
}

fn are_present(servers: &[Server]) -> bool
    ensures { IsTrue result → ArePresent servers.now }
{
    servers.iter().all(|server| !server.away())
}

// The report lists strays of version 0 at these servers and no others, and no lost chunk.
fn are_at(report: &Report, servers: &[u32]) -> Result<(), Fail> {
    if !report.lost.is_empty() || report.strays.len() != servers.len() {
        return Err(Fail::from("not what is to be listed"));
    }
    for (stray, server) in report.strays.iter().zip(servers) {
        if stray.server != *server || stray.stamp.version() != Version(0) {
            return Err(Fail::from("another stray"));
        }
    }
    Ok(())
}

fn scrubbed(alloc: Global, directory: &Directory, servers: &[Server]) -> Result<Report, Fail> {
    if servers.len() != directory.geometry().n() as usize || !are_present(servers) {
        return Err(Fail::from("not the servers of the directory"));
    }
    Ok(scrub(alloc, directory, servers)?)
}

fn are_dropped(alloc: Global, directory: &Directory, servers: &mut [Server]) -> Result<(), Fail> {
    let report = scrubbed(alloc, directory, servers)?;
    are_at(&report, &[1, 2, 3])?;
    drop_strays(servers, &report);
    are_at(&scrubbed(alloc, directory, servers)?, &[])
}

// The put's directory, once the put has left strays at the servers.
fn left_directory<R: Threads + Sync>(
    rt: &R,
    alloc: Global,
    book: &Book,
    sealer: Sealer,
    servers: &mut [Server],
) -> Result<Directory, Fail>
    requires free { book.now.script ≡ None }
    requires sealer { sealer ≡ sealer_at book.now 0 }
    requires servers { AreOf book.now servers.old }
{
    let call = put_of_a_stripe(alloc)?;
    let (mut directory, mut put, waiting) = begin(alloc, book, sealer, &call)?;
    let left = leave_strays(rt, book, &mut directory, servers, &mut put);
    put.leave();
    waiting.leave();
    left?;
    Ok(directory)
}

fn strays_go<R: Threads + Sync>(
    rt: &R,
    alloc: Global,
    book: &Book,
    sealer: Sealer,
) -> Result<(), Fail>
    requires free { book.now.script ≡ None }
    requires sealer { sealer ≡ sealer_at book.now 0 }
{
    let mut servers = servers(alloc, book)?;
    let directory = left_directory(rt, alloc, book, sealer, &mut servers)?;
    are_dropped(alloc, &directory, &mut servers)
}

#[test]
fn strays_of_a_swept_version(rt: HostRuntime) -> Result<(), Fail> {
    let (book, sealer) = Book::free(rt.alloc(), small_geometry()?)?;
    strays_go(&rt, rt.alloc(), &book, sealer)
}
