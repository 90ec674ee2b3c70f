//! The point of a change, as the machine of a put and of a delete tells it: none before the step that makes the change, and after it
//! the one that the call ends with.

ghost use Rattle.std.specs.Prelude.{◌≡◌, true, None};
ghost use Rattle.version_seal.specs.Sealer.{sealer_at};
ghost use Rattle.client_put.specs.Puts.{is_put};
ghost use Rattle.store_core.specs.Agreement.{AgreesWithSeat};
ghost use Rattle.stripe_dir.specs.Seats.{client_seat};
ghost use Rattle.store_tests.specs.Walk.{IsWalk, AreOf};

use crate::sealed_chunk_tests::small_geometry;
use crate::walk::{Fault, TURNS, begin, put_of_a_stripe, servers, step};
use call_steps::{Act, DirectoryAct, Need, Outcome};
use chunk_server::Server;
use client_patch::PatchCall;
use client_put::PutCall;
use std::alloc::Global;
use std::test::Fail;
use std::thread::Threads;
use store_map::{Actor, Call, Name, Point, Reply};
use stripe_dir::{Directory, Seat};
use version_seal::{Book, Sealer};

// The point of a change that was answered.
fn point_of(outcome: &Outcome) -> Option<Point> {
    match outcome {
        Outcome::Answered {
            point,
            reply: Reply::Done,
        } => Some(*point),
        _ => None,
    }
}

// The put tells no point before its commit, and the first one from then on.
fn drive<R: Threads + Sync>(
    rt: &R,
    book: &Book,
    directory: &mut Directory,
    servers: &mut [Server],
    put: &mut PutCall<'_>,
) -> Result<(), Fault>
    requires walk { IsWalk book.now directory.old put.old.call }
    requires servers { AreOf book.now servers.old }
    ensures { IsWalk book.now directory.new put.new.call }
{
    let mut told = None;
    for _turn in 0..TURNS {
        if put.committed() != told {
            return Err("a point beside the put's commit");
        }
        let commits = put.act() == Act::Directory(DirectoryAct::Commit);
        let _answer = step(rt, book, directory, servers, put);
        if commits {
            told = Some(Point(0));
        }
    }
    Ok(())
}

// The put tells the point that it ends with.
fn put_ends(put: PutCall<'_>) -> Result<(), Fault> {
    let told = put.committed();
    let Need::Finished = put.need() else {
        put.leave();
        return Err("the put goes on");
    };
    let (seat, outcome, _takes) = put.finish();
    seat.leave();
    if told != Some(Point(0)) || point_of(&outcome) != told {
        return Err("the put's point");
    }
    Ok(())
}

// A delete is over with its look. It tells no point before that, and then the one that it ends with.
fn deletes(
    alloc: Global,
    directory: &mut Directory,
    book: &Book,
    seat: Seat,
    name: Name,
) -> Result<(), Fault>
    requires agrees { AgreesWithSeat directory.old.core seat }
    requires seat { seat ≡ client_seat 1 }
    requires free { book.now.script ≡ None }
    requires book { directory.old.book ≡ book.now }
{
    let call = Call::Delete { name };
    let mut delete = PatchCall::new(alloc, seat, Actor::Client(1), 0, &call, book.opening(), 1);
    let before = delete.committed();
    if let Need::Directory = delete.need() {
        delete.advance(directory, book);
    }
    let told = delete.committed();
    let Need::Finished = delete.need() else {
        let _takes = delete.abandon();
        return Err("the delete goes on");
    };
    let (seat, outcome, _takes) = delete.finish();
    seat.leave();
    if before.is_some() || told != Some(Point(1)) || point_of(&outcome) != told {
        return Err("the delete's point");
    }
    Ok(())
}

// The put, and then client 1's delete of what it left.
#[tactic(auto, using(crate::proofs::Walks::still_waits))]
fn tell_points<R: Threads + Sync>(
    rt: &R,
    alloc: Global,
    book: &Book,
    sealer: Sealer,
    call: &Call,
    name: Name,
) -> Result<(), Fail>
    requires free { book.now.script ≡ None }
    requires sealer { sealer ≡ sealer_at book.now 0 }
    requires call { is_put call.now ≡ true }
{
    let mut servers = servers(alloc, book)?;
    let (mut directory, mut put, waiting) = begin(alloc, book, sealer, call)?;
    let driven = drive(rt, book, &mut directory, &mut servers, &mut put);
    let ended = put_ends(put);
    let deleted = deletes(alloc, &mut directory, book, waiting, name);
    Ok(driven.and(ended).and(deleted)?)
}

#[test]
fn points_are_told_from_the_change_on(rt: HostRuntime) -> Result<(), Fail> {
    let alloc = rt.alloc();
    let (book, sealer) = Book::free(alloc, small_geometry()?)?;
    let call = put_of_a_stripe(alloc)?;
    let name = Name::new(alloc, "a")?;
    tell_points(&rt, alloc, &book, sealer, &call, name)
}
