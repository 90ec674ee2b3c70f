//! A put of one stripe in work at a directory and its four servers, while another client waits.

ghost use Rattle.std.specs.Prelude.{◌≡◌, ◌<◌, ◌∷◌, ◌++◌, [], length, true, None, IfOk};
ghost use Rattle.version_seal.specs.Sealer.{sealer_at};
ghost use Rattle.stripe_dir.specs.Seats.{client_seat};
ghost use Rattle.call_steps.specs.Steps.{need_of};
ghost use Rattle.client_put.specs.Puts.{is_put};
ghost use Rattle.store_tests.specs.Walk.{IsWalk, AreOf, KeepsTicket};

use call_steps::{DirectoryAnswer, Need, StepAnswer};
use chunk_server::Server;
use clay_lanes::LaneCoder;
use client_put::PutCall;
use std::alloc::{AllocError, Global};
use std::test::Fail;
use std::thread::Threads;
use store_map::{Actor, Call, Content, Name};
use stripe_dir::{Directory, Seat};
use version_seal::{Book, Sealer};

/// What isn't as it has to be.
pub type Fault = &'static str;

/// Enough steps for a put of one stripe at four servers.
pub const TURNS: u32 = 32;

/// The put.
pub fn put_of_a_stripe(alloc: Global) -> Result<Call, Fail>
    ensures { IfOk result (λ call. is_put call ≡ true) }
{
    let name = Name::new(alloc, "a")?;
    let content = Content::Ramp {
        first: 1,
        length: 8,
    };
    Ok(Call::Put { name, content })
}

/// The four servers of a book.
pub fn servers(alloc: Global, book: &Book) -> Result<Vec<Server>, AllocError>
    ensures { IfOk result (λ servers. AreOf book.now servers.items) }
{
    let mut servers = Vec::with_capacity(alloc, 4)?;
    for number in 0..4 {
        servers.push(Server::new(alloc, number, book.opening()))?;
    }
    Ok(servers)
}

fn last(seats: &mut Vec<Seat>) -> Seat
    requires { 0 < length seats.old.items }
    ensures { seats.old.items ≡ seats.new.items ++ result ∷ [] }
{
    match seats.pop() {
        Some(seat) => seat,
        None => unreachable!(),
    }
}

/// A directory, a put of client 0 there before its first step, and client 1's seat.
pub fn begin<'a>(
    alloc: Global,
    book: &Book,
    sealer: Sealer,
    call: &'a Call,
) -> Result<(Directory, PutCall<'a>, Seat), AllocError>
    requires free { book.now.script ≡ None }
    requires sealer { sealer ≡ sealer_at book.now 0 }
    requires call { is_put call.now ≡ true }
    ensures walk { IfOk result (λ begun. IsWalk book.now begun.0 begun.1.call) }
    ensures waiting { IfOk result (λ begun. begun.2 ≡ client_seat 1) }
{
    let (directory, seats) = Directory::new(alloc, book.opening(), sealer, 8, 2, 0)?;
    let mut seats = seats;
    let waiting = last(&mut seats);
    let first = last(&mut seats);
    seats.destroy_empty();
    let put = PutCall::new(alloc, first, Actor::Client(0), 0, call, book.opening());
    Ok((directory, put, waiting))
}

fn at_directory(book: &Book, directory: &mut Directory, put: &mut PutCall<'_>) -> DirectoryAnswer
    requires walk { IsWalk book.now directory.old put.old.call }
    requires need { need_of put.old.call ≡ Need.Directory }
    ensures { IsWalk book.now directory.new put.new.call }
{
    put.on_directory(directory, book)
}

#[tactic(auto, using(crate::proofs::Walks::one_set, crate::proofs::Walks::its_book, crate::proofs::Walks::ticket_kept))]
fn at_server(
    book: &Book,
    servers: &mut [Server],
    number: u32,
    put: &mut PutCall<'_>,
) -> Option<StepAnswer>
    requires servers { AreOf book.now servers.old }
    requires call { put.old.call.book ≡ book.now }
    requires need { need_of put.old.call ≡ Need.Server number }
    ensures servers { AreOf book.now servers.new }
    ensures kept { KeepsTicket put.old.call put.new.call }
{
    let _ = book;
    if (number as usize) >= servers.len() {
        return None;
    }
    let server = &mut servers[number as usize];
    if server.number() == number {
        return Some(StepAnswer::Server(put.on_server(server)));
    }
    None
}

/// The put's next step, where it needs one, or its coding.
#[tactic(auto, using(crate::proofs::Walks::at_coder, crate::proofs::Walks::still_walks))]
pub fn step<R: Threads + Sync>(
    rt: &R,
    book: &Book,
    directory: &mut Directory,
    servers: &mut [Server],
    put: &mut PutCall<'_>,
) -> Option<StepAnswer>
    requires walk { IsWalk book.now directory.old put.old.call }
    requires servers { AreOf book.now servers.old }
    ensures walk { IsWalk book.now directory.new put.new.call }
    ensures servers { AreOf book.now servers.new }
{
    match put.need() {
        Need::Directory => Some(StepAnswer::Directory(at_directory(book, directory, put))),
        Need::Server(number) => at_server(book, servers, number, put),
        Need::Coder => {
            put.on_coder(rt, &LaneCoder);
            None
        }
        Need::Finished => None,
    }
}
