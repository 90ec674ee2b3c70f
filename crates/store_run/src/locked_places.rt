//! The places of a script's store behind their locks.
ghost use Rattle.std.specs.Prelude.{◌≡◌, Some, length, IfOk};
ghost use Rattle.clay_grid.specs.Limits.{IsGeometry};
ghost use Rattle.store_map.specs.Limits.{size_of};
ghost use Rattle.store_map.specs.Naming.{IsValid};
ghost use Rattle.version_seal.specs.Sealer.{sealer_at};
ghost use Rattle.stripe_stamps.specs.Sealed.{new_sealed};
ghost use Rattle.stripe_dir.specs.Seats.{first_seats};
ghost use Rattle.turn_lock.specs.Dealt.{AreTurns};
ghost use Rattle.run_seats.specs.Places.{IsStore, directory_for, server_for};
ghost use Rattle.store_run.specs.Dealt.{AreServersDealt, IsDeck, turns_of};

use crate::deck::Deck;
use chunk_server::Server;
use run_seats::{DirectoryBox, ServerBox, Store};
use std::alloc::{AllocError, Global};
use store_map::Script;
use stripe_dir::{Directory, Seat};
use turn_lock::{Lock, Turn};
use version_seal::{Book, Sealer};

// How many turns each lock has: one of each client and repairer, of the sweeper and of the operator.
fn count_turns(script: &Script) -> u32
    requires { IsValid script.now }
    ensures { result ≡ turns_of script.now }
{
    (script.clients.len() + script.repairers.len() + 2) as u32
}

// A new directory behind its lock, with its turns.
fn lock_directory(
    alloc: Global,
    script: &Script,
    directory: Directory,
) -> Result<(Lock<DirectoryBox>, Vec<Turn<DirectoryBox>>), AllocError>
    requires valid { IsValid script.now }
    requires new { directory ≡ new_sealed directory.book (size_of script.now) }
    ensures { IfOk result (λ made. AreTurns made.0 (directory_for script.now directory.book) (turns_of script.now) made.1.items) }
{
    let held = DirectoryBox {
        directory,
        max: script.max_size(),
        clients: script.clients.len() as u32,
        repairers: script.repairers.len() as u32,
    };
    Lock::new(alloc, held, count_turns(script))
}

// A new server behind its lock, with its turns.
fn lock_server(
    alloc: Global,
    script: &Script,
    book: &Book,
    number: u32,
) -> Result<(Lock<ServerBox>, Vec<Turn<ServerBox>>), AllocError>
    requires valid { IsValid script.now }
    ensures { IfOk result (λ made. AreTurns made.0 (server_for script.now book.now number) (turns_of script.now) made.1.items) }
{
    let server = Server::new(alloc, number, book.opening());
    let held = ServerBox {
        server,
        clients: script.clients.len() as u32,
        repairers: script.repairers.len() as u32,
    };
    Lock::new(alloc, held, count_turns(script))
}

// All servers of the script's stripes behind their locks, with the turns at each.
fn lock_servers(
    alloc: Global,
    script: &Script,
    book: &Book,
) -> Result<(Vec<Lock<ServerBox>>, Vec<Vec<Turn<ServerBox>>>), AllocError>
    requires valid { IsValid script.now }
    ensures geometry { IfOk result (λ _. IsGeometry script.now.geometry) }
    ensures dealt { IfOk result (λ made. AreServersDealt script.now book.now made.0.items made.1.items) }
{
    let count = script.geometry.n();
    let mut locks = Vec::with_capacity(alloc, count as usize)?;
    let mut turns = Vec::with_capacity(alloc, count as usize)?;
    for number in 0..count {
        let (lock, its_turns) = lock_server(alloc, script, book, number)?;
        locks.push_reserved(lock);
        turns.push_reserved(its_turns);
    }
    Ok((locks, turns))
}

/// The seats that are left are spent.
pub(crate) fn leave_seats(mut seats: Vec<Seat>) {
    for _left in 0..seats.len() {
        if let Some(seat) = seats.pop() {
            seat.leave();
        }
    }
    seats.destroy_empty();
}

/// The places of a script's store behind their locks, with all turns at them and the seats of the callers.
pub(crate) fn lock_places<'a>(
    alloc: Global,
    script: &'a Script,
    book: &'a Book,
    sealer: Sealer,
) -> Result<(Store<'a>, Deck, Vec<Seat>), AllocError>
    requires valid { IsValid script.now }
    requires written { book.now.script ≡ Some script.now }
    requires code { book.now.geometry ≡ script.now.geometry }
    requires sealer { sealer ≡ sealer_at book.now 0 }
    ensures store { IfOk result (λ made. IsStore made.0) }
    ensures its { IfOk result (λ made. made.0.script.now ≡ script.now) }
    ensures deck { IfOk result (λ made. IsDeck made.0 (turns_of script.now) made.1) }
    ensures seats { IfOk result (λ made. made.2.items ≡ first_seats (length script.now.clients) (length script.now.repairers)) }
{
    let (servers, server_turns) = lock_servers(alloc, script, book)?;
    let (directory, seats) = Directory::new(
        alloc,
        book.opening(),
        sealer,
        script.max_size(),
        script.clients.len() as u32,
        script.repairers.len() as u32,
    )?;
    match lock_directory(alloc, script, directory) {
        Ok((directory, directory_turns)) => {
            let store = Store {
                script,
                directory,
                servers,
                book,
            };
            let deck = Deck {
                directory: directory_turns,
                servers: server_turns,
            };
            Ok((store, deck, seats))
        }
        Err(e) => {
            leave_seats(seats);
            drop(servers);
            drop(server_turns);
            Err(e)
        }
    }
}
