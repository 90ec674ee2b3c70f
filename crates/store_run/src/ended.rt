//! The places of a run whose actors have no step left, taken out of their locks.
ghost use Rattle.std.specs.Prelude.{◌≡◌, ℕ, List, IfOk, map};
ghost use Rattle.turn_lock.specs.Joined.{AreAll, IsWhole};
ghost use Rattle.turn_lock.specs.Out.{AreRows};
ghost use Rattle.turn_lock.specs.Piles.{items_of};
ghost use Rattle.run_seats.specs.Places.{IsStore, directory_of, server_of};
ghost use Rattle.run_seats.specs.declared.directory_box.DirectoryIdentity.{DirectoryIdentity};
ghost use Rattle.run_seats.specs.declared.server_box.ServerIdentity.{ServerIdentity};
ghost use Rattle.store_run.specs.Closed.{AreServersOut, IsDirectoryOut};
ghost use Rattle.store_run.specs.Ended.{IsEnded};
ghost use Rattle.store_run.specs.Left.{HasLeft};

use crate::left_workers::Left;
use call_steps::CallerCalls;
use chunk_server::Server;
use run_seats::{DirectoryBox, ServerBox, Store};
use std::alloc::{AllocError, Global};
use std::sync::Wait;
use stripe_dir::Directory;
use sweeper::Sweeper;
use turn_lock::{Historied, Lock, Turn, take_out, take_out_each};

/// The directory and the servers, the sweeper, and the calls of the clients and of the repairers.
pub(crate) struct Ended {
    pub(crate) directory: Directory,
    pub(crate) servers: Vec<Server>,
    pub(crate) sweeper: Sweeper,
    pub(crate) clients: Vec<CallerCalls>,
    pub(crate) repairers: Vec<CallerCalls>,
}

// As `take_out`. What is handed in beside the turns is dropped: only with such a parameter can the kit state
// which identity a caller names for a value that has a `Vec`.
fn take_out_by<T: Historied + Drop, R: Wait, C: Drop>(
    rt: &R,
    lock: &Lock<T>,
    turns: Vec<Turn<T>>,
    by: C,
) -> T
    ghost identity: { T.Fixed }
    requires { AreAll lock.now identity turns.items }
    ensures fixed { T.fixed_part result ≡ identity }
    ensures stands { (log : List (ℕ × T.Entry)) × (T.stands_for result log) × IsWhole turns.items log }
{
    drop(by);
    take_out(rt, lock, turns)
}

// The directory, taken out of its lock for good by all turns there.
fn close_directory<R: Wait>(rt: &R, store: &Store, turns: Vec<Turn<DirectoryBox>>) -> Directory
    ghost identity: { DirectoryIdentity }
    requires identity { identity ≡ directory_of store.now }
    requires turns { AreAll store.now.directory identity turns.items }
    ensures { IsDirectoryOut store.now turns.items result }
{
    let DirectoryBox {
        directory,
        max: _,
        clients: _,
        repairers: _,
    } = take_out_by(rt, &store.directory, turns, 0u32);
    directory
}

// The servers without their boxes.
fn unbox(alloc: Global, boxes: Vec<ServerBox>) -> Result<Vec<Server>, AllocError>
    ensures { IfOk result (λ servers. servers.items ≡ map (λ held. held.server) boxes.items) }
{
    let mut servers = Vec::with_capacity(alloc, boxes.len())?;
    for held in boxes {
        servers.push_reserved(held.server);
    }
    Ok(servers)
}

// The servers, each taken out of its lock for good by a row of turns of each actor.
fn close_servers<R: Wait>(
    rt: &R,
    alloc: Global,
    store: &Store,
    rows: Vec<Vec<Turn<ServerBox>>>,
) -> Result<Vec<Server>, AllocError>
    ghost identity: { ℕ → ServerIdentity }
    requires identity { identity ≡ server_of store.now }
    requires rows { AreRows identity store.now.servers.items (items_of rows.items) }
    ensures { IfOk result (λ servers. AreServersOut store.now (items_of rows.items) servers.items) }
{
    let boxes = take_out_each(rt, alloc, store.servers.as_slice(), rows)?;
    unbox(alloc, boxes)
}

/// The places are taken out of their locks for good, by the turns that all actors leave.
pub(crate) fn close<R: Wait>(
    rt: &R,
    alloc: Global,
    store: &Store,
    left: Left,
) -> Result<Ended, AllocError>
    requires store { IsStore store.now }
    requires left { HasLeft store.now left }
    ensures { IfOk result (IsEnded store.now.script.now) }
{
    let Left {
        clients,
        repairers,
        sweeper,
        directory,
        rows,
    } = left;
    let servers = close_servers(rt, alloc, store, rows)?;
    let directory = close_directory(rt, store, directory);
    Ok(Ended {
        directory,
        servers,
        sweeper,
        clients,
        repairers,
    })
}
