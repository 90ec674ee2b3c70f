//! What the store's threads hold may go to them.
ghost use Rattle.std.specs.Prelude.{◌<◌};

use actors::Caller;
use chunk_server::Server;
use std::thread;
use std::thread::Threads;
use store_map::Script;
use stripe_dir::Directory;
use sweeper::Sweeper;
use turn_lock::{Historied, Lock, Turn};
use version_seal::Book;

/// Chunk servers go to threads, which share a book.
pub fn servers_cross<R: Threads + Sync>(rt: &R, book: &Book, servers: &mut [Server], threads: usize)
    requires some { 0 < threads }
{
    thread::for_each_mut(
        rt,
        servers,
        threads,
        &|_, _server| {
            let _shared = book;
        },
    );
}

/// Directories go to threads.
pub fn directories_cross<R: Threads + Sync>(rt: &R, directories: &mut [Directory], threads: usize)
    requires some { 0 < threads }
{
    thread::for_each_mut(rt, directories, threads, &|_, _directory| {});
}

/// Callers with their calls in work go to threads, which share a script.
pub fn callers_cross<R: Threads + Sync>(
    rt: &R,
    script: &Script,
    callers: &mut [Caller],
    threads: usize,
)
    requires some { 0 < threads }
{
    thread::for_each_mut(
        rt,
        callers,
        threads,
        &|_, _caller| {
            let _shared = script;
        },
    );
}

/// Sweepers go to threads.
pub fn sweepers_cross<R: Threads + Sync>(rt: &R, sweepers: &mut [Sweeper], threads: usize)
    requires some { 0 < threads }
{
    thread::for_each_mut(rt, sweepers, threads, &|_, _sweeper| {});
}

/// Turns go to threads, where what is locked may, and the threads share the lock.
pub fn turns_cross<T: Historied + Drop + Send, R: Threads + Sync>(
    rt: &R,
    lock: &Lock<T>,
    turns: &mut [Turn<T>],
    threads: usize,
)
    requires some { 0 < threads }
{
    thread::for_each_mut(
        rt,
        turns,
        threads,
        &|_, _turn| {
            let _shared = lock;
        },
    );
}
