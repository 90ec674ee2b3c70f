//! The world before its first step.
ghost use Rattle.std.specs.Prelude.{◌≡◌, ◌≤◌, [], length, drop, map, IfOk, OnOk};
ghost use Rattle.std.specs.List.{range_with_len};
ghost use Rattle.clay_grid.specs.Limits.{IsGeometry};
ghost use Rattle.store_map.specs.Naming.{IsValid};
ghost use Rattle.stripe_dir.specs.Seats.{client_seat, repairer_seat};
ghost use Rattle.version_seal.specs.Sealer.{sealer_at};
ghost use Rattle.chunk_server.specs.State.{empty_server};
ghost use Rattle.world_laws.specs.Goes.{IsReachedBy};
ghost use Rattle.store_world.specs.First.{AreFirstClients, AreFirstRepairers, BeginWith, seats_of, first_directory, first_servers};
ghost use Rattle.store_world.specs.Stored.{world_of};

use crate::world::World;
use actors::{Caller, CallerPart};
use chunk_server::Server;
use std::alloc::{AllocError, Global};
use store_map::Script;
use stripe_dir::{Directory, Seat};
use sweeper::Sweeper;
use version_seal::{Book, Sealer};

// So many servers of the book's stripes, each empty.
fn new_servers(alloc: Global, book: &Book, count: u32) -> Result<Vec<Server>, AllocError>
    ensures { IfOk result (λ servers. servers.items ≡ map (λ number. empty_server number book.now) (range_with_len 0 count)) }
{
    let mut servers = Vec::with_capacity(alloc, count as usize)?;
    for number in 0..count {
        servers.push_reserved(Server::new(alloc, number, book.opening()));
    }
    Ok(servers)
}

// The script's clients, each with its seat.
fn seat_clients<'a>(
    alloc: Global,
    script: &'a Script,
    book: &Book,
    seats: &mut Vec<Seat>,
    clients: &mut Vec<Caller<'a>>,
) -> Result<(), AllocError>
    requires valid { IsValid script.now }
    requires seats { BeginWith client_seat (length script.now.clients) seats.old.items }
    requires enough { length script.now.clients ≤ length seats.old.items }
    requires none { clients.old.items ≡ [] }
    ensures clients { OnOk result (AreFirstClients script.now book.now clients.new.items) }
    ensures seats { OnOk result (seats.new.items ≡ drop (length script.now.clients) seats.old.items) }
{
    clients.reserve(script.clients.len())?;
    for part in script.clients.as_slice() {
        let seat = seats.remove(0);
        let client = Caller::new(
            alloc,
            seat,
            CallerPart::Client(part),
            book.opening(),
            script.max_tries(),
        )?;
        clients.push_reserved(client);
    }
    Ok(())
}

// The script's repairers, each with its seat.
fn seat_repairers<'a>(
    alloc: Global,
    script: &'a Script,
    book: &Book,
    seats: &mut Vec<Seat>,
    repairers: &mut Vec<Caller<'a>>,
) -> Result<(), AllocError>
    requires valid { IsValid script.now }
    requires code { book.now.geometry ≡ script.now.geometry }
    requires seats { BeginWith repairer_seat (length script.now.repairers) seats.old.items }
    requires enough { length script.now.repairers ≤ length seats.old.items }
    requires none { repairers.old.items ≡ [] }
    ensures repairers { OnOk result (AreFirstRepairers script.now book.now repairers.new.items) }
{
    repairers.reserve(script.repairers.len())?;
    for part in script.repairers.as_slice() {
        let seat = seats.remove(0);
        let repairer = Caller::new(
            alloc,
            seat,
            CallerPart::Repairer(part),
            book.opening(),
            script.max_tries(),
        )?;
        repairers.push_reserved(repairer);
    }
    Ok(())
}

// The seats that are left are spent.
fn leave_seats(mut seats: Vec<Seat>) {
    for _left in 0..seats.len() {
        if let Some(seat) = seats.pop() {
            seat.leave();
        }
    }
    seats.destroy_empty();
}

// Callers that were made for nothing are spent.
pub(crate) fn leave_callers(mut callers: Vec<Caller>) {
    for _left in 0..callers.len() {
        if let Some(caller) = callers.pop() {
            let _calls = caller.into_calls();
        }
    }
    callers.destroy_empty();
}

// The script's actors, each with its seat.
fn seat_all<'a>(
    alloc: Global,
    script: &'a Script,
    book: &Book,
    seats: &mut Vec<Seat>,
    clients: &mut Vec<Caller<'a>>,
    repairers: &mut Vec<Caller<'a>>,
) -> Result<(), AllocError>
    requires valid { IsValid script.now }
    requires code { book.now.geometry ≡ script.now.geometry }
    requires seats { seats.old.items ≡ seats_of (length script.now.clients) (length script.now.repairers) }
    requires no_client { clients.old.items ≡ [] }
    requires no_repairer { repairers.old.items ≡ [] }
    ensures clients { OnOk result (AreFirstClients script.now book.now clients.new.items) }
    ensures repairers { OnOk result (AreFirstRepairers script.now book.now repairers.new.items) }
{
    seat_clients(alloc, script, book, seats, clients)?;
    seat_repairers(alloc, script, book, seats, repairers)
}

// The world that these parts make before its first step.
fn first_world<'a>(
    script: &'a Script,
    book: &'a Book,
    directory: Directory,
    servers: Vec<Server>,
    clients: Vec<Caller<'a>>,
    repairers: Vec<Caller<'a>>,
) -> World<'a>
    requires valid { IsValid script.now }
    requires written { book.now.script ≡ Some script.now }
    requires code { book.now.geometry ≡ script.now.geometry }
    requires directory { directory ≡ first_directory script.now book.now }
    requires servers { servers.items ≡ first_servers script.now book.now }
    requires clients { AreFirstClients script.now book.now clients.items }
    requires repairers { AreFirstRepairers script.now book.now repairers.items }
    ensures geometry { IsGeometry script.now.geometry }
    ensures script { result.script ≡ script.now }
    ensures book { result.book ≡ book.now }
    ensures reached { IsReachedBy script.now [] (world_of result) }
{
    let sweeper = Sweeper::new(script.geometry.n());
    World {
        script,
        book,
        directory,
        servers,
        clients,
        repairers,
        sweeper,
    }
}

impl<'a> World<'a> {
    /// The world of a script before its first step, over the book of its versions, with the book's
    /// sealer.
    pub fn new(
        alloc: Global,
        script: &'a Script,
        book: &'a Book,
        sealer: Sealer,
    ) -> Result<World<'a>, AllocError>
        requires valid { IsValid script.now }
        requires written { book.now.script ≡ Some script.now }
        requires code { book.now.geometry ≡ script.now.geometry }
        requires sealer { sealer ≡ sealer_at book.now 0 }
        ensures geometry { IfOk result (λ _. IsGeometry script.now.geometry) }
        ensures script { IfOk result (λ world. world.script ≡ script.now) }
        ensures book { IfOk result (λ world. world.book ≡ book.now) }
        ensures reached { IfOk result (λ world. IsReachedBy script.now [] (world_of world)) }
    {
        let servers = new_servers(alloc, book, script.geometry.n())?;
        let size = script.max_size();
        let client_count = script.clients.len() as u32;
        let repairer_count = script.repairers.len() as u32;
        let opening = book.opening();
        let (directory, mut seats) = Directory::new(
            alloc,
            opening,
            sealer,
            size,
            client_count,
            repairer_count,
        )?;
        let mut clients = Vec::new(alloc);
        let mut repairers = Vec::new(alloc);
        let seated = seat_all(
            alloc,
            script,
            book,
            &mut seats,
            &mut clients,
            &mut repairers,
        );
        leave_seats(seats);
        match seated {
            Ok(()) => Ok(first_world(script, book, directory, servers, clients, repairers)),
            Err(e) => {
                leave_callers(clients);
                leave_callers(repairers);
                drop(directory);
                drop(servers);
                Err(e)
            }
        }
    }
}
