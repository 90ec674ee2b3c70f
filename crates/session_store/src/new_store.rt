//! A store before its first request.
ghost use Rattle.std.specs.Prelude.{◌≡◌, ◌≤◌, ◌++◌, [], map, vec_capacity, IfOk};
ghost use Rattle.std.specs.List.{range_with_len};
ghost use Rattle.chunk_server.specs.State.{empty_server};
ghost use Rattle.stripe_dir.specs.Seats.{client_seat, repairer_seat};
ghost use Rattle.session_store.specs.Beginning.{AreNew, IsFirst, reader_tickets, session_seats};
ghost use Rattle.session_store.specs.Inside.{store_of};

use crate::places::SessionPlaces;
use crate::session_parts::Parts;
use chunk_server::Server;
use clay_grid::Geometry;
use dir_tickets::Ticket;
use std::alloc::{AllocError, Global};
use stripe_dir::{Directory, Seat};
use version_seal::Book;

// A snapshot has so many objects at most: a reader looks at each.
const READERS: u32 = 64;

// So many servers of the book's stripes, each empty.
fn new_servers(alloc: Global, book: &Book, count: u32) -> Result<Vec<Server>, AllocError>
    ensures { IfOk result (λ servers. servers.items ≡ map (λ number. empty_server number book.now) (range_with_len 0 count)) }
{
    let mut servers = Vec::with_capacity(alloc, count as usize)?;
    for number in 0..count {
        servers.push_reserved(Server::new(alloc, number, book.opening()));
    }
    Ok(servers)
}

// The places of a code in which nothing was done yet, and the seats of their clients and repairers.
fn new_places(
    alloc: Global,
    geometry: Geometry,
    max: u32,
) -> Result<(SessionPlaces, Vec<Seat>), AllocError>
    ensures places { IfOk result (λ made. AreNew geometry max made.0) }
    ensures seats { IfOk result (λ made. made.1.items ≡ session_seats 64) }
{
    let (book, sealer) = Book::free(alloc, geometry)?;
    let servers = new_servers(alloc, &book, geometry.n())?;
    let opening = book.opening();
    let (directory, seats) = Directory::new(alloc, opening, sealer, max, READERS + 1, 2)?;
    directory.keeps();
    let places = SessionPlaces {
        book,
        directory,
        servers,
    };
    Ok((places, seats))
}

// The tickets of so many seats that stand next.
fn add_tickets(seats: &mut Vec<Seat>, tickets: &mut Vec<Ticket>, count: u32)
    requires seats { seats.old.items ≡ map client_seat (range_with_len 1 count) ++ map repairer_seat (range_with_len 0 2) }
    requires none { tickets.old.items ≡ [] }
    requires room { count ≤ vec_capacity tickets.old }
    ensures seats { seats.new.items ≡ map repairer_seat (range_with_len 0 2) }
    ensures tickets { tickets.new.items ≡ reader_tickets count }
{
    for _made in 0..count {
        let seat = seats.remove(0);
        tickets.push_reserved(Ticket::new(seat));
    }
}

// A store of new places and these seats, which are all taken.
fn with_seats(
    alloc: Global,
    places: SessionPlaces,
    mut seats: Vec<Seat>,
    mut tickets: Vec<Ticket>,
) -> Parts
    requires places { AreNew places.book.geometry places.directory.core.max places }
    requires seats { seats.items ≡ session_seats 64 }
    requires none { tickets.items ≡ [] }
    requires room { 64 ≤ vec_capacity tickets }
    ensures { IsFirst places.book.geometry places.directory.core.max (store_of result) }
{
    let client = seats.remove(0);
    add_tickets(&mut seats, &mut tickets, READERS);
    let repairer = seats.remove(0);
    let healer = seats.remove(0);
    seats.destroy_empty();
    Parts {
        alloc,
        places,
        served: 0,
        client: Some(client),
        repairer: Some(repairer),
        healer: Some(healer),
        next: 0,
        snapshot: None,
        tickets: Some(tickets),
    }
}

/// A store without objects, of a code, whose objects may have `max` bytes each.
pub(crate) fn new_parts(alloc: Global, geometry: Geometry, max: u32) -> Result<Parts, AllocError>
    ensures { IfOk result (λ parts. IsFirst geometry max (store_of parts)) }
{
    let tickets = Vec::with_capacity(alloc, READERS as usize)?;
    match new_places(alloc, geometry, max) {
        Ok((places, seats)) => Ok(with_seats(alloc, places, seats, tickets)),
        Err(error) => {
            tickets.destroy_empty();
            Err(error)
        }
    }
}
