//! Taking a snapshot.
ghost use Rattle.std.specs.Prelude.{◌≡◌, ◌≤◌, [], length, map, vec_capacity, IfOk, IfErr};
ghost use Rattle.snapshot_view.specs.Tickets.{OthersAgree};
ghost use Rattle.snapshot_view.specs.Taking.{MayTake, IsTaken};
ghost use Rattle.snapshot_view.specs.Refused.{IsRefused};

use crate::kept::Kept;
use crate::looks::{look_all, names_of};
use crate::release::end_passes;
use crate::snapshot::Snapshot;
use crate::snapshot_fault::{SnapFault, SnapRefused};
use dir_tickets::Ticket;
use std::alloc::{AllocError, Global};
use store_map::{Name, Point};
use stripe_dir::Directory;
use version_seal::Opening;

// What a snapshot of so many objects takes memory for, before its first look.
#[derive(Drop)]
struct Room {
    names: Vec<Name>,
    objects: Vec<Kept>,
    points: Vec<Point>,
}

impl Room {
    fn new(alloc: Global, directory: &Directory, count: usize) -> Result<Room, AllocError>
        ensures names { IfOk result (λ room. room.names.items ≡ map (λ object. object.name) directory.now.core.objects) }
        ensures objects { IfOk result (λ room. (room.objects.items ≡ []) × (count ≤ vec_capacity room.objects)) }
        ensures points { IfOk result (λ room. (room.points.items ≡ []) × (count ≤ vec_capacity room.points)) }
    {
        Ok(Room {
            names: names_of(alloc, directory)?,
            objects: Vec::with_capacity(alloc, count)?,
            points: Vec::with_capacity(alloc, count)?,
        })
    }
}

impl Snapshot {
    /// Looks at all objects in order, each by a get with the next of the tickets under this number, on
    /// a directory that is lent meanwhile, so in one step for all others. Takes the memory for the
    /// release. Where memory is wanting the passes that began are ended; their points stay and have no
    /// reply.
    pub fn take(
        alloc: Global,
        directory: &mut Directory,
        tickets: Vec<Ticket>,
        number: u32,
        opening: Opening,
    ) -> Result<Snapshot, SnapRefused>
        requires may { MayTake directory.old.core number tickets.items }
        requires book { opening ≡ directory.old.book }
        ensures taken { IfOk result (IsTaken number tickets.items directory.old directory.new) }
        ensures refused { IfErr result (IsRefused number tickets.items directory.old directory.new) }
        ensures others { OthersAgree tickets.items directory.old.core directory.new.core }
        ensures book { directory.new.book ≡ directory.old.book }
        ensures stamps { directory.new.stamps ≡ directory.old.stamps }
    {
        let count = directory.objects();
        if tickets.len() < count {
            let objects = count as u64;
            return Err(SnapRefused {
                tickets,
                why: SnapFault::TooMany { objects },
            });
        }
        let Ok(room) = Room::new(alloc, directory, count) else {
            return Err(out_of_memory(tickets));
        };
        take_with(alloc, directory, tickets, number, opening, room)
    }
}

// With the memory for as many looks and ends as there are objects.
fn take_with(
    alloc: Global,
    directory: &mut Directory,
    tickets: Vec<Ticket>,
    number: u32,
    opening: Opening,
    room: Room,
) -> Result<Snapshot, SnapRefused>
    requires may { MayTake directory.old.core number tickets.items }
    requires book { opening ≡ directory.old.book }
    requires enough { length directory.old.core.objects ≤ length tickets.items }
    requires names { room.names.items ≡ map (λ object. object.name) directory.old.core.objects }
    requires objects { (room.objects.items ≡ []) × (length directory.old.core.objects ≤ vec_capacity room.objects) }
    requires points { (room.points.items ≡ []) × (length directory.old.core.objects ≤ vec_capacity room.points) }
    ensures taken { IfOk result (IsTaken number tickets.items directory.old directory.new) }
    ensures refused { IfErr result (IsRefused number tickets.items directory.old directory.new) }
    ensures others { OthersAgree tickets.items directory.old.core directory.new.core }
    ensures book { directory.new.book ≡ directory.old.book }
    ensures stamps { directory.new.stamps ≡ directory.old.stamps }
{
    directory.keeps();
    let Room {
        names,
        mut objects,
        mut points,
    } = room;
    let mut tickets = tickets;
    if look_all(directory, &mut tickets, number, &names, &mut objects).is_err() {
        end_passes(directory, &mut tickets, objects.len(), number, &mut points);
        return Err(out_of_memory(tickets));
    }
    Ok(Snapshot {
        alloc,
        opening,
        number,
        objects,
        tickets,
        points,
    })
}

fn out_of_memory(tickets: Vec<Ticket>) -> SnapRefused
    ensures tickets { result.tickets ≡ tickets }
    ensures why { result.why ≡ SnapFault.OutOfMemory }
{
    SnapRefused {
        tickets,
        why: SnapFault::OutOfMemory,
    }
}
