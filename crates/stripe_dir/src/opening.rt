//! A new directory with its actors' seats, and what it tells of its objects, points and stamps.
ghost use Rattle.std.specs.Prelude.{◌≡◌, ◌+◌, ◌≤◌, ◌<◌, ◌++◌, [], None, is_some, vec_len, vec_capacity, map, length, option_map, slice_get, IfOk, IsTrue};
ghost use Rattle.std.specs.List.{range_with_len};
ghost use Rattle.clay_grid.specs.Shape.{stripe_length};
ghost use Rattle.dir_parts.specs.PointLog.{told_of, told_at};
ghost use Rattle.dir_parts.specs.Parts.{object_of};
ghost use Rattle.version_seal.specs.Sealer.{sealer_at};
ghost use Rattle.stripe_stamps.specs.Sealed.{new_sealed, keeps_points};
ghost use Rattle.stripe_dir.specs.Seats.{client_seat, repairer_seat, first_seats};
ghost use Rattle.stripe_stamps.specs.ItsStripes.{IsWhole};
ghost use Rattle.stripe_stamps.specs.Stamped.{HasStamps};

use crate::directory::Directory;
use crate::tokens::Seat;
use clay_grid::Geometry;
use dir_parts::{Contents, History, Objects, Passes, PointEntry};
use std::alloc::{AllocError, Global};
use store_map::{Actor, Name, Version};
use stripe_stamps::Stamps;
use version_seal::{Opening, Sealer, Stamp};
use version_table::Versions;

// So many clients' seats, then so many repairers'.
fn seats(alloc: Global, clients: u32, repairers: u32) -> Result<Vec<Seat>, AllocError>
    ensures { IfOk result (λ seats. seats.items ≡ first_seats clients repairers) }
{
    let mut seats = Vec::with_capacity(alloc, clients as usize + repairers as usize)?;
    add_clients(&mut seats, clients);
    add_repairers(&mut seats, repairers);
    Ok(seats)
}

fn add_clients(seats: &mut Vec<Seat>, count: u32)
    requires { vec_len seats.old + count ≤ vec_capacity seats.old }
    ensures items { seats.new.items ≡ seats.old.items ++ map client_seat (range_with_len 0 count) }
    ensures len { vec_len seats.new ≡ vec_len seats.old + count }
    ensures room { vec_capacity seats.new ≡ vec_capacity seats.old }
{
    for i in 0..count {
        seats.push_reserved(Seat {
            actor: Actor::Client(i),
            unused: 0,
            told: None,
        });
    }
}

fn add_repairers(seats: &mut Vec<Seat>, count: u32)
    requires { vec_len seats.old + count ≤ vec_capacity seats.old }
    ensures items { seats.new.items ≡ seats.old.items ++ map repairer_seat (range_with_len 0 count) }
    ensures len { vec_len seats.new ≡ vec_len seats.old + count }
    ensures room { vec_capacity seats.new ≡ vec_capacity seats.old }
{
    for i in 0..count {
        seats.push_reserved(Seat {
            actor: Actor::Repairer(i),
            unused: 0,
            told: None,
        });
    }
}

// The history of a book's directory, without points. They are kept where the book has a script.
fn history_for(alloc: Global, opening: &Opening) -> History
    ensures points { result.points ≡ [] }
    ensures keeps { result.keeps ≡ is_some opening.now.script }
{
    if opening.has_script() {
        return History::new(alloc);
    }
    History::counting(alloc)
}

impl Directory {
    /// A directory without objects, of a book's versions, which it alone seals, whose objects may have
    /// `max` bytes each, and the seats of its clients, then of its repairers. Where the book has a
    /// script it keeps every point of its history, for the transcript is made of them (`point_at`).
    /// Without one it counts them: of a call that was served stay its object's name, once, and the
    /// stamps of what it drew.
    pub fn new(
        alloc: Global,
        opening: Opening,
        sealer: Sealer,
        max: u32,
        clients: u32,
        repairers: u32,
    ) -> Result<(Directory, Vec<Seat>), AllocError>
        requires sealer { sealer ≡ sealer_at opening 0 }
        ensures directory { IfOk result (λ made. made.0 ≡ new_sealed opening max) }
        ensures seats { IfOk result (λ made. made.1.items ≡ first_seats clients repairers) }
    {
        let seats = seats(alloc, clients, repairers)?;
        let history = history_for(alloc, &opening);
        let directory = Directory::with_history(alloc, opening, sealer, max, history);
        Ok((directory, seats))
    }

    // A directory without objects and with this history, which has no points.
    fn with_history(
        alloc: Global,
        opening: Opening,
        sealer: Sealer,
        max: u32,
        history: History,
    ) -> Directory
        requires sealer { sealer ≡ sealer_at opening 0 }
        requires points { history.points ≡ [] }
        requires keeps { history.keeps ≡ is_some opening.script }
        ensures { result ≡ new_sealed opening max }
    {
        let geometry = opening.geometry();
        let stripe_len = geometry.stripe_len();
        Directory {
            alloc,
            geometry,
            max,
            objects: Objects::new(alloc),
            versions: Versions::new(alloc),
            passes: Passes::new(alloc, stripe_len),
            history,
            stamps: Stamps::new(alloc, opening, sealer),
        }
    }

    /// The code of the stripes.
    pub fn geometry(&self) -> Geometry
        ensures { result ≡ self.now.core.shape }
    {
        self.geometry
    }

    /// How many objects there are.
    pub fn objects(&self) -> usize
        ensures { result ≡ length self.now.core.objects }
    {
        self.objects.len()
    }

    /// The objects in order of creation: each one's name, its length and its versions.
    pub fn objects_in_order(&self, alloc: Global) -> Result<Vec<(&Name, &Contents)>, AllocError>
        ensures { IfOk result (λ list. map (λ p. object_of p.0.now p.1.now) list.items ≡ self.now.core.objects) }
    {
        self.objects.in_order(alloc)
    }

    /// How many points the history has.
    pub fn points(&self) -> usize
        ensures { result ≡ length self.now.core.points }
    {
        self.history.len()
    }

    /// Whether the points are kept, so that they can be read (`point_at`): where the book has a script,
    /// and nowhere else.
    pub fn keeps_points(&self) -> bool
        ensures { result ≡ keeps_points self.now }
    {
        self.history.keeps_points()
    }

    /// The point of the history with this number, where the directory keeps its points.
    pub fn point_at(&self, point: usize) -> Option<PointEntry>
        requires { IsTrue (keeps_points self.now) }
        ensures { option_map told_of result ≡ told_at self.now.core.points point }
    {
        self.history.get(point)
    }

    /// The stamp of a version that the directory has drawn.
    pub fn stamp(&self, version: Version) -> Option<&Stamp>
        ensures { option_map (λ stamp. stamp.now) result ≡ slice_get self.now.stamps version.0 }
    {
        self.stamps.as_slice().get(version.0 as usize)
    }

    /// What every directory keeps. It does nothing when it runs.
    pub fn keeps(&self)
        ensures bytes { 0 < stripe_length self.now.core.shape }
        ensures whole { IsWhole self.now.core }
        ensures stamps { HasStamps self.now }
    {
        let _ = &self.alloc;
    }
}
