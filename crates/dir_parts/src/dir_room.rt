//! The room that a look takes for its pass, and the point that it appends.
ghost use Rattle.std.specs.Prelude.{◌≡◌, ◌+◌, ◌<◌, ◌≤◌, ◌++◌, length, Contains, OnOk};
ghost use Rattle.dir_parts.specs.Parts.{KeepsNames};
ghost use Rattle.dir_parts.specs.Begun.{looked};

use crate::history::{Event, History};
use crate::objects::Objects;
use crate::passes::{CallKind, CallNote, Passes};
use std::alloc::AllocError;
use store_map::{Actor, Name};

/// Takes the room for what one more pass may add and for a point of its look, and keeps its name.
pub fn make_room(
    history: &mut History,
    objects: &mut Objects,
    passes: &mut Passes,
    name: &Name,
) -> Result<(), AllocError>
    ensures points { history.new.points ≡ history.old.points }
    ensures others { KeepsNames history.old.names history.new.names }
    ensures keeps { history.new.keeps ≡ history.old.keeps }
    ensures points_room { history.old.room ≤ history.new.room }
    ensures objects { objects.new.objects ≡ objects.old.objects }
    ensures objects_room { objects.old.room ≤ objects.new.room }
    ensures passes { passes.new.listed ≡ passes.old.listed }
    ensures stripe { passes.new.stripe_len ≡ passes.old.stripe_len }
    ensures named { OnOk result (Contains history.new.names name.now) }
    ensures more_points { OnOk result (length passes.old.listed + 2 ≤ history.new.room) }
    ensures more_objects { OnOk result (length passes.old.listed + 1 ≤ objects.new.room) }
    ensures more_passes { OnOk result (0 < passes.new.space) }
{
    history.keep_name(name)?;
    let Some(more) = passes.len().checked_add(2) else {
        return Err(AllocError);
    };
    history.reserve(more)?;
    objects.reserve(more)?;
    passes.reserve()
}

/// Appends the point of a look whose pass begins, if its call has one.
pub fn add_look(history: &mut History, actor: Actor, number: u32, note: &CallNote)
    requires room { 0 < history.old.room }
    requires named { Contains history.old.names note.now.name }
    ensures points { history.new.points ≡ history.old.points ++ looked actor number note.now }
    ensures names { history.new.names ≡ history.old.names }
    ensures keeps { history.new.keeps ≡ history.old.keeps }
    ensures left { history.old.room ≤ history.new.room + 1 }
{
    match note.kind {
        CallKind::Get | CallKind::ReadAt => {
            history.add(actor, number, note, Event::Pinned);
        }
        _ => {}
    }
}
