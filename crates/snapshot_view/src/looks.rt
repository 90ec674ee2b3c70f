//! The looks of a snapshot that is taken.
ghost use Rattle.std.specs.Prelude.{◌≡◌, ◌≤◌, [], ◌∷◌, ◌++◌, length, map, take, vec_capacity, All, Some, IfOk, OnOk, OnErr};
ghost use Rattle.store_core.specs.Directory.{Object};
ghost use Rattle.store_core.specs.Lookups.{find_object};
ghost use Rattle.store_core.specs.Agreement.{Agrees};
ghost use Rattle.store_core.specs.Tokens.{actor_of};
ghost use Rattle.snapshot_view.specs.Tickets.{MayGet, IsInCall, AgreesWithAll, OthersAgree, pins_of, passes_in};
ghost use Rattle.snapshot_view.specs.LookSteps.{IsAsFound, IsSameButCalls, AreLooked, look_one, looked_with, no_look, versions_kept};

use crate::kept::Kept;
use dir_tickets::Ticket;
use std::alloc::{AllocError, Global};
use store_map::{Call, Name};
use stripe_dir::{Directory, Look};

/// The names of all objects, in order of creation.
pub(crate) fn names_of(alloc: Global, directory: &Directory) -> Result<Vec<Name>, AllocError>
    ensures { IfOk result (λ names. names.items ≡ map (λ object. object.name) directory.now.core.objects) }
{
    let objects = directory.objects_in_order(alloc)?;
    let mut names = Vec::new(alloc);
    for object in objects.iter() {
        let (name, _contents) = *object;
        names.push(name.copy()?)?;
    }
    Ok(names)
}

// A look at one object. Where memory is wanting nothing changes.
fn look_at(
    directory: &mut Directory,
    ticket: &mut Ticket,
    number: u32,
    name: &Name,
) -> Result<Kept, AllocError>
    requires agrees { Agrees directory.old.core ticket.old }
    requires may { MayGet number ticket.old }
    requires there { (object : Object) × (find_object name.now directory.old.core.objects ≡ Some object) }
    ensures look { OnOk result (looked_with directory.new.core (ticket.new ∷ []) ≡ look_one number (no_look directory.old.core) ticket.old name.now) }
    ensures err { OnErr result ((directory.new ≡ directory.old) × (ticket.new ≡ ticket.old)) }
    ensures name { IfOk result (λ kept. kept.name ≡ name.now) }
    ensures found { IfOk result (IsAsFound directory.old) }
    ensures call { OnOk result (IsInCall number ticket.new) }
    ensures pins { IfOk result (λ kept. pins_of ticket.new ≡ versions_kept kept) }
    ensures begun { OnOk result (directory.new.core.passes ≡ passes_in (ticket.new ∷ []) ++ directory.old.core.passes) }
    ensures actor { actor_of ticket.new ≡ actor_of ticket.old }
    ensures agrees { Agrees directory.new.core ticket.new }
    ensures others { OthersAgree (ticket.old ∷ []) directory.old.core directory.new.core }
    ensures same { IsSameButCalls directory.old directory.new }
{
    let call = Call::Get { name: name.copy()? };
    let name = name.copy()?;
    let answer = ticket.look(directory, number, &call);
    match answer {
        Ok(
            Look::Pinned {
                point,
                length,
                stripes,
                ..
            },
        ) => {
            let _ = point;
            Ok(Kept {
                name,
                size: length,
                stripes,
            })
        }
        // An object that is there: a get of it goes on.
        Ok(Look::Answer { .. }) => unreachable!(),
        Ok(Look::Ready { .. }) => unreachable!(),
        Err(error) => Err(error),
    }
}

/// Looks at the objects with these names, which are the directory's, each by the next of the tickets.
/// Where memory is wanting the looks made so far stay.
pub(crate) fn look_all(
    directory: &mut Directory,
    tickets: &mut [Ticket],
    number: u32,
    names: &[Name],
    kept: &mut Vec<Kept>,
) -> Result<(), AllocError>
    requires names { names.now ≡ map (λ object. object.name) directory.old.core.objects }
    requires enough { length names.now ≤ length tickets.old }
    requires agrees { AgreesWithAll directory.old.core tickets.old }
    requires may { All (MayGet number) (take (length names.now) tickets.old) }
    requires empty { kept.old.items ≡ [] }
    requires room { length names.now ≤ vec_capacity kept.old }
    ensures looked { AreLooked number directory.old directory.new tickets.old tickets.new kept.new.items }
    ensures all { OnOk result (length kept.new.items ≡ length names.now) }
    ensures others { OthersAgree tickets.old directory.old.core directory.new.core }
    ensures count { length tickets.new ≡ length tickets.old }
    ensures few { length kept.new.items ≤ length names.now }
{
    let mut at = 0;
    while at < names.len() {
        let ticket = &mut tickets[at];
        let one = look_at(directory, ticket, number, &names[at])?;
        kept.push_reserved(one);
        at += 1;
    }
    Ok(())
}
