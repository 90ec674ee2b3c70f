//! The `H` lines: the directory's points, with what each shows of its call.
ghost use Rattle.std.specs.Prelude.{◌≡◌, ℕ, [], ◌++◌, Some, is_some, IfOk, OnOk, IsTrue};
ghost use Rattle.store_map.specs.declared.actor.Actor.TheVariants as kind;
ghost use Rattle.store_core.specs.Calls.{Calls};
ghost use Rattle.store_core.specs.Directory.{Event as CoreEvent};
ghost use Rattle.store_core.specs.History.{client_call, line_of, history_from};
ghost use Rattle.dir_parts.specs.Events.{event_in};
ghost use Rattle.call_steps.specs.CallerCalls.{callings_at};
ghost use Rattle.world_lines.specs.Lists.{answered_by};
ghost use Rattle.world_laws.specs.Served.{ServedAre};
ghost use Rattle.world_lines.specs.Taken.{shown_call, KeepsEachCall, IsPinnedCall};

use crate::served::{is_answered, take_served};
use call_steps::CallerCalls;
use dir_parts::{Event, PointEntry};
use std::alloc::{AllocError, Global};
use store_map::{Actor, ClientCall, HLine, ListOf, Reply, Shown};
use stripe_dir::Directory;

// A client's call; the points of other actors show none.
fn client_call(actor: Actor, number: u32) -> Option<ClientCall>
    ensures { result ≡ client_call actor number }
{
    match actor {
        Actor::Client(client) => Some(ClientCall { client, number }),
        Actor::Repairer(_) | Actor::Sweeper | Actor::Operator => None,
    }
}

// The bytes that the call of a pinned point was served, taken out of its outcome.
fn take_pinned(
    alloc: Global,
    clients: &mut [CallerCalls],
    actor: Actor,
    number: u32,
) -> Option<Shown>
    ensures shown { result ≡ shown_call clients.old CoreEvent.Pinned actor number }
    ensures others { KeepsEachCall (λ i n. (actor ≡ kind.Client i) × (n ≡ number)) clients.old clients.new }
{
    let Actor::Client(client) = actor else {
        return None;
    };
    let bytes = take_served(alloc, clients, client, number)?;
    Some(Shown::Reply(Reply::Bytes(bytes)))
}

// What a commit shows.
fn shown_done(clients: &[CallerCalls], actor: Actor, number: u32) -> Shown
    ensures { Some result ≡ shown_call clients.now CoreEvent.Done actor number }
{
    if is_answered(clients, actor, number) {
        Shown::Reply(Reply::Done)
    } else {
        Shown::Unfinished
    }
}

// What a point shows. The bytes of a pinned point's call are taken out of its outcome.
fn shown_at(alloc: Global, clients: &mut [CallerCalls], entry: PointEntry) -> Option<Shown>
    ensures shown { result ≡ shown_call clients.old (event_in entry.event) entry.actor entry.number }
    ensures others { KeepsEachCall (IsPinnedCall entry) clients.old clients.new }
{
    match entry.event {
        Event::Answer(answer) => Some(Shown::Reply(answer.reply())),
        Event::Pinned => take_pinned(alloc, clients, entry.actor, entry.number),
        Event::Done => Some(shown_done(clients, entry.actor, entry.number)),
        Event::Reaped => None,
    }
}

// The line of a point, if it has one.
fn push_point(
    alloc: Global,
    lines: &mut ListOf<HLine>,
    clients: &mut [CallerCalls],
    point: u64,
    entry: PointEntry,
) -> Result<(), AllocError>
    ensures lines { OnOk result (lines.new ≡ lines.old ++ line_of point (client_call entry.actor entry.number)
        (shown_call clients.old (event_in entry.event) entry.actor entry.number)) }
    ensures others { KeepsEachCall (IsPinnedCall entry) clients.old clients.new }
{
    let Some(call) = client_call(entry.actor, entry.number) else {
        return Ok(());
    };
    let Some(reply) = shown_at(alloc, clients, entry) else {
        return Ok(());
    };
    lines.push(HLine { point, call, reply })?;
    Ok(())
}

/// The lines of the points of a directory whose book has a script. The bytes of a call that was served are moved out of its
/// outcome into its line, so the clients' calls are used up: this list is made last.
pub fn history_lines(
    alloc: Global,
    directory: &Directory,
    clients: Vec<CallerCalls>,
) -> Result<ListOf<HLine>, AllocError>
    requires { IsTrue (is_some directory.now.book.script) }
    ensures { IfOk result (λ lines. (max servers : ℕ) (calls : Calls) → ServedAre max calls directory.now.core.points clients.items
        → lines ≡ history_from max calls (answered_by (callings_at servers clients.items)) 0 [] directory.now.core.points) }
{
    let mut lines = ListOf::new(alloc);
    let mut clients = clients;
    for place in 0..directory.points() {
        if let Some(entry) = directory.point_at(place) {
            push_point(alloc, &mut lines, &mut clients, place as u64, entry)?;
        }
    }
    Ok(lines)
}
