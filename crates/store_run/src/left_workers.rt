//! What the actors of a run leave that have no step left.
ghost use Rattle.std.specs.Prelude.{◌≡◌, ◌+◌, ◌<◌, ◌∷◌, ◌++◌, [], List, length, IfOk};
ghost use Rattle.turn_lock.specs.Piles.{items_of};
ghost use Rattle.run_seats.specs.Places.{IsStore};
ghost use Rattle.run_seats.specs.declared.seated_actor.SeatedActor.{SeatedActor as ActorSeated};
ghost use Rattle.run_seats.specs.declared.store.Store.{Store as StoreOf};
ghost use Rattle.store_run.specs.Crew.{AreOver, IsCrew, actors_of};
ghost use Rattle.store_run.specs.Dealt.{turns_of};
ghost use Rattle.store_run.specs.Leaving.{AreAllOver, CallerLeaves, HasLeftOf, IsNextOf, Leaves};
ghost use Rattle.store_run.specs.Left.{HasLeft, turns_in};

use call_steps::CallerCalls;
use run_seats::{
    DirectoryBox, Seated, SeatedActor, SeatedOperator, SeatedSweeper, ServerBox, Store, Turns,
    Worker,
};
use std::alloc::{AllocError, Global};
use store_map::{Actor, Script};
use sweeper::Sweeper;
use turn_lock::{Turn, take_last, take_spread};

/// What the actors leave, in the order of their numbers: the calls of the clients and of the repairers, the
/// sweeper, the turns at the directory, and a row of turns of each, one at each server.
#[derive(Drop)]
pub(crate) struct Left {
    pub(crate) clients: Vec<CallerCalls>,
    pub(crate) repairers: Vec<CallerCalls>,
    pub(crate) sweeper: Sweeper,
    pub(crate) directory: Vec<Turn<DirectoryBox>>,
    pub(crate) rows: Vec<Vec<Turn<ServerBox>>>,
}

// What an actor leaves beside its turns.
#[derive(Drop)]
enum Leaving {
    Client(CallerCalls),
    Repairer(CallerCalls),
    Sweeper(Sweeper),
    Operator,
}

// What a client or a repairer leaves.
fn leave_caller(seated: Seated) -> (Turns, Leaving)
    ensures turns { result.0 ≡ seated.entry.turns }
    ensures leaves { CallerLeaves seated.entry result.1 }
{
    let Seated {
        caller,
        actor,
        place: _,
        steps: _,
        turns,
    } = seated;
    let calls = caller.into_calls();
    match actor {
        Actor::Client(_) => (turns, Leaving::Client(calls)),
        _ => (turns, Leaving::Repairer(calls)),
    }
}

// What an actor leaves.
fn leave(actor: SeatedActor) -> (Turns, Leaving)
    ensures turns { result.0 ≡ turns_in actor.entry }
    ensures leaves { Leaves actor.entry result.1 }
{
    match actor {
        SeatedActor::Caller(seated) => leave_caller(seated),
        SeatedActor::Sweeper(
            SeatedSweeper {
                sweeper,
                steps: _,
                turns,
            },
        ) => (turns, Leaving::Sweeper(sweeper)),
        SeatedActor::Operator(
            SeatedOperator {
                lines: _lines,
                made: _,
                turns,
            },
        ) => (turns, Leaving::Operator),
    }
}

impl Left {
    // Room for what so many actors of the script leave. A new sweeper stands in for theirs.
    fn with_room(alloc: Global, script: &Script, actors: usize) -> Result<Left, AllocError>
        requires { actors ≡ turns_of script.now }
        ensures { IfOk result (HasLeftOf script.now []) }
    {
        Ok(Left {
            clients: Vec::with_capacity(alloc, script.clients.len())?,
            repairers: Vec::with_capacity(alloc, script.repairers.len())?,
            directory: Vec::with_capacity(alloc, actors)?,
            rows: Vec::with_capacity(alloc, actors)?,
            sweeper: Sweeper::new(script.geometry.n()),
        })
    }

    // With what the actor of the next number leaves.
    fn add(&mut self, actor: SeatedActor)
        requires { (store : StoreOf) × (done : List ActorSeated) × IsNextOf store done actor self.old }
        ensures { (store : StoreOf) (done : List ActorSeated) → IsNextOf store done actor.entry self.old
            → HasLeftOf store.script.now (done ++ actor.entry ∷ []) self.new }
    {
        let (turns, leaving) = leave(actor);
        let Turns {
            number: _,
            directory,
            servers,
        } = turns;
        self.directory.push_reserved(directory);
        self.rows.push_reserved(servers);
        match leaving {
            Leaving::Client(calls) => self.clients.push_reserved(calls),
            Leaving::Repairer(calls) => self.repairers.push_reserved(calls),
            Leaving::Sweeper(sweeper) => self.sweeper = sweeper,
            Leaving::Operator => {}
        }
    }
}

// What all actors leave, which stand in the order of their numbers.
fn leave_all(alloc: Global, store: &Store, mut actors: Vec<SeatedActor>) -> Result<Left, AllocError>
    requires { AreAllOver store.now actors.items }
    ensures { IfOk result (HasLeft store.now) }
{
    let mut left = match Left::with_room(alloc, store.script, actors.len()) {
        Ok(left) => left,
        Err(e) => {
            leave_actors(actors);
            return Err(e);
        }
    };
    actors.reverse();
    for _made in 0..actors.len() {
        left.add(take_last(&mut actors));
    }
    actors.destroy_empty();
    Ok(left)
}

// The actors of each worker.
fn into_piles<'a>(
    alloc: Global,
    mut workers: Vec<Worker<'a>>,
) -> Result<Vec<Vec<SeatedActor<'a>>>, AllocError>
    ensures { IfOk result (λ piles. items_of piles.items ≡ actors_of workers.entry.items) }
{
    let mut piles = match Vec::with_capacity(alloc, workers.len()) {
        Ok(piles) => piles,
        Err(e) => {
            leave_workers(workers);
            return Err(e);
        }
    };
    for _made in 0..workers.len() {
        let Worker { actors } = take_last(&mut workers);
        piles.push_reserved(actors);
    }
    workers.destroy_empty();
    piles.reverse();
    Ok(piles)
}

// The actors of all workers, in the order of their numbers.
fn take_actors<'a>(
    alloc: Global,
    store: &Store,
    workers: Vec<Worker<'a>>,
) -> Result<Vec<SeatedActor<'a>>, AllocError>
    requires store { IsStore store.now }
    requires some { 0 < length workers.items }
    requires crew { IsCrew store.now 0 (turns_of store.now.script.now) workers.items }
    requires over { AreOver store.now workers.items }
    ensures { IfOk result (λ actors. AreAllOver store.now actors.items) }
{
    let count = store.script.clients.len() + store.script.repairers.len() + 2;
    let mut piles = into_piles(alloc, workers)?;
    let actors = take_spread(alloc, &mut piles, count);
    leave_piles(piles);
    actors
}

/// What all actors leave, of workers that have no step left. Where memory is wanting the workers are spent.
pub(crate) fn gather(alloc: Global, store: &Store, workers: Vec<Worker>) -> Result<Left, AllocError>
    requires store { IsStore store.now }
    requires some { 0 < length workers.items }
    requires crew { IsCrew store.now 0 (turns_of store.now.script.now) workers.items }
    requires over { AreOver store.now workers.items }
    ensures { IfOk result (HasLeft store.now) }
{
    let actors = take_actors(alloc, store, workers)?;
    leave_all(alloc, store, actors)
}

/// Workers that were made for nothing are spent.
pub(crate) fn leave_workers(mut workers: Vec<Worker>) {
    for _left in 0..workers.len() {
        if let Some(Worker { actors }) = workers.pop() {
            leave_actors(actors);
        }
    }
    workers.destroy_empty();
}

// So are piles of their actors.
fn leave_piles(mut piles: Vec<Vec<SeatedActor>>) {
    for _left in 0..piles.len() {
        if let Some(actors) = piles.pop() {
            leave_actors(actors);
        }
    }
    piles.destroy_empty();
}

// And the actors.
fn leave_actors(mut actors: Vec<SeatedActor>) {
    for _left in 0..actors.len() {
        if let Some(actor) = actors.pop() {
            let _leaving = leave(actor);
        }
    }
    actors.destroy_empty();
}
