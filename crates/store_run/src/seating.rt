//! Actors before their first step, dealt to workers.
ghost use Rattle.std.specs.Prelude.{◌≡◌, ◌+◌, [], length, IfOk, OnOk};
ghost use Rattle.thread_laws.specs.Threaded.{is_line, lines_of};
ghost use Rattle.stripe_dir.specs.Seats.{first_seats};
ghost use Rattle.actors.specs.Callers.{StandsIn, who_of};
ghost use Rattle.actors.specs.Inside.{part_by};
ghost use Rattle.thread_laws.specs.Numbers.{IsTurnOf};
ghost use Rattle.thread_laws.specs.Logs.{counts_of};
ghost use Rattle.run_seats.specs.declared.store.Store.{Store as StoreOf};
ghost use Rattle.store_map.specs.declared.actor.Actor.TheVariants as who;
ghost use Rattle.store_run.specs.Crew.{IsCrew};
ghost use Rattle.store_run.specs.Dealt.{turns_of};
ghost use Rattle.store_run.specs.Seated.{IsSeatedFrom, IsSeating};

use crate::deck::Deck;
use actors::{Caller, CallerPart};
use run_seats::{Seated, SeatedActor, SeatedOperator, SeatedSweeper, Store, Worker};
use std::alloc::{AllocError, Global};
use store_map::{Actor, Script, Token};
use stripe_dir::Seat;
use sweeper::Sweeper;
use turn_lock::take_last;

// Whether a token is a line of the operator.
fn is_line(token: Token) -> bool
    ensures { result ≡ is_line token }
{
    matches!(
        token,
        Token::Wipe(_)
            | Token::Down(_)
            | Token::Up(_)
            | Token::ReapClient(_)
            | Token::ReapRepairer(_)
    )
}

// The operator's lines of a script, in their order.
fn operator_lines(alloc: Global, script: &Script) -> Result<Vec<Token>, AllocError>
    ensures { IfOk result (λ lines. lines.items ≡ lines_of script.now) }
{
    let mut lines = Vec::new(alloc);
    for token in script.schedule.as_slice() {
        if is_line(*token) {
            lines.push(*token)?;
        }
    }
    Ok(lines)
}

/// A store with the turns and the seats that no actor has yet, and the workers with the actors that have
/// theirs. The actor of the greatest number is seated first.
pub(crate) struct Seating<'s, 'a> {
    pub(crate) alloc: Global,
    pub(crate) store: &'s Store<'a>,
    pub(crate) deck: Deck,
    pub(crate) seats: Vec<Seat>,
    pub(crate) workers: Vec<Worker<'a>>,
}

impl<'s, 'a> Seating<'s, 'a> {
    // A client or a repairer, with the last of the seats, goes to the worker of its number.
    fn seat_caller(
        &mut self,
        part: CallerPart<'a>,
        actor: Actor,
        place: u32,
        number: u32,
    ) -> Result<(), AllocError>
        requires part { StandsIn self.old.store.now.script.now place (part_by part) }
        requires whose { actor ≡ who_of (part_by part) place }
        requires turn { IsTurnOf (counts_of self.old.store.now.script.now) number actor }
        requires seating { IsSeatedFrom (number + 1) self.old }
        ensures store { self.new.store.now ≡ self.old.store.now }
        ensures workers { length self.new.workers.items ≡ length self.old.workers.items }
        ensures seated { OnOk result (IsSeatedFrom number self.new) }
    {
        let at = number as usize % self.workers.len();
        let actors = &mut self.workers[at].actors;
        actors.reserve(1)?;
        let turns = self.deck.deal(self.alloc, self.store, number)?;
        let caller = Caller::new(
            self.alloc,
            take_last(&mut self.seats),
            part,
            self.store.book.opening(),
            self.store.script.max_tries(),
        )?;
        actors.push_reserved(SeatedActor::Caller(Seated {
            caller,
            actor,
            place,
            steps: 0,
            turns,
        }));
        Ok(())
    }

    // The sweeper goes to the worker of its number.
    fn seat_sweeper(&mut self, number: u32) -> Result<(), AllocError>
        requires turn { IsTurnOf (counts_of self.old.store.now.script.now) number who.Sweeper }
        requires seating { IsSeatedFrom (number + 1) self.old }
        ensures store { self.new.store.now ≡ self.old.store.now }
        ensures workers { length self.new.workers.items ≡ length self.old.workers.items }
        ensures seated { OnOk result (IsSeatedFrom number self.new) }
    {
        let at = number as usize % self.workers.len();
        let actors = &mut self.workers[at].actors;
        actors.reserve(1)?;
        let turns = self.deck.deal(self.alloc, self.store, number)?;
        actors.push_reserved(SeatedActor::Sweeper(SeatedSweeper {
            sweeper: Sweeper::new(self.store.script.geometry.n()),
            steps: 0,
            turns,
        }));
        Ok(())
    }

    // So does the operator.
    fn seat_operator(&mut self, number: u32) -> Result<(), AllocError>
        requires turn { IsTurnOf (counts_of self.old.store.now.script.now) number who.Operator }
        requires seating { IsSeatedFrom (number + 1) self.old }
        ensures store { self.new.store.now ≡ self.old.store.now }
        ensures workers { length self.new.workers.items ≡ length self.old.workers.items }
        ensures seated { OnOk result (IsSeatedFrom number self.new) }
    {
        let at = number as usize % self.workers.len();
        let actors = &mut self.workers[at].actors;
        actors.reserve(1)?;
        let lines = operator_lines(self.alloc, self.store.script)?;
        let turns = self.deck.deal(self.alloc, self.store, number)?;
        actors.push_reserved(SeatedActor::Operator(SeatedOperator {
            lines,
            made: 0,
            turns,
        }));
        Ok(())
    }

    // All repairers of the script, the last one first.
    fn seat_repairers(&mut self) -> Result<(), AllocError>
        requires seating { IsSeatedFrom (length self.old.store.now.script.now.clients + length self.old.store.now.script.now.repairers) self.old }
        ensures store { self.new.store.now ≡ self.old.store.now }
        ensures workers { length self.new.workers.items ≡ length self.old.workers.items }
        ensures seated { OnOk result (IsSeatedFrom (length self.old.store.now.script.now.clients) self.new) }
    {
        let script = self.store.script;
        let clients = script.clients.len() as u32;
        for place in (0..script.repairers.len() as u32).rev() {
            let part = CallerPart::Repairer(&script.repairers.as_slice()[place as usize]);
            self.seat_caller(part, Actor::Repairer(place), place, clients + place)?;
        }
        Ok(())
    }

    // And all clients.
    fn seat_clients(&mut self) -> Result<(), AllocError>
        requires seating { IsSeatedFrom (length self.old.store.now.script.now.clients) self.old }
        ensures store { self.new.store.now ≡ self.old.store.now }
        ensures workers { length self.new.workers.items ≡ length self.old.workers.items }
        ensures seated { OnOk result (IsSeatedFrom 0 self.new) }
    {
        let script = self.store.script;
        for place in (0..script.clients.len() as u32).rev() {
            let part = CallerPart::Client(&script.clients.as_slice()[place as usize]);
            self.seat_caller(part, Actor::Client(place), place, place)?;
        }
        Ok(())
    }

    /// All actors of the store's script are seated.
    pub(crate) fn seat_all(&mut self) -> Result<(), AllocError>
        requires { IsSeating (turns_of self.old.store.now.script.now) 0
            (first_seats (length self.old.store.now.script.now.clients) (length self.old.store.now.script.now.repairers)) self.old }
        ensures store { self.new.store.now ≡ self.old.store.now }
        ensures workers { length self.new.workers.items ≡ length self.old.workers.items }
        ensures seated { OnOk result (IsSeating 0 (turns_of self.new.store.now.script.now) [] self.new) }
    {
        let script = self.store.script;
        let callers = (script.clients.len() + script.repairers.len()) as u32;
        self.seat_operator(callers + 1)?;
        self.seat_sweeper(callers)?;
        self.seat_repairers()?;
        self.seat_clients()
    }
}

/// So many workers without actors.
pub(crate) fn new_workers<'a>(alloc: Global, count: usize) -> Result<Vec<Worker<'a>>, AllocError>
    ensures none { (store : StoreOf) → IfOk result (λ workers. IsCrew store (turns_of store.script.now) 0 workers.items) }
    ensures count { IfOk result (λ workers. length workers.items ≡ count) }
{
    let mut workers = Vec::with_capacity(alloc, count)?;
    for _made in 0..count {
        workers.push_reserved(Worker {
            actors: Vec::new(alloc),
        });
    }
    Ok(workers)
}
