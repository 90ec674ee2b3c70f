//! An actor with its ticket, and its steps at the directory, each where the actor may make it.

ghost use Rattle.std.specs.Prelude.{◌≡◌};
ghost use Rattle.store_core.specs.Agreement.{ActorToken};
ghost use Rattle.dir_walks.specs.Callers.{IsReady, Steps, is_seated};
ghost use Rattle.dir_walks.specs.Opened.{new_caller};

use crate::test_rows::rows;
use crate::test_stage::{
    WalkStage, drawn_by, is_client, stage_after_draw, stage_after_look, unused_after_commit,
};
use dir_tickets::Ticket;
use std::alloc::{AllocError, Global};
use std::marker::Model;
use store_map::{Actor, Call};
use stripe_dir::{Directory, Seat};
use version_seal::{Book, Request};

/// A step of an actor at the directory.
#[derive(Clone, Copy)]
pub enum Step<'a> {
    Look { number: u32, call: &'a Call },
    Draw,
    Commit,
    End,
}

/// Why no step is made.
#[derive(Clone, Copy, Debug, Drop)]
pub enum Refusal {
    /// The actor may not make it now.
    NotNow,
    Short,
}

impl From<AllocError> for Refusal {
    fn from(_: AllocError) -> Refusal {
        Refusal::Short
    }
}

/// An actor with its ticket, and what its next steps go by. It has to be spent.
pub struct Caller {
    who: Actor,
    ticket: Ticket,
    stage: WalkStage,
    // of its last call
    number: u32,
    // from this one on all are
    unused: u64,
    // how many versions it has drawn
    drawn: usize,
    // its put or write
    request: Option<Request>,
}

impl Model for Caller {
    ghost use Rattle.dir_walks.specs.Callers.{CallerOf};

    ghost Value = { CallerOf };

    ghost use Rattle.dir_walks.specs.Inside.{caller_in};

    ghost view = { caller_in };
}

impl Caller {
    /// An actor that has made no call.
    pub fn new(who: Actor, seat: Seat) -> Caller
        ensures { result ≡ new_caller who (ActorToken.Seated seat) }
    {
        Caller {
            who,
            ticket: Ticket::new(seat),
            stage: WalkStage::Seated,
            number: 0,
            unused: 0,
            drawn: 0,
            request: None,
        }
    }

    /// Leaves the directory.
    pub fn leave(self) {
        let Caller {
            who: _,
            ticket,
            stage: _,
            number: _,
            unused: _,
            drawn: _,
            request: _,
        } = self;
        ticket.leave();
    }

    fn is_seated(&self) -> bool
        ensures { result ≡ is_seated self.now.stage }
    {
        matches!(self.stage, WalkStage::Seated)
    }

    // Begins a client's call, where it is in none.
    fn look(
        &mut self,
        directory: &mut Directory,
        book: &Book,
        number: u32,
        call: &Call,
    ) -> Result<(), Refusal>
        requires ready { IsReady book.now directory.old self.old }
        ensures steps { Steps directory.old self.old directory.new self.new }
    {
        let WalkStage::Seated = self.stage else {
            return Err(Refusal::NotNow);
        };
        if u64::from(number) < self.unused || !is_client(self.who) {
            return Err(Refusal::NotNow);
        }
        let answer = self.ticket.look(directory, number, call)?;
        self.stage = stage_after_look(&answer, call);
        self.number = number;
        self.unused = u64::from(number) + 1;
        self.request = Some(book.request(self.who, number, call));
        Ok(())
    }

    // Draws the versions of a put or a write that has begun.
    fn draw(&mut self, directory: &mut Directory, book: &Book) -> Result<(), Refusal>
        requires ready { IsReady book.now directory.old self.old }
        ensures steps { Steps directory.old self.old directory.new self.new }
    {
        let WalkStage::Begun = self.stage else {
            return Err(Refusal::NotNow);
        };
        directory.keeps();
        let answer = self
            .ticket
            .draw(directory, self.number, book, self.request.as_ref())?;
        self.stage = stage_after_draw(&answer);
        self.drawn = drawn_by(&answer);
        self.unused = u64::from(self.number) + 1;
        Ok(())
    }

    fn commit(
        &mut self,
        directory: &mut Directory,
        book: &Book,
        alloc: Global,
    ) -> Result<(), Refusal>
        requires ready { IsReady book.now directory.old self.old }
        ensures steps { Steps directory.old self.old directory.new self.new }
    {
        let _ = book;
        let WalkStage::Drawn = self.stage else {
            return Err(Refusal::NotNow);
        };
        directory.keeps();
        let placed = rows(alloc, directory.geometry(), self.drawn)?;
        let answer = self.ticket.commit(directory, self.number, placed);
        self.stage = WalkStage::Seated;
        self.unused = unused_after_commit(&answer, self.number);
        Ok(())
    }

    fn end(&mut self, directory: &mut Directory, book: &Book) -> Result<(), Refusal>
        requires ready { IsReady book.now directory.old self.old }
        ensures steps { Steps directory.old self.old directory.new self.new }
    {
        let _ = book;
        if self.is_seated() {
            return Err(Refusal::NotNow);
        }
        let answer = self.ticket.end(directory, self.number);
        drop(answer);
        self.stage = WalkStage::Seated;
        self.unused = u64::from(self.number) + 1;
        Ok(())
    }

    /// Makes a step, where the actor may.
    pub fn make(
        &mut self,
        directory: &mut Directory,
        book: &Book,
        alloc: Global,
        step: Step<'_>,
    ) -> Result<(), Refusal>
        requires ready { IsReady book.now directory.old self.old }
        ensures steps { Steps directory.old self.old directory.new self.new }
    {
        match step {
            Step::Look { number, call } => self.look(directory, book, number, call),
            Step::Draw => self.draw(directory, book),
            Step::Commit => self.commit(directory, book, alloc),
            Step::End => self.end(directory, book),
        }
    }
}
