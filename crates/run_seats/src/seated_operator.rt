//! The operator with its turns at all places of a store.
ghost use Rattle.std.specs.Prelude.{◌≡◌, ◌+◌, ◌<◌, ℕ, true, false};
ghost use Rattle.thread_laws.specs.Threaded.{is_line};
ghost use Rattle.store_map.specs.declared.actor.Actor.TheVariants as actor;
ghost use Rattle.run_seats.specs.Telling.{IsTold};
ghost use Rattle.run_seats.specs.Places.{IsStore, last_by};
ghost use Rattle.run_seats.specs.SeatedPlain.{IsOperator, IsTarget, MayOperate, OperatesOn, line_left, lines_left};

use crate::gate::Gate;
use crate::operations::{operate_server, reap};
use crate::seat_turns::Turns;
use crate::stepper::Stepper;
use crate::store::Store;
use std::sync::Wait;
use store_map::{Actor, Token};

/// The operator with its lines of the script, and with its turns at the directory and at each server.
pub struct SeatedOperator {
    pub lines: Vec<Token>,
    // how many of them it has made
    pub made: usize,
    pub turns: Turns,
}

// Where a line is made.
pub(crate) enum Target {
    Server(u32),
    // at the directory, which gives up the actor's pass
    Pass(Actor),
}

// Where it is.
fn target_of(line: Token) -> Target
    requires { is_line line ≡ true }
    ensures { IsTarget line result }
{
    match line {
        Token::Wipe(server) => Target::Server(server),
        Token::Down(server) => Target::Server(server),
        Token::Up(server) => Target::Server(server),
        Token::ReapClient(client) => Target::Pass(Actor::Client(client)),
        Token::ReapRepairer(repairer) => Target::Pass(Actor::Repairer(repairer)),
        Token::Client(_) | Token::Repairer(_) | Token::Sweep | Token::Drain => unreachable!(),
    }
}

impl SeatedOperator {
    /// Whether it has a line left.
    pub fn has_line(&self) -> bool
        ensures { result ≡ line_left self.now }
    {
        self.made < self.lines.len()
    }

    // The turn, after the moment that its caller names.
    fn turn_after<R: Wait, G: Gate>(&mut self, rt: &R, gate: &G, store: &Store)
        ghost last: { ℕ }
        requires last { last ≡ last_by store.now self.old.turns }
        requires may { MayOperate store.now self.old }
        ensures steps { OperatesOn store.now self.old self.new }
        ensures told { IsTold (G.was_told gate.now) actor.Operator self.old.made }
    {
        let line = self.lines[self.made];
        let stepper = Stepper {
            actor: Actor::Operator,
            number: self.turns.number,
            steps: self.made as u64,
        };
        self.made += 1;
        match target_of(line) {
            Target::Server(server) => operate_server(
                rt,
                gate,
                &store.servers[server as usize],
                &mut self.turns.servers[server as usize],
                line,
                stepper,
            ),
            Target::Pass(actor) => reap(
                rt,
                gate,
                &store.directory,
                &mut self.turns.directory,
                actor,
                stepper,
            ),
        }
    }

    /// The step of its next line.
    pub fn turn<R: Wait, G: Gate>(&mut self, rt: &R, gate: &G, store: &Store)
        requires { MayOperate store.now self.old }
        ensures steps { OperatesOn store.now self.old self.new }
        ensures told { IsTold (G.was_told gate.now) actor.Operator self.old.made }
    {
        self.turn_after(rt, gate, store);
    }

    /// Its step, where it has a line left.
    pub fn visit<R: Wait, G: Gate>(&mut self, rt: &R, gate: &G, store: &Store)
        requires store { IsStore store.now }
        requires seated { IsOperator store.now self.old }
        ensures seated { IsOperator store.now self.new }
        ensures number { self.new.turns.number ≡ self.old.turns.number }
        ensures falls { line_left self.old ≡ true → lines_left store.now self.new < lines_left store.now self.old }
        ensures over { line_left self.old ≡ false → lines_left store.now self.new ≡ lines_left store.now self.old }
        ensures told { line_left self.old ≡ true → IsTold (G.was_told gate.now) actor.Operator self.old.made }
        ensures counted { line_left self.old ≡ true → self.new.made ≡ self.old.made + 1 }
    {
        if !self.has_line() {
            return;
        }
        self.turn(rt, gate, store);
    }
}
