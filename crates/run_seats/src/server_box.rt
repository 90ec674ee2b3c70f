//! A chunk server behind a lock.
ghost use Rattle.std.specs.Prelude.{◌≡◌};
ghost use Rattle.chunk_server.specs.Core.{core_of};
ghost use Rattle.store_core.specs.ActPlace.{ActPlace};
ghost use Rattle.thread_laws.specs.AtServer.{StandsAtServer};
ghost use Rattle.thread_laws.specs.Entries.{steps_in};
ghost use Rattle.thread_laws.specs.Operated.{IsOperated};

use chunk_server::Server;
use std::marker::Model;
use turn_lock::Historied;
use version_seal::Opening;

/// A step of the store's definitions. No value of it is made.
pub struct StepNote {
    nothing: (),
}

impl Model for StepNote {
    ghost use Rattle.thread_laws.specs.MadeSteps.{MadeStep};
    ghost use Rattle.thread_laws.specs.SomeStep.{some_step};

    ghost Value = { MadeStep };

    ghost view = { λ _. some_step };

    ghost invariant = { λ _. Unit {0} };
}

/// What never changes about a server: its number, the opening of the book of its versions, and how many
/// clients and repairers have turns at it. No value of it is made.
pub struct ServerIdentity {
    pub number: u32,
    pub opening: Opening,
    pub clients: u32,
    pub repairers: u32,
}

/// A server, and how many clients and repairers have turns at it.
#[derive(Drop)]
pub struct ServerBox {
    pub server: Server,
    pub clients: u32,
    pub repairers: u32,
}

impl Historied for ServerBox {
    type Fixed = ServerIdentity;

    type Entry = StepNote;

    ghost fixed_part = { λ b. record { number = b.server.number; opening = b.server.book; clients = b.clients; repairers = b.repairers } };

    ghost stands_for = { λ b log. StandsAtServer (record { clients = b.clients; repairers = b.repairers }) b.server.number (core_of b.server) log
        × IsOperated b.server.book.script (ActPlace.Server b.server.number) (steps_in log) };
}
