//! The turns at a store's locks that no actor has yet.
ghost use Rattle.std.specs.Prelude.{◌≡◌, ◌+◌, IfOk, OnOk};
ghost use Rattle.run_seats.specs.Places.{IsStore};
ghost use Rattle.store_run.specs.Dealt.{IsDeck};
ghost use Rattle.store_run.specs.First.{AreNew};

use run_seats::{DirectoryBox, ServerBox, Store, Turns};
use std::alloc::{AllocError, Global};
use turn_lock::{Turn, deal_row, take_last};

/// The turns at the directory and at each server, those of the least numbers at each.
#[derive(Drop)]
pub(crate) struct Deck {
    pub(crate) directory: Vec<Turn<DirectoryBox>>,
    pub(crate) servers: Vec<Vec<Turn<ServerBox>>>,
}

impl Deck {
    /// The turns of the greatest number that is left at the store's locks.
    pub(crate) fn deal(
        &mut self,
        alloc: Global,
        store: &Store,
        number: u32,
    ) -> Result<Turns, AllocError>
        requires store { IsStore store.now }
        requires deck { IsDeck store.now (number + 1) self.old }
        ensures turns { IfOk result (λ turns. AreNew store.now turns) }
        ensures number { IfOk result (λ turns. turns.number ≡ number) }
        ensures deck { OnOk result (IsDeck store.now number self.new) }
    {
        let servers = deal_row(alloc, &mut self.servers)?;
        let directory = take_last(&mut self.directory);
        Ok(Turns {
            number,
            directory,
            servers,
        })
    }
}
