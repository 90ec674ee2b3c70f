//! What a call's gatherings do between two steps.
ghost use Rattle.std.specs.Prelude.{◌≡◌, ◌++◌, true, false, replicate, None, Some, is_some, is_err, IfSome, OnOk};
ghost use Rattle.clay_grid.specs.Shape.{chunk_count};
ghost use Rattle.run_laws.specs.State.{Sequel};
ghost use Rattle.call_steps.specs.CallOf.{CallOf};
ghost use Rattle.call_steps.specs.Steps.{coded as call_coded};
ghost use Rattle.gather_parts.specs.Gatherings.{bytes_at_work, owed};
ghost use Rattle.gather_parts.specs.Steps.{coded, handed_on, given_up, next_of};
ghost use Rattle.gather_parts.specs.Progress.{progress_of, is_due};
ghost use Rattle.gather_parts.specs.States.{state_in, StandsIn, after_coding};

use crate::gatherings::PartGatherings;
use crate::part_bounds::next_gather;
use crate::progress::Progress;
use clay_model::Coder;
use read_ledger::Takes;
use std::alloc::{AllocError, Global};
use std::thread::Threads;

// There are counts afterwards.
fn make_counts(takes: &mut Option<Takes>, alloc: Global, servers: u32) -> Result<(), AllocError>
    ensures there { OnOk result (is_some takes.new ≡ true) }
    ensures made { takes.old ≡ None → IfSome takes.new (λ counts. counts ≡ replicate servers 0) }
    ensures same { is_some takes.old ≡ true → takes.new ≡ takes.old }
{
    if takes.is_some() {
        return Ok(());
    }
    let counts = Takes::new(alloc, servers)?;
    *takes = Some(counts);
    Ok(())
}

impl PartGatherings {
    /// Hands over the bytes of the stripe whose parts have all come, those that are missing made anew,
    /// and begins the next stripe. It makes no step. Where memory is wanting the gatherings let go of
    /// all bytes, and the call has to end its pass.
    pub fn on_coder<R: Threads + Sync, C: Coder>(
        &mut self,
        rt: &R,
        coder: &C,
    ) -> Result<(), AllocError>
        requires { progress_of self.old ≡ Progress.Due }
        ensures coded { self.new ≡ coded (is_err result) self.old }
        ensures settled { is_due self.new ≡ false }
        ensures book { self.new.book ≡ self.old.book }
        ensures takes { self.new.takes ≡ self.old.takes }
        ensures state { OnOk result ((after : Sequel) → state_in self.new after ≡ state_in self.old after) }
        ensures owed { OnOk result (owed self.new ≡ owed self.old) }
        ensures call { (c : CallOf) (after : Sequel) → StandsIn c self.old after →
            after_coding (is_err result) c self.new after ≡ call_coded (is_err result) c }
    {
        match self.go_on(rt, coder) {
            Ok(()) => Ok(()),
            Err(error) => {
                self.give_up();
                Err(error)
            }
        }
    }

    fn go_on<R: Threads + Sync, C: Coder>(&mut self, rt: &R, coder: &C) -> Result<(), AllocError>
        requires { progress_of self.old ≡ Progress.Due }
        ensures on { OnOk result (self.new ≡ handed_on self.old) }
        ensures settled { OnOk result (is_due self.new ≡ false) }
        ensures book { self.new.book ≡ self.old.book }
        ensures takes { self.new.takes ≡ self.old.takes }
    {
        self.hand_over(rt, coder)?;
        self.begin_next()
    }

    // The bytes of the gathering at work, if there is one, come behind those before it.
    fn hand_over<R: Threads + Sync, C: Coder>(
        &mut self,
        rt: &R,
        coder: &C,
    ) -> Result<(), AllocError>
        requires { progress_of self.old ≡ Progress.Due }
        ensures over { OnOk result (self.new ≡ record self.old { current = None; bytes = self.old.bytes ++ bytes_at_work self.old.current }) }
        ensures book { self.new.book ≡ self.old.book }
        ensures takes { self.new.takes ≡ self.old.takes }
    {
        let Some(gather) = self.current.take() else {
            return Ok(());
        };
        gather.on_coder(rt, coder, &mut self.bytes)
    }

    // The next stripe with wanted bytes is at work.
    fn begin_next(&mut self) -> Result<(), AllocError>
        requires { self.old.current ≡ None }
        ensures next { OnOk result (self.new ≡ record self.old { current = (next_of self.old.book.geometry self.old.left).0; left = (next_of self.old.book.geometry self.old.left).1 }) }
        ensures settled { OnOk result (is_due self.new ≡ false) }
        ensures book { self.new.book ≡ self.old.book }
        ensures takes { self.new.takes ≡ self.old.takes }
    {
        let alloc = *self.bytes.allocator();
        make_counts(&mut self.takes, alloc, self.opening.geometry().n())?;
        self.current = next_gather(alloc, &self.opening, &mut self.left, self.start, self.end)?;
        Ok(())
    }

    // Want of memory ends the gatherings. What they hold is given back.
    fn give_up(&mut self)
        ensures { self.new ≡ given_up self.old }
    {
        let alloc = *self.bytes.allocator();
        self.current = None;
        self.left = Vec::new(alloc).into_iter();
        self.bytes = Vec::new(alloc);
    }
}
