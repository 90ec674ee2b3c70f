//! The transcript of a run that is over.
ghost use Rattle.std.specs.Prelude.{◌≡◌, IfOk, false};
ghost use Rattle.store_map.specs.declared.script.Script.{Script};
ghost use Rattle.store_run.specs.Ended.{IsEnded, has_sweep};
ghost use Rattle.store_run.specs.Swept.{IsRunToEnd};

use crate::ended::Ended;
use std::alloc::{AllocError, Global};
use store_map::Transcript;
use world_lines::make_transcript;

impl Ended {
    /// The transcript of the run. Calls in work are let go.
    pub(crate) fn finish(self, alloc: Global) -> Result<Transcript, AllocError>
        ghost script: { Script }
        requires ended { IsEnded script self }
        requires swept { has_sweep self ≡ false }
        ensures { IfOk result (IsRunToEnd script) }
    {
        let Ended {
            directory,
            servers,
            sweeper: _sweeper,
            clients,
            repairers,
        } = self;
        let transcript = make_transcript(
            alloc,
            &directory,
            servers.as_slice(),
            clients,
            repairers.as_slice(),
        );
        drop(directory);
        drop(servers);
        transcript
    }
}
