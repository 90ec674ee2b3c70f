//! The transcript of a run that is over, from all its lists.
ghost use Rattle.std.specs.Prelude.{◌≡◌, ◌^◌, ◌≤◌, length, is_some, IfOk, IsTrue};
ghost use Rattle.store_map.specs.Limits.{size_of};
ghost use Rattle.store_map.specs.declared.script.Script.{Script};
ghost use Rattle.store_core.specs.Core.{Core};
ghost use Rattle.store_core.specs.History.{call_of};
ghost use Rattle.store_core.specs.Shown.{shown};
ghost use Rattle.call_steps.specs.CallerCalls.{counts_of, HaveNames};
ghost use Rattle.world_laws.specs.Served.{ServedAre};
ghost use Rattle.world_laws.specs.HeldCore.{Holds};

use crate::lines_of_history::history_lines;
use crate::lines_of_takes::take_lines;
use crate::refused::{refused_lines, repair_lines};
use crate::stored::{object_lines, server_lines};
use crate::unanswered::unanswered_lines;
use call_steps::CallerCalls;
use chunk_server::Server;
use std::alloc::{AllocError, Global};
use store_map::Transcript;
use stripe_dir::Directory;

/// The transcript of a script's run that is over, from the directory, the servers in their order, and the
/// actors' calls. The bytes that calls were served are moved into it.
pub fn make_transcript(
    alloc: Global,
    directory: &Directory,
    servers: &[Server],
    clients: Vec<CallerCalls>,
    repairers: &[CallerCalls],
) -> Result<Transcript, AllocError>
    requires script { IsTrue (is_some directory.now.book.script) }
    requires servers { length servers.now ≤ 2 ^ 32 }
    requires clients { HaveNames (counts_of clients.items) }
    requires repairers { HaveNames (counts_of repairers.now) }
    ensures { IfOk result (λ transcript. (script : Script) (core : Core) → Holds core directory.now.core servers.now clients.items repairers.now
        → ServedAre (size_of script) (call_of script) directory.now.core.points clients.items → transcript ≡ shown script core) }
{
    let refused = refused_lines(alloc, &clients)?;
    let repairs = repair_lines(alloc, repairers)?;
    let unanswered = unanswered_lines(alloc, &clients, repairers)?;
    let objects = object_lines(alloc, directory)?;
    let takes = take_lines(alloc, &clients, repairers)?;
    let servers = server_lines(alloc, servers)?;
    let history = history_lines(alloc, directory, clients)?;
    Ok(Transcript {
        history,
        refused,
        repairs,
        unanswered,
        objects,
        takes,
        servers,
    })
}
