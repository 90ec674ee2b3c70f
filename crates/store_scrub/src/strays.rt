//! Strays are dropped where they stand.
ghost use Rattle.std.specs.Prelude.{◌≡◌, [], All};
ghost use Rattle.store_core.specs.Lists.{change_at};
ghost use Rattle.store_core.specs.Directory.{Directory as CoreDirectory};
ghost use Rattle.store_core.specs.Sound.{IsSound};
ghost use Rattle.session_rules.specs.Scrubs.{lost_at};
ghost use Rattle.chunk_server.specs.Valid.{IsValid};
ghost use Rattle.chunk_server.specs.Steps.{after_discard};
ghost use Rattle.store_scrub.specs.Lost.{places_with, ArePresent};
ghost use Rattle.store_scrub.specs.Strays.{strays_in, without};

use crate::report::{Report, Stray};
use chunk_server::Server;

// What every server keeps. It does nothing when it runs.
fn keep(servers: &[Server])
    ensures { All IsValid servers.now }
{
    for server in servers {
        let _held = server.held();
    }
}

// Drops one chunk, where there is such a server that holds it.
fn drop_stray(servers: &mut [Server], stray: &Stray)
    ensures { servers.new ≡ change_at stray.now.server (after_discard stray.now.stamp.version) servers.old }
{
    let number = stray.server as usize;
    if number >= servers.len() {
        return;
    }
    let server = &mut servers[number];
    server.discard(stray.stamp.version());
}

/// Has each server discard the chunks that the report lists as its strays. Where the report is a scrub's
/// of this directory and these servers, since which nothing changed, no stray is left, and the same
/// chunks are lost.
pub fn drop_strays(servers: &mut [Server], report: &Report)
    ensures dropped { servers.new ≡ without report.now.strays.items servers.old }
    ensures present { ArePresent servers.old → ArePresent servers.new }
    ensures none { (d : CoreDirectory) → report.now.strays.items ≡ strays_in d.versions servers.old
        → strays_in d.versions servers.new ≡ [] }
    ensures lost { (d : CoreDirectory) → IsSound d → report.now.strays.items ≡ strays_in d.versions servers.old
        → lost_at (places_with d servers.new) ≡ lost_at (places_with d servers.old) }
{
    keep(servers);
    for stray in report.strays.iter() {
        drop_stray(servers, stray);
    }
}
