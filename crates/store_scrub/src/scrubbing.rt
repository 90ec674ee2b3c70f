//! The scrub: each object's chunks are looked for at their servers, and each server's chunks in the directory.
ghost use Rattle.std.specs.Prelude.{◌≡◌, ◌<◌, ◌^◌, ◌++◌, false, not, length, map, filter, IfOk, OnOk};
ghost use Rattle.clay_grid.specs.Shape.{chunk_count};
ghost use Rattle.store_core.specs.Lists.{is_among};
ghost use Rattle.store_core.specs.Directory.{Directory as CoreDirectory};
ghost use Rattle.session_rules.specs.Scrubs.{lost_of, lost_at};
ghost use Rattle.chunk_server.specs.Core.{core_of};
ghost use Rattle.store_scrub.specs.Lost.{lost_in, lost_from, places_with, ArePresent};
ghost use Rattle.store_scrub.specs.Strays.{is_stray, stray_at, strays_in};

use crate::report::{LostChunk, Report, Stray};
use chunk_server::{Presence, Server};
use std::alloc::{AllocError, Global};
use store_map::{Name, Version};
use stripe_dir::Directory;
use version_seal::Stamp;

// Whether a server that is present doesn't hold the version's chunk.
fn lacks(server: &Server, version: Version) -> bool
    requires { server.now.away ≡ false }
    ensures { result ≡ not (is_among version.0 (core_of server.now).held) }
{
    match server.has(version) {
        Presence::Here => false,
        Presence::Missing { .. } => true,
    }
}

// The chunks of one version that their servers don't hold come after the others.
fn add_lost(
    lost: &mut Vec<LostChunk>,
    name: &Name,
    stripe: u32,
    version: Version,
    servers: &[Server],
) -> Result<(), AllocError>
    requires few { length servers.now < 2 ^ 32 }
    requires present { ArePresent servers.now }
    ensures { (d : CoreDirectory) → OnOk result (map lost_in lost.new.items
        ≡ map lost_in lost.old.items ++ lost_from (places_with d servers.now) name.now (stripe, version.0)) }
{
    for (number, server) in servers.iter().enumerate() {
        if lacks(server, version) {
            lost.push(LostChunk {
                name: name.copy()?,
                stripe,
                server: number as u32,
            })?;
        }
    }
    Ok(())
}

// So do those of an object with these versions.
fn add_lost_of(
    lost: &mut Vec<LostChunk>,
    name: &Name,
    versions: &[u64],
    servers: &[Server],
) -> Result<(), AllocError>
    requires few { length servers.now < 2 ^ 32 }
    requires present { ArePresent servers.now }
    ensures { (d : CoreDirectory) → OnOk result (map lost_in lost.new.items
        ≡ map lost_in lost.old.items ++ lost_of (places_with d servers.now) (name.now, versions.now)) }
{
    for (stripe, version) in versions.iter().enumerate() {
        // No object has more stripes.
        let Ok(stripe) = u32::try_from(stripe) else {
            return Err(AllocError);
        };
        add_lost(lost, name, stripe, Version(*version), servers)?;
    }
    Ok(())
}

fn lost_chunks(
    alloc: Global,
    directory: &Directory,
    servers: &[Server],
) -> Result<Vec<LostChunk>, AllocError>
    requires few { length servers.now < 2 ^ 32 }
    requires present { ArePresent servers.now }
    ensures { IfOk result (λ lost. map lost_in lost.items
        ≡ lost_at (places_with directory.now.core servers.now)) }
{
    let objects = directory.objects_in_order(alloc)?;
    let mut lost = Vec::new(alloc);
    for object in objects.iter() {
        let (name, contents) = *object;
        add_lost_of(&mut lost, name, &contents.versions, servers)?;
    }
    Ok(lost)
}

// The strays among the chunks with these stamps, which a server holds, come after the others.
fn add_strays(
    strays: &mut Vec<Stray>,
    directory: &Directory,
    server: u32,
    stamps: &[Stamp],
) -> Result<(), AllocError>
    ensures { OnOk result (strays.new.items ≡ strays.old.items
        ++ map (stray_at server) (filter (is_stray directory.now.core.versions) stamps.now)) }
{
    for stamp in stamps {
        if !directory.knows(stamp.version()) {
            strays.push(Stray {
                server,
                stamp: stamp.copy(),
            })?;
        }
    }
    Ok(())
}

fn strays_of(
    alloc: Global,
    directory: &Directory,
    servers: &[Server],
) -> Result<Vec<Stray>, AllocError>
    requires { length servers.now < 2 ^ 32 }
    ensures { IfOk result (λ strays. strays.items
        ≡ strays_in directory.now.core.versions servers.now) }
{
    let mut strays = Vec::new(alloc);
    for (number, server) in servers.iter().enumerate() {
        let stamps = server.stamps(alloc)?;
        add_strays(&mut strays, directory, number as u32, &stamps)?;
    }
    Ok(strays)
}

/// Lists the chunks of current versions that their server doesn't hold, and the chunks that servers
/// hold of versions that the directory doesn't know. The servers are the directory's, in order, and none
/// of them is away. It changes nothing.
pub fn scrub(alloc: Global, directory: &Directory, servers: &[Server]) -> Result<Report, AllocError>
    requires count { length servers.now ≡ chunk_count directory.now.core.shape }
    requires present { ArePresent servers.now }
    ensures lost { IfOk result (λ report. map lost_in report.lost.items
        ≡ lost_at (places_with directory.now.core servers.now)) }
    ensures strays { IfOk result (λ report. report.strays.items
        ≡ strays_in directory.now.core.versions servers.now) }
{
    // That numbers of 32 bits name the servers follows from their count.
    let _count = directory.geometry().n();
    let lost = lost_chunks(alloc, directory, servers)?;
    let strays = strays_of(alloc, directory, servers)?;
    Ok(Report { lost, strays })
}
