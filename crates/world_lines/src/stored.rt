//! The `L` lines of the objects, and the `T` lines of the servers.
ghost use Rattle.std.specs.Prelude.{◌≡◌, ◌^◌, ◌≤◌, length, map, IfOk};
ghost use Rattle.chunk_server.specs.Core.{core_of};
ghost use Rattle.world_lines.specs.Lists.{object_lines, server_lines};

use chunk_server::Server;
use std::alloc::{AllocError, Global};
use store_map::{LLine, ListOf, TLine};
use stripe_dir::Directory;

/// The lines of the objects, in order of creation.
pub fn object_lines(alloc: Global, directory: &Directory) -> Result<ListOf<LLine>, AllocError>
    ensures { IfOk result (λ lines. lines ≡ object_lines directory.now.core.objects) }
{
    let objects = directory.objects_in_order(alloc)?;
    let mut lines = ListOf::new(alloc);
    for object in objects.iter() {
        let (name, contents) = *object;
        lines.push(LLine {
            name: name.copy()?,
            length: contents.length,
        })?;
    }
    Ok(lines)
}

/// The lines of the servers, in their order.
pub fn server_lines(alloc: Global, servers: &[Server]) -> Result<ListOf<TLine>, AllocError>
    requires { length servers.now ≤ 2 ^ 32 }
    ensures { IfOk result (λ lines. lines ≡ server_lines (map core_of servers.now)) }
{
    let mut lines = ListOf::new(alloc);
    for (server, state) in servers.iter().enumerate() {
        lines.push(TLine {
            server: server as u32,
            taken: state.taken(),
            held: state.held() as u64,
            epoch: state.epoch(),
        })?;
    }
    Ok(lines)
}
